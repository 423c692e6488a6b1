// A text while it is put together, in a lent buffer.
ghost use Rattle.std.specs.Prelude.{◌+◌, ◌≤◌, length};

/// What is put stands before `end`; the bytes behind it are as they were lent.
#[derive(Drop)]
pub(crate) struct Text<'a> {
    pub(crate) room: &'a mut [u8],
    pub(crate) end: usize,
}

impl Text<'_> {
    ghost use Rattle.report.specs.Inside.{Puts};

    /// Puts a string behind what is there.
    #[inline(always)]
    pub(crate) fn push_str(&mut self, text: &str)
        requires { self.old.end + length text.now ≤ length self.old.room.now }
        ensures { Puts self.old self.new text.now }
    {
        let end = self.end + text.len();
        self.room[self.end..end].copy_from_slice(text.as_bytes());
        self.end = end;
    }
}
