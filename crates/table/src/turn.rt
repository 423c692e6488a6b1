// What comes of choosing a process. Without a place it is one byte; a place is added where an answer is given.
ghost use Rattle.std.specs.Prelude.{◌≡◌};

use refusal::Refusal;

#[derive(Clone, Copy, Debug, PartialEq, Eq)]
pub(crate) enum Turn {
    /// It moved, to another state than 6.
    Moved,
    /// It moved, and announced.
    Announced,
    /// There is no such process.
    NoProcess,
    /// The queue to take from is empty.
    Empty,
    /// The queue to put to is full.
    Full,
    /// The oldest message is of the wrong kind.
    WrongKind,
    /// It is in state 6.
    Over,
}

impl Turn {
    ghost use Rattle.table.specs.Inside.{moved, announced, answered};

    /// Whether the process moved.
    pub(crate) fn moved(self) -> bool
        ensures { result ≡ moved self }
    {
        matches!(self, Turn::Moved | Turn::Announced)
    }

    /// Whether it announced.
    pub(crate) fn announced(self) -> bool
        ensures { result ≡ announced self }
    {
        matches!(self, Turn::Announced)
    }

    /// The answer, where `chosen` of so many processes was chosen.
    pub(crate) fn answer(self, processes: u32, chosen: u32) -> Result<(), Refusal>
        ensures { result ≡ answered processes chosen self }
    {
        match self {
            Turn::Moved | Turn::Announced => Ok(()),
            Turn::NoProcess => Err(Refusal::NoProcess(processes)),
            Turn::Empty => Err(Refusal::Empty(chosen)),
            Turn::Full => Err(Refusal::Full(chosen)),
            Turn::WrongKind => Err(Refusal::WrongKind(chosen)),
            Turn::Over => Err(Refusal::Over(chosen)),
        }
    }
}
