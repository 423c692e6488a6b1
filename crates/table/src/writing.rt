// A well-formed table, lent to be written: what a turn makes of its ring.
ghost use Rattle.std.specs.Prelude.{◌≤◌, ◌<◌, ◌≡◌, false, length};
ghost use Rattle.gateway.specs.declared.Want.TheVariants.{Takes};
ghost use Rattle.gateway.specs.Row.{in_state};
ghost use Rattle.ring.specs.Ring.{prev, puts, queue_of};
ghost use Rattle.ring.specs.Gateways.{wanted, proc_at};
ghost use Rattle.words.specs.Table.{ring_of};
ghost use Rattle.table.specs.Formed.{Formed};
ghost use Rattle.table.specs.Inside.{turned, move_of};

use crate::reading::Table;
use crate::record;
use crate::turn::Turn;
use gateway::{Message, Process, State, Want};
use ring::End;
use rows::{Long, Rules};
use shape::Shape;
use words::Ran;

#[derive(Drop)]
pub(crate) struct Ring<'a> {
    pub(crate) words: &'a mut [u32],
    pub(crate) shape: Shape,
    ghost formed: { Formed words.now shape.processes shape.capacity },
}

impl Ring<'_> {
    ghost use Rattle.table.specs.Inside.{entering, replacing, pushing, popping, is_leads, served};
    ghost use Rattle.table.specs.Running.{run_on};

    /// The same, to be read.
    fn table(&self) -> Table<'_>
        ensures words { result.words.now ≡ self.now.words.now }
        ensures shape { result.shape ≡ self.now.shape }
    {
        Table {
            words: &*self.words,
            shape: self.shape,
        }
    }

    /// Process j goes to another state: announcing changes no other word.
    fn enter(&mut self, j: u32, state: State)
        requires { j < self.old.shape.processes }
        ensures same_slice { self.new.words.ghost_name ≡ self.old.words.ghost_name }
        ensures shape { self.new.shape ≡ self.old.shape }
        ensures words { self.new.words.now ≡ entering self.old.words.now j state }
    {
        let place = self.shape.place(j);
        record::enter(&mut self.words[place..place + self.shape.width()], state);
    }

    /// It becomes another, of the same identity.
    fn replace(&mut self, j: u32, process: Process)
        requires index { j < self.old.shape.processes }
        requires same { process.identity ≡ (proc_at (ring_of self.old.words.now) j).identity }
        ensures same_slice { self.new.words.ghost_name ≡ self.old.words.ghost_name }
        ensures shape { self.new.shape ≡ self.old.shape }
        ensures words { self.new.words.now ≡ replacing self.old.words.now j process }
    {
        let place = self.shape.place(j);
        record::replace(&mut self.words[place..place + self.shape.width()], process);
    }

    /// Its queue gains a message, and it goes to another state.
    fn push(&mut self, j: u32, message: Message, state: State)
        requires index { j < self.old.shape.processes }
        requires room { length (queue_of (ring_of self.old.words.now) j) < self.old.shape.capacity }
        ensures same_slice { self.new.words.ghost_name ≡ self.old.words.ghost_name }
        ensures shape { self.new.shape ≡ self.old.shape }
        ensures words { self.new.words.now ≡ pushing self.old.words.now j message state }
    {
        let place = self.shape.place(j);
        record::push(
            &mut self.words[place..place + self.shape.width()],
            message,
            state,
        );
    }

    /// Queue i loses its oldest message.
    fn pop(&mut self, i: u32)
        requires index { i < self.old.shape.processes }
        requires some { 1 ≤ length (queue_of (ring_of self.old.words.now) i) }
        ensures same_slice { self.new.words.ghost_name ≡ self.old.words.ghost_name }
        ensures shape { self.new.shape ≡ self.old.shape }
        ensures words { self.new.words.now ≡ popping self.old.words.now i }
    {
        let place = self.shape.place(i);
        record::pop(&mut self.words[place..place + self.shape.width()]);
    }

    /// Process j puts a message and goes to another state, where its queue has room.
    fn put(&mut self, j: u32, message: Message, state: State) -> Turn
        requires index { j < self.old.shape.processes }
        requires quiet { is_leads state ≡ false }
        ensures same_slice { self.new.words.ghost_name ≡ self.old.words.ghost_name }
        ensures shape { self.new.shape ≡ self.old.shape }
        ensures turn { (result, self.new.words.now)
            ≡ turned self.old.words.now j
            (served self.old.words.now j (puts message (in_state state (proc_at (ring_of self.old.words.now) j)))) }
    {
        if self.shape.capacity <= self.table().queued(j) {
            return Turn::Full;
        }
        self.push(j, message, state);
        Turn::Moved
    }

    /// The process from which j takes.
    fn before(&self, j: u32) -> u32
        requires { j < self.now.shape.processes }
        ensures before { result ≡ prev self.now.shape.processes j }
        ensures within { result < self.now.shape.processes }
    {
        if j == 0 {
            self.shape.processes - 1
        } else {
            j - 1
        }
    }

    /// Process j takes from the queue before it.
    fn take(&mut self, j: u32, process: Process) -> Turn
        requires index { j < self.old.shape.processes }
        requires there { process ≡ proc_at (ring_of self.old.words.now) j }
        ensures same_slice { self.new.words.ghost_name ≡ self.old.words.ghost_name }
        ensures shape { self.new.shape ≡ self.old.shape }
        ensures turn { (result, self.new.words.now)
            ≡ turned self.old.words.now j (served self.old.words.now j (wanted process Takes)) }
    {
        let before = self.before(j);
        let Some(message) = self.table().oldest(before) else {
            return Turn::Empty;
        };
        let Some(next) = Long::take_in(process, message) else {
            return Turn::WrongKind;
        };
        self.replace(j, next);
        self.pop(before);
        Turn::Moved
    }

    /// Process j is chosen.
    fn advance(&mut self, j: u32) -> Turn
        ensures same_slice { self.new.words.ghost_name ≡ self.old.words.ghost_name }
        ensures shape { self.new.shape ≡ self.old.shape }
        ensures turn { (result, self.new.words.now) ≡ turned self.old.words.now j (move_of self.old.words.now j) }
    {
        if self.shape.processes <= j {
            return Turn::NoProcess;
        }
        let process = self.table().process(j);
        match Long::wants(process) {
            Want::Puts(message, next) => self.put(j, message, next.state),
            Want::Takes => self.take(j, process),
            Want::Announces(next) => {
                self.enter(j, next.state);
                Turn::Announced
            }
            Want::Ends => Turn::Over,
        }
    }

    /// Chooses one process after the other, up to the announcement, the last byte or the budget. State 6 is looked for
    /// once: a move tells whether it announced.
    pub(crate) fn run(&mut self, schedule: &[u8], budget: u32) -> Ran
        ensures same_slice { self.new.words.ghost_name ≡ self.old.words.ghost_name }
        ensures run { (result, self.new.words.now) ≡ run_on self.old.words.now schedule.now budget 0 0 }
    {
        let mut over = self.table().leader().is_some();
        let mut rest = schedule;
        let mut taken: u32 = 0;
        let mut skipped: usize = 0;
        let end = 'turns: loop {
            if over {
                break End::Announced;
            }
            let Some((choice, later)) = rest.split_first() else {
                break End::UsedUp;
            };
            if taken == budget {
                break End::Spent;
            }
            let came = turn(self.words, self.shape, *choice as u32);
            if came.moved() {
                taken += 1;
                over = came.announced();
            } else {
                skipped += 1;
            }
            rest = later;
        };
        Ran {
            end,
            taken,
            skipped,
        }
    }
}

/// Process j of a well-formed table is chosen. Slice and shape are handed over by value, which keeps them in registers.
#[inline(never)]
pub(crate) fn turn(words: &mut [u32], shape: Shape, j: u32) -> Turn
    requires { Formed words.old shape.processes shape.capacity }
    ensures { (result, words.new) ≡ turned words.old j (move_of words.old j) }
{
    Ring { words, shape }.advance(j)
}
