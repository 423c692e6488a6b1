// A well-formed table, lent to be read.
ghost use Rattle.std.specs.Prelude.{◌<◌, ◌≡◌, length, IfSome};
ghost use Rattle.gateway.specs.declared.State.TheVariants.{Leads};
ghost use Rattle.ring.specs.Ring.{queue_of};
ghost use Rattle.ring.specs.Gateways.{proc_at, is_in, leader_of};
ghost use Rattle.words.specs.Layout.{record_width};
ghost use Rattle.words.specs.Table.{record_at, ring_of};
ghost use Rattle.shape.specs.Found.{found};
ghost use Rattle.table.specs.Formed.{Formed};

use crate::record;
use gateway::{Message, Process, State};
use shape::{Shape, places};
use words::Leader;

#[derive(Clone, Copy)]
pub(crate) struct Table<'a> {
    pub(crate) words: &'a [u32],
    pub(crate) shape: Shape,
    ghost formed: { Formed words.now shape.processes shape.capacity },
}

impl Table<'_> {
    ghost use Rattle.words.specs.Outcomes.{led};
    ghost use Rattle.table.specs.Inside.{oldest};

    /// The words of record j.
    #[tactic(auto, using(crate::proofs::Writes::inside))]
    fn record(&self, j: u32) -> &[u32]
        requires { j < self.now.shape.processes }
        ensures words { result.now ≡ record_at self.now.words.now self.now.shape.capacity j }
        ensures width { length result.now ≡ record_width self.now.shape.capacity }
    {
        let place = self.shape.place(j);
        &self.words[place..place + self.shape.width()]
    }

    /// Process j.
    pub(crate) fn process(&self, j: u32) -> Process
        requires { j < self.now.shape.processes }
        ensures { result ≡ proc_at (ring_of self.now.words.now) j }
    {
        record::process(self.record(j))
    }

    /// How many messages its queue has.
    pub(crate) fn queued(&self, j: u32) -> u32
        requires { j < self.now.shape.processes }
        ensures { result ≡ length (queue_of (ring_of self.now.words.now) j) }
    {
        self.record(j)[places::LENGTH]
    }

    /// The oldest of them.
    pub(crate) fn oldest(&self, j: u32) -> Option<Message>
        requires { j < self.now.shape.processes }
        ensures { result ≡ oldest (queue_of (ring_of self.now.words.now) j) }
    {
        let words = self.record(j);
        if words[places::LENGTH] == 0 {
            return None;
        }
        Some(record::oldest(words))
    }

    /// Whether it is in state 6.
    fn leads(&self, j: u32) -> bool
        requires { j < self.now.shape.processes }
        ensures { result ≡ is_in Leads (ring_of self.now.words.now) j }
    {
        self.process(j).state == State::Leads
    }

    /// The lowest process in state 6.
    pub(crate) fn leader(&self) -> Option<u32>
        ensures found { result
            ≡ found self.now.shape.processes (leader_of self.now.shape.processes (ring_of self.now.words.now)) }
        ensures within { IfSome result (λ j. j < self.now.shape.processes) }
    {
        (0..self.shape.processes).find(|&j| self.leads(j))
    }

    /// And its value.
    pub(crate) fn led(&self) -> Option<Leader>
        ensures { result ≡ led self.now.shape.processes (ring_of self.now.words.now) }
    {
        let process = self.leader()?;
        Some(Leader {
            process,
            value: self.process(process).d,
        })
    }
}
