// A slice that is long enough for the table that its head speaks of.
ghost use Rattle.std.specs.Prelude.{◌≤◌, ◌<◌, ◌≡◌, length};
ghost use Rattle.words.specs.Layout.{record_width, table_length};
ghost use Rattle.words.specs.Table.{capacity_of, record_at};
ghost use Rattle.words.specs.WellFormed.{ident_at};
ghost use Rattle.shape.specs.Chains.{each_record};

use crate::identities::Identities;
use crate::measure::Shape;
use crate::{places, records};

#[derive(Clone, Copy)]
pub(crate) struct Laid<'a> {
    pub(crate) words: &'a [u32],
    pub(crate) shape: Shape,
    ghost capacity: { shape.capacity ≡ capacity_of words.now },
    ghost long: { table_length shape.processes shape.capacity ≤ length words.now },
}

impl Laid<'_> {
    /// Record j.
    #[tactic(auto, using(words::proofs::Tables::record_inside))]
    fn record(&self, j: u32) -> &[u32]
        requires { j < self.now.shape.processes }
        ensures words { result.now ≡ record_at self.now.words.now self.now.shape.capacity j }
        ensures width { length result.now ≡ record_width self.now.shape.capacity }
    {
        let place = self.shape.place(j);
        &self.words[place..place + self.shape.width()]
    }

    /// Whether every record is well-formed. Apart from the identities the loop over a record's slots has its registers.
    #[inline(never)]
    pub(crate) fn all_ok(&self) -> bool
        ensures { result ≡ each_record self.now.shape.processes self.now.shape.capacity self.now.words.now }
    {
        (0..self.shape.processes).all(|j| records::record_ok(self.record(j), self.shape.capacity))
    }
}

impl Identities for Laid<'_> {
    ghost total = { λ laid. laid.shape.processes };

    ghost given = { λ laid. ident_at laid.words.now };

    fn count(&self) -> usize {
        self.shape.processes as usize
    }

    #[tactic(auto, using(words::proofs::Tables::record_inside))]
    fn identity(&self, i: usize) -> u32 {
        self.words[places::TABLE_HEAD + i * self.shape.width() + places::IDENT]
    }
}
