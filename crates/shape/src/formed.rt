// Whether a slice holds a well-formed table, and of which shape.
ghost use Rattle.std.specs.Prelude.{◌≡◌, true, false, Err, IfOk, OnOk, OnErr};
ghost use Rattle.words.specs.Table.{count_of, capacity_of};
ghost use Rattle.words.specs.WellFormed.{well_formed};

use crate::laid::Laid;
use crate::measure::Shape;
use crate::{identities, places};
use refusal::Refusal;

/// Whether a slice holds a well-formed table; words beyond it are not looked at. One copy serves every entry.
#[inline(never)]
pub fn well_formed(words: &[u32]) -> bool
    ensures { result ≡ well_formed words.now }
{
    let &[processes, capacity, ..] = words else {
        return false;
    };
    let Ok(shape) = Shape::new(processes as usize, capacity) else {
        return false;
    };
    if words.len() < shape.words() {
        return false;
    }
    let laid = Laid { words, shape };
    identities::first_in(&laid).is_none() && laid.all_ok()
}

impl Shape {
    /// The shape of the well-formed table that a slice begins with: refused 5 where it is none.
    #[inline(always)]
    #[tactic(auto, using(crate::proofs::Verdicts::headed))]
    pub fn of(words: &[u32]) -> Result<Shape, Refusal>
        ensures malformed { OnErr result (well_formed words.now ≡ false) }
        ensures refused { OnErr result (result ≡ Err Refusal.Malformed) }
        ensures formed { OnOk result (well_formed words.now ≡ true) }
        ensures count { IfOk result (λ s. s.processes ≡ count_of words.now) }
        ensures capacity { IfOk result (λ s. s.capacity ≡ capacity_of words.now) }
    {
        if !well_formed(words) {
            return Err(Refusal::Malformed);
        }
        Ok(Shape {
            processes: words[places::COUNT],
            capacity: words[places::CAPACITY],
        })
    }
}
