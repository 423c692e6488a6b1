// The numbers of states and kinds, as words and frames have them, and back.
ghost use Rattle.std.specs.Prelude.{◌≡◌};
ghost use Rattle.gateway.specs.Numbers.{state_number, state_of, NamesState, kind_number, kind_of, NamesKind};

use crate::{Kind, State};

/// The largest number of a state.
pub const LAST_STATE: u32 = 6;

/// The largest number of a kind.
pub const LAST_KIND: u32 = 1;

/// A number that no state or kind has.
#[derive(Clone, Copy, Debug, PartialEq, Eq)]
pub struct Unnamed {
    pub number: u32,
}

impl From<State> for u32 {
    ghost from_gives = { λ state number. number ≡ state_number state };

    fn from(state: State) -> u32 {
        state as u32
    }
}

impl TryFrom<u32> for State {
    type Error = Unnamed;

    ghost try_from_gives = { NamesState };

    fn try_from(number: u32) -> Result<Self, Unnamed> {
        match number {
            0 => Ok(State::Sends),
            1 => Ok(State::Listens),
            2 => Ok(State::Compares),
            3 => Ok(State::Decides),
            4 => Ok(State::Relays),
            5 => Ok(State::Carries),
            6 => Ok(State::Leads),
            _ => Err(Unnamed { number }),
        }
    }
}

impl State {
    /// The state of a number; one that no state has counts as the last.
    pub fn of(number: u32) -> State
        ensures { result ≡ state_of number }
    {
        State::try_from(number).unwrap_or(State::Leads)
    }
}

impl From<Kind> for u32 {
    ghost from_gives = { λ kind number. number ≡ kind_number kind };

    fn from(kind: Kind) -> u32 {
        kind as u32
    }
}

impl TryFrom<u32> for Kind {
    type Error = Unnamed;

    ghost try_from_gives = { NamesKind };

    // By a test: with a match of three arms a write of mixed kinds takes a fifth longer.
    fn try_from(number: u32) -> Result<Self, Unnamed> {
        if number > LAST_KIND {
            return Err(Unnamed { number });
        }
        Ok(if number == 1 {
            Kind::Active
        } else {
            Kind::Passive
        })
    }
}

impl Kind {
    /// The kind of a number; one that no kind has counts as the last.
    pub fn of(number: u32) -> Kind
        ensures { result ≡ kind_of number }
    {
        Kind::try_from(number).unwrap_or(Kind::Active)
    }
}
