// The byte that begins a frame, and what a byte says as one.
ghost use Rattle.std.specs.Prelude.{◌≡◌};
ghost use Rattle.wire.specs.Frames.{kind_byte, head_named};

use crate::{Head, Order};
use gateway::Kind;
use refusal::Refusal;

/// The byte that begins an active frame, high byte first.
const ACTIVE: u8 = 0x41;
/// The byte that begins a passive one.
const PASSIVE: u8 = 0x42;
/// What either has more where the low byte comes first.
const LOW_FIRST: u8 = 0x20;

impl From<Head> for u8 {
    ghost from_gives = { λ head byte. byte ≡ kind_byte head.order head.kind };

    fn from(head: Head) -> u8 {
        match (head.order, head.kind) {
            (Order::High, Kind::Active) => ACTIVE,
            (Order::High, Kind::Passive) => PASSIVE,
            (Order::Low, Kind::Active) => ACTIVE + LOW_FIRST,
            (Order::Low, Kind::Passive) => PASSIVE + LOW_FIRST,
        }
    }
}

// Refused 12 where no frame begins with the byte.
impl TryFrom<u8> for Head {
    type Error = Refusal;

    ghost try_from_gives = { λ byte head. head ≡ head_named byte };

    // One jump, whatever the mix of kinds and orders.
    fn try_from(byte: u8) -> Result<Self, Refusal> {
        let bare = byte - byte / LOW_FIRST % 2 * LOW_FIRST;
        if !matches!(bare, ACTIVE | PASSIVE) {
            return Err(Refusal::UnknownKind);
        }
        let order = if byte == bare {
            Order::High
        } else {
            Order::Low
        };
        let kind = if bare == ACTIVE {
            Kind::Active
        } else {
            Kind::Passive
        };
        Ok(Head { order, kind })
    }
}
