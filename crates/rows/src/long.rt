// Document 01's rows.
ghost use Rattle.std.specs.Prelude.{◌≡◌, true};
ghost use Rattle.gateway.specs.declared.Process.{Process};
ghost use Rattle.gateway.specs.declared.Want.TheVariants.{Takes};
ghost use Rattle.gateway.specs.Row.{row_in, row, took};
ghost use Rattle.gateway.proofs.SameIdentity.{row_same, took_same};

use crate::Rules;
use gateway::{Kind, Message, Process, State, Want};

/// The published rows, as an instance of the rules.
#[derive(Clone, Copy, Debug, PartialEq, Eq)]
pub struct Long;

/// A bit for each state that takes: 1, 3 and 4.
const TAKERS: u32 = 0b11010;

/// Whether a state takes. `matches!` would join the match below, and its jump table.
fn takes(state: State) -> bool
    ensures { (p : Process) → result ≡ true → row_in state p ≡ Takes }
{
    let number: u32 = state.into();
    (TAKERS >> number) % 2 == 1
}

impl Rules for Long {
    ghost row = { row };

    ghost took = { took };

    // Most choices of a run are of processes that take, which are told apart first, without a jump table.
    fn wants(process: Process) -> Want {
        if takes(process.state) {
            return Want::Takes;
        }
        match process.state {
            State::Sends => Want::Puts(
                Message {
                    value: process.d,
                    kind: Kind::Active,
                },
                Process {
                    state: State::Listens,
                    ..process
                },
            ),
            State::Compares if process.d == process.e => Want::Announces(Process {
                state: State::Leads,
                ..process
            }),
            State::Compares => Want::Puts(
                Message {
                    value: process.e,
                    kind: Kind::Passive,
                },
                Process {
                    state: State::Decides,
                    ..process
                },
            ),
            State::Carries => Want::Puts(
                Message {
                    value: process.d,
                    kind: process.b,
                },
                Process {
                    state: State::Relays,
                    ..process
                },
            ),
            State::Listens | State::Decides | State::Relays => Want::Takes,
            State::Leads => Want::Ends,
        }
    }

    fn take_in(process: Process, message: Message) -> Option<Process> {
        match (process.state, message.kind) {
            (State::Listens, Kind::Active) => Some(Process {
                state: State::Compares,
                e: message.value,
                ..process
            }),
            (State::Decides, Kind::Passive) if process.d.max(message.value) < process.e => {
                Some(Process {
                    state: State::Sends,
                    d: process.e,
                    ..process
                })
            }
            (State::Decides, Kind::Passive) => Some(Process {
                state: State::Relays,
                b: Kind::Passive,
                ..process
            }),
            (State::Relays, kind) => Some(Process {
                state: State::Carries,
                d: message.value,
                b: kind,
                ..process
            }),
            _ => None,
        }
    }

    ghost row_keeps = { row_same };

    ghost took_keeps = { took_same };
}
