// The rules of a ring of processes. The ring that a rule makes is `rules_by row took` of ring/specs/Gateways.
ghost use Rattle.std.specs.Prelude.{◌≡◌, Option};
ghost use Rattle.gateway.specs.declared.Process.{Process};
ghost use Rattle.gateway.specs.declared.Message.{Message};
ghost use Rattle.gateway.specs.declared.Want.{Want};
ghost use Rattle.gateway.specs.Keeping.{Wanted, Taken};

use gateway::{Message, Process, Want};

/// What a process does by its state, and with a message.
pub trait Rules {
    // What a process wants.
    ghost row: { Process → Want };
    // What it becomes by a message, if it takes it.
    ghost took: { Process → Message → Option Process };

    /// What a process wants.
    fn wants(process: Process) -> Want
        ensures { result ≡ row process };

    /// What a process makes of a message.
    fn take_in(process: Process, message: Message) -> Option<Process>
        ensures { result ≡ took process message };

    // No row changes the identity of a process.
    ghost row_keeps: { (p : Process) → Wanted p.identity (row p) };

    ghost took_keeps: { (p : Process) (m : Message) → Taken p.identity (took p m) };
}
