//! What is driven.

ghost use Rattle.std.specs.Prelude.{ℕ, IfOk};
ghost use Rattle.bac_ports.specs.Port.{Receiving};
ghost use Rattle.bac_drive.specs.declared.machine.Next.{Next as NextOf};

use bac_archive::Put;
use bac_ports::{Heard, SocketFault};
use bac_wire::{Address, Datagram};
use std::alloc::{AllocError, Global};

/// What is to be done next.
#[derive(Drop)]
pub enum Next {
    /// A datagram goes to an address.
    Send(Datagram, Address),
    /// A datagram is waited for, so many milliseconds at most.
    Wait(u32),
    /// The clock is read.
    Read,
    /// Rows are put in the archive, all of them or none.
    Keep(Vec<Put>),
    /// A text goes to the output.
    Print(Vec<u8>),
    /// A text goes to the errors.
    Warn(Vec<u8>),
    /// Nothing: it has ended.
    End,
}

/// Says what is to be done, and is told what came of it. What it says is a relation that each
/// machine names itself.
pub trait Machine {
    /// What it says is to be done next.
    ghost gives: { Self → NextOf → Self → Type 0 };

    /// What it makes of what came while it waited.
    ghost hears: { Self → Receiving → Self → Type 0 };

    /// What it makes of what the clock told.
    ghost reads: { Self → ℕ → Self → Type 0 };

    /// What is to be done next. The one call that may want memory.
    fn next(&mut self, alloc: Global) -> Result<Next, AllocError>
        ensures { IfOk result (λ next. gives self.old next self.new) };

    /// A datagram came, or none in time.
    fn hear(&mut self, heard: Result<Heard, SocketFault>)
        ensures { hears self.old heard self.new };

    /// The clock tells so many milliseconds.
    fn read(&mut self, ms: u64)
        ensures { reads self.old ms self.new };
}
