//! Sockets whose ports note what comes.

ghost use Rattle.std.specs.Prelude.{◌≡◌, IfOk};
ghost use Rattle.bac_wire.specs.Chain.{result_map};
ghost use Rattle.bac_socket_notes.specs.Notes.{no_note, nothing};
ghost use Rattle.bac_socket_notes.specs.declared.notes.Passed.{Passed as PassedOf};

use crate::notes::Passed;
use crate::ports::HeedingPort;
use bac_ports::{OpenFault, Sockets};
use bac_wire::Address;

/// Sockets that tell what passed over the port that was closed last.
pub trait Heeds: Sockets {
    /// What passed over it since its last question was first sent.
    ghost passes: { Self → PassedOf };

    /// The same.
    fn passed(&self) -> Passed
        ensures { result ≡ passes self.now };
}

/// Sockets, and what passed over the port that was closed last.
#[derive(Drop)]
pub struct Heeding<S> {
    sockets: S,
    passed: Passed,
}

impl<S: Sockets> Heeding<S> {
    /// These sockets, none of which was closed yet.
    pub fn new(sockets: S) -> Heeding<S>
        ensures sockets { result.sockets ≡ sockets }
        ensures passed { result.passed ≡ nothing }
    {
        Heeding {
            sockets,
            passed: Passed::nothing(),
        }
    }
}

impl<S: Sockets> Sockets for Heeding<S> {
    type Socket = HeedingPort<S::Socket>;

    // What the sockets below open; nothing was sent over it yet.
    ghost opens = { λ old local wait answer new. S.opens old.sockets local wait
        (result_map (λ heeding. heeding.port) answer) new.sockets × (new.passed ≡ old.passed)
        × IfOk answer (λ heeding. heeding.note ≡ no_note) };

    // What passed over the port is known of the sockets from now on.
    ghost closes = { λ old heeding new. S.closes old.sockets heeding.port new.sockets
        × (new.passed ≡ heeding.note.passed) };

    fn open(&mut self, local: Address, wait_ms: u32) -> Result<HeedingPort<S::Socket>, OpenFault> {
        match self.sockets.open(local, wait_ms) {
            Ok(port) => Ok(HeedingPort::new(port)),
            Err(fault) => Err(fault),
        }
    }

    fn close(&mut self, heeding: HeedingPort<S::Socket>) {
        self.passed = heeding.note.passed;
        self.sockets.close(heeding.port);
    }
}

impl<S: Sockets> Heeds for Heeding<S> {
    ghost passes = { λ heeding. heeding.passed };

    fn passed(&self) -> Passed {
        self.passed
    }
}
