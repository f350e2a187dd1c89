//! Sockets over which invoke IDs go on.

ghost use Rattle.std.specs.Prelude.{◌≡◌};
ghost use Rattle.bac_wire.specs.Chain.{result_map};
ghost use Rattle.bac_invoke_ids.specs.Onward.{GoesOn};

use crate::ports::OnwardPort;
use bac_ports::{OpenFault, Sockets};
use bac_socket_notes::{Heeds, Passed};
use bac_trace::Tracing;
use bac_wire::Address;

/// Sockets, and the invoke ID of the last question over one of their ports.
#[derive(Drop)]
pub struct Onward<S> {
    sockets: S,
    last: u8,
}

impl<S: Sockets> Onward<S> {
    /// These sockets, over which nothing was asked yet.
    pub fn new(sockets: S) -> Onward<S>
        ensures sockets { result.sockets ≡ sockets }
        ensures last { result.last ≡ 0 }
    {
        Onward { sockets, last: 0 }
    }
}

impl<S: Sockets> Sockets for Onward<S> {
    type Socket = OnwardPort<S::Socket>;

    // What the sockets below open; it goes on behind the last question.
    ghost opens = { λ old local wait answer new. S.opens old.sockets local wait
        (result_map (λ onward. onward.port) answer) new.sockets × (new.last ≡ old.last)
        × GoesOn old.last answer };

    // The next port goes on behind the last question over this one.
    ghost closes = { λ old onward new. S.closes old.sockets onward.port new.sockets
        × (new.last ≡ onward.ids.last) };

    fn open(&mut self, local: Address, wait_ms: u32) -> Result<OnwardPort<S::Socket>, OpenFault> {
        match self.sockets.open(local, wait_ms) {
            Ok(port) => Ok(OnwardPort::new(port, self.last)),
            Err(fault) => Err(fault),
        }
    }

    fn close(&mut self, onward: OnwardPort<S::Socket>) {
        self.last = onward.ids.last();
        self.sockets.close(onward.port);
    }
}

impl<S: Heeds> Heeds for Onward<S> {
    // What passed over the port below.
    ghost passes = { λ onward. S.passes onward.sockets };

    fn passed(&self) -> Passed {
        self.sockets.passed()
    }
}

impl<S: Tracing> Tracing for Onward<S> {
    // The sockets below are switched: a datagram is told as it is sent, and as it came.
    ghost traces = { λ old on new. S.traces old.sockets on new.sockets × (new.last ≡ old.last) };

    fn trace(&mut self, on: bool) {
        self.sockets.trace(on);
    }
}
