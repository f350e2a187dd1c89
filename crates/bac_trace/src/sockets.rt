//! Sockets whose ports tell each datagram.

ghost use Rattle.std.specs.Prelude.{◌≡◌, Bool, false, IfOk};
ghost use Rattle.bac_wire.specs.Chain.{result_map};

use crate::ports::{Trace, TracedPort};
use crate::writers::Writers;
use bac_ports::{OpenFault, Sockets};
use bac_socket_notes::{Heeds, Passed};
use bac_wire::Address;
use std::alloc::Global;

/// Sockets that can be switched on to tell each datagram of the ports that they open.
pub trait Tracing: Heeds {
    /// What a switch is: the sockets before it, whether it is on, the sockets after it.
    ghost traces: { Self → Bool → Self → Type 0 };

    /// From now on, the ports that are opened tell their datagrams, or don't.
    fn trace(&mut self, on: bool)
        ensures { traces self.old on self.new };
}

/// Sockets, and the writers for their ports. They are off at first.
#[derive(Drop)]
pub struct Traced<S, W> {
    sockets: S,
    writers: W,
    alloc: Global,
    is_on: bool,
}

impl<S: Sockets, W: Writers> Traced<S, W> {
    /// These sockets, switched off.
    pub fn new(alloc: Global, sockets: S, writers: W) -> Traced<S, W>
        ensures sockets { result.sockets ≡ sockets }
        ensures is_off { result.is_on ≡ false }
    {
        Traced {
            sockets,
            writers,
            alloc,
            is_on: false,
        }
    }
}

impl<S: Sockets, W: Writers> Sockets for Traced<S, W> {
    type Socket = TracedPort<S::Socket, W::Writer>;

    // What the sockets below open; it tells if they are switched on.
    ghost opens = { λ old local wait answer new. S.opens old.sockets local wait
        (result_map (λ traced. traced.port) answer) new.sockets × (new.is_on ≡ old.is_on)
        × IfOk answer (λ traced. traced.trace.is_on ≡ old.is_on) };

    ghost closes = { λ old traced new. S.closes old.sockets traced.port new.sockets
        × (new.is_on ≡ old.is_on) };

    fn open(
        &mut self,
        local: Address,
        wait_ms: u32,
    ) -> Result<TracedPort<S::Socket, W::Writer>, OpenFault> {
        match self.sockets.open(local, wait_ms) {
            Ok(port) => {
                let writer = self.writers.writer();
                Ok(TracedPort {
                    port,
                    trace: Trace::new(self.alloc, writer, self.is_on),
                })
            }
            Err(fault) => Err(fault),
        }
    }

    fn close(&mut self, traced: TracedPort<S::Socket, W::Writer>) {
        self.sockets.close(traced.port);
    }
}

impl<S: Heeds, W: Writers> Heeds for Traced<S, W> {
    // What passed over the port below.
    ghost passes = { λ traced. S.passes traced.sockets };

    fn passed(&self) -> Passed {
        self.sockets.passed()
    }
}

impl<S: Heeds, W: Writers> Tracing for Traced<S, W> {
    ghost traces = { λ old on new. (new.sockets ≡ old.sockets) × (new.is_on ≡ on) };

    fn trace(&mut self, on: bool) {
        self.is_on = on;
    }
}
