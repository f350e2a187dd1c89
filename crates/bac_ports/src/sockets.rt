//! Where ports come from.

ghost use Rattle.std.specs.Prelude.{ℕ, List};
ghost use Rattle.bac_ports.specs.Port.{Opening};

use crate::port::{OpenFault, Port};
use crate::udp_port::UdpPort;
use bac_wire::Address;
use std::net::Net;

/// Opens ports, and closes them.
///
/// What an open and a close are, are relations that each implementor names itself. Of the machine's
/// sockets they say nothing.
pub trait Sockets {
    /// A port that was opened.
    type Socket: Port + Drop;

    /// What an open is: the sockets before it, the address, the wait of a receive in milliseconds,
    /// the answer, the sockets after it.
    ghost opens: { Self → List ℕ → ℕ → Opening Self.Socket → Self → Type 0 };

    /// What a close is: the sockets before it, the last state of the port, the sockets after it.
    ghost closes: { Self → Self.Socket → Self → Type 0 };

    /// Opens a port at an address: four octets of IPv4 address and two of port, high octet first
    /// (Annex J.1.2); port 0 is any free one. A receive waits at most so many milliseconds, and
    /// without limit at 0.
    fn open(&mut self, local: Address, wait_ms: u32) -> Result<Self::Socket, OpenFault>
        ensures { opens self.old local wait_ms result self.new };

    /// Closes a port that was opened: nothing is sent or received over it any more.
    fn close(&mut self, port: Self::Socket)
        ensures { closes self.old port self.new };
}

/// The UDP sockets of the machine that a program runs on.
#[derive(Debug, Drop)]
pub struct UdpSockets<R> {
    rt: R,
}

impl<R: Net> UdpSockets<R> {
    /// The sockets of the machine.
    pub fn new(rt: R) -> UdpSockets<R> {
        UdpSockets { rt }
    }
}

impl<R: Net> Sockets for UdpSockets<R> {
    type Socket = UdpPort;

    ghost opens = { λ old local wait answer new. Unit {0} };

    ghost closes = { λ old port new. Unit {0} };

    fn open(&mut self, local: Address, wait_ms: u32) -> Result<UdpPort, OpenFault> {
        UdpPort::open(&self.rt, local, wait_ms)
    }

    fn close(&mut self, port: UdpPort) {
        drop(port);
    }
}
