//! Where datagrams come from and go to.

ghost use Rattle.std.specs.Prelude.{ℕ, List};
ghost use Rattle.bac_ports.specs.Port.{Receiving, Sending};

use bac_wire::{Address, Datagram};

/// Why a port refused.
#[derive(Clone, Copy, Debug, PartialEq, Eq)]
pub enum SocketFault {
    /// Nothing came in time.
    Timeout,
    /// Anything else.
    Failed,
}

/// Why a port couldn't be opened.
#[derive(Clone, Copy, Debug, PartialEq, Eq)]
pub enum OpenFault {
    /// Another socket has the address.
    InUse,
    /// The address isn't one of this machine.
    NotOurs,
    /// The system doesn't permit it.
    NotPermitted,
    /// Anything else.
    Failed,
}

/// A datagram that came.
#[derive(Debug, Drop)]
pub struct Heard {
    /// Its sender: four octets of IPv4 address and two of port.
    pub from: Address,
    /// `None` if it has over 1501 octets: it is dropped.
    pub datagram: Option<Datagram>,
}

/// Sends and receives datagrams. An address is four octets of IPv4 address and two of port, high
/// octet first (Annex J.1.2).
///
/// What a send and a receive do is a relation that each port names itself. Of a socket it says
/// nothing: what is sent may be lost, and what comes may come from anyone.
pub trait Port {
    /// What a send is: the port before it, the octets, the receiver, the answer, the port after it.
    ghost sends: { Self → List ℕ → List ℕ → Sending → Self → Type 0 };

    /// What a receive is: the port before it, the answer, the port after it.
    ghost receives: { Self → Receiving → Self → Type 0 };

    /// What a receive with a wait of its own is: the port before it, the wait in milliseconds, the
    /// answer, the port after it.
    ghost receives_within: { Self → ℕ → Receiving → Self → Type 0 };

    /// Sends octets to an address, as one datagram.
    fn send(&mut self, octets: &[u8], to: Address) -> Result<(), SocketFault>
        ensures { sends self.old octets.now to result self.new };

    /// Waits for the next datagram, from anyone, as long as the port waits.
    fn receive(&mut self) -> Result<Heard, SocketFault>
        ensures { receives self.old result self.new };

    /// Waits so many milliseconds at most for the next datagram, from anyone; with 0 it takes one
    /// that is already there.
    fn receive_within(&mut self, wait_ms: u32) -> Result<Heard, SocketFault>
        ensures { receives_within self.old wait_ms result self.new };
}
