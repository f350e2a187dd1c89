//! A port in memory, and a clock that moves.

use bac_ports::{Heard, Port, SocketFault};
use bac_serve::Clock;
use bac_wire::{Address, Datagram, Stamp, write_octets};

/// What a receive meets.
#[derive(Clone, Copy)]
pub enum Coming<'a> {
    /// These octets from this address.
    From(Address, &'a [u8]),
    /// Nothing in time.
    Nothing,
}

/// Receives what comes, one after the other, and then fails. Keeps what was sent last and to whom,
/// and how often something was sent.
#[derive(Drop)]
pub struct MemoryPort<'a> {
    coming: &'a [Coming<'a>],
    pub received: usize,
    pub sent: Datagram,
    pub to: Address,
    pub sends: u32,
}

impl<'a> MemoryPort<'a> {
    pub fn new(coming: &'a [Coming<'a>]) -> MemoryPort<'a> {
        MemoryPort {
            coming,
            received: 0,
            sent: Datagram::new(),
            to: [0; 6],
            sends: 0,
        }
    }
}

impl Port for MemoryPort<'_> {
    ghost sends = { λ old octets to answer new. Unit {0} };

    ghost receives = { λ old answer new. Unit {0} };

    ghost receives_within = { λ old wait answer new. Unit {0} };

    fn send(&mut self, octets: &[u8], to: Address) -> Result<(), SocketFault> {
        self.sends = self.sends.saturating_add(1);
        self.to = to;
        self.sent = Datagram::new();
        match write_octets(&mut self.sent, octets) {
            Ok(()) => Ok(()),
            Err(_) => Err(SocketFault::Failed),
        }
    }

    fn receive(&mut self) -> Result<Heard, SocketFault> {
        let coming = self.coming.get(self.received);
        self.received = self.received.saturating_add(1);
        match coming {
            Some(Coming::From(from, octets)) => Ok(Heard {
                from: *from,
                datagram: Datagram::of(octets),
            }),
            Some(Coming::Nothing) => Err(SocketFault::Timeout),
            None => Err(SocketFault::Failed),
        }
    }

    // Nothing is there before a whole wait.
    fn receive_within(&mut self, _wait_ms: u32) -> Result<Heard, SocketFault> {
        Err(SocketFault::Timeout)
    }
}

/// Begins at 2024-05-06T07:08:00.00 and so many hundredths, and has gone so many on at each look.
#[derive(Drop)]
pub struct MovingClock {
    pub hundredths: u32,
    pub step: u32,
}

impl Clock for MovingClock {
    ghost tells = { λ old moment new. Unit {0} };

    fn now(&mut self) -> Option<Stamp> {
        self.hundredths = self.hundredths.saturating_add(self.step);
        let seconds = self.hundredths / 100;
        Stamp::new(
            2024,
            5,
            6,
            7,
            u8::try_from(seconds / 60).ok()?.checked_add(8)?,
            (seconds % 60) as u8,
            (self.hundredths % 100) as u8,
        )
    }
}
