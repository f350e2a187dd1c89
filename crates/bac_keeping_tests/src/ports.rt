//! A port over which one device answers, or none.

use bac_drive::Clock;
use bac_ports::{Heard, Port, SocketFault};
use bac_wire::{Address, Datagram};

/// A clock that tells a second more each time.
#[derive(Drop)]
pub(crate) struct Ticks {
    pub ms: u64,
}

impl Clock for Ticks {
    ghost reads = { λ old ms new. Unit {0} };

    fn now(&mut self) -> u64 {
        self.ms = self.ms.saturating_add(1000);
        self.ms
    }
}

/// A port that counts what is sent. Whoever is asked refuses it, or doesn't answer.
#[derive(Drop)]
pub(crate) struct Refusing {
    pub sends: u32,
    pub answers: bool,
    /// Whom the last request was for, and its invoke ID.
    asked: Option<(Address, u8)>,
}

impl Refusing {
    pub fn new(answers: bool) -> Refusing {
        Refusing {
            sends: 0,
            answers,
            asked: None,
        }
    }

    /// The Abort of the last request (clause 20.1.9), once.
    fn abort(&mut self) -> Option<Heard> {
        let (from, invoke) = self.asked?;
        self.asked = None;
        let octets = [0x81, 0x0a, 0x00, 0x09, 0x01, 0x00, 0x71, invoke, 0x04];
        let datagram = Datagram::of(&octets);
        Some(Heard { from, datagram })
    }
}

impl Port for Refusing {
    ghost sends = { λ old octets to answer new. Unit {0} };

    ghost receives = { λ old answer new. Unit {0} };

    ghost receives_within = { λ old wait answer new. Unit {0} };

    fn send(&mut self, octets: &[u8], to: Address) -> Result<(), SocketFault> {
        self.sends = self.sends.saturating_add(1);
        if self.answers && octets.len() > 8 {
            self.asked = Some((to, octets[8]));
        }
        Ok(())
    }

    fn receive(&mut self) -> Result<Heard, SocketFault> {
        self.abort().ok_or(SocketFault::Timeout)
    }

    fn receive_within(&mut self, _wait_ms: u32) -> Result<Heard, SocketFault> {
        self.abort().ok_or(SocketFault::Timeout)
    }
}
