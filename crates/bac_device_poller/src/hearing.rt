//! What comes for the poll of a device.

ghost use Rattle.std.specs.Prelude.{◌≡◌};
ghost use Rattle.bac_link.specs.Transactions.{is_awaited};
ghost use Rattle.bac_device_poller.specs.Poller.{answered_behind, heard_by, is_answer, is_rejected};
ghost use Rattle.bac_device_poller.specs.Poller.{is_told, seeks};

use crate::doing::{Came, Doing};
use crate::poller::DevicePoller;
use crate::transacting::{awaits, close};
use bac_device_poll::{NoRoute, Stage};
use bac_wire::{Address, Datagram, Stamp};

// When the device answered last: a rejection is its router's word, not its own.
fn answered_behind(reject: Option<NoRoute>, now: Stamp, was: Option<Stamp>) -> Option<Stamp>
    ensures { result ≡ answered_behind reject now was }
{
    match reject {
        Some(_) => was,
        None => Some(now),
    }
}

impl DevicePoller {
    /// Whether it is asked by a Who-Is who it is. Its question isn't made for that: each datagram
    /// that comes asks this of each device that is asked.
    #[tactic(auto, using(crate::proofs::Seeks::log_is_asked))]
    pub(crate) fn seeks(&self) -> bool
        ensures { result ≡ seeks self.now }
    {
        match self.poll.stage() {
            Stage::IAm => true,
            Stage::Instance => false,
            Stage::Name => false,
            Stage::Restart => false,
            Stage::Revision => false,
            Stage::Date => false,
            Stage::Time(_) => false,
            Stage::Objects => false,
            Stage::Count => false,
            Stage::Element(_, _) => false,
            Stage::LogName(_) => false,
            Stage::Source(_) => false,
            Stage::Units(_) => false,
            Stage::Description(_) => false,
            Stage::Log => false,
            Stage::Between => false,
            Stage::Ended => false,
        }
    }

    // Whether the device answers what is open.
    fn is_told(&self, from: Address, datagram: &Datagram) -> bool
        ensures { result ≡ is_told self.now from datagram.now }
    {
        if self.seeks() {
            return self.is_waiting() && self.way.i_am(from, datagram.octets()).is_some();
        }
        from == self.way.peer && awaits(&self.transactions, datagram.octets())
    }

    // Whether the router that it is behind rejects what is waited for.
    fn is_rejected(&self, from: Address, datagram: &Datagram) -> bool
        ensures { result ≡ is_rejected self.now from datagram.now }
    {
        self.is_waiting() && self.way.reject(from, datagram.octets()).is_some()
    }

    /// Whether a datagram from an address answers what is open, or rejects it.
    pub fn is_answer(&self, from: Address, datagram: &Datagram) -> bool
        ensures { result ≡ is_answer self.now from datagram.now }
    {
        self.is_told(from, datagram) || self.is_rejected(from, datagram)
    }

    /// Whether a datagram answers its open request, from wherever it comes.
    pub fn awaits(&self, datagram: &Datagram) -> bool
        ensures { result ≡ is_awaited self.now.transactions.pending datagram.now }
    {
        awaits(&self.transactions, datagram.octets())
    }

    /// A datagram came from an address, at this moment of this machine's clock. It is taken if it
    /// answers what is open, or rejects it, and else isn't heeded: whether it is.
    pub fn hear(&mut self, from: Address, datagram: &Datagram, now: Stamp) -> bool
        ensures is { result ≡ is_answer self.old from datagram.now }
        ensures heard { self.new ≡ heard_by from datagram.now now self.old }
    {
        if !self.is_answer(from, datagram) {
            return false;
        }
        close(&mut self.transactions);
        self.doing = Doing::Hears(Came {
            from,
            datagram: datagram.copy(),
            at: now,
        });
        let reject = self.way.reject(from, datagram.octets());
        self.rows.answered = answered_behind(reject, now, self.rows.answered);
        true
    }
}
