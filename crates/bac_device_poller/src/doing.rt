//! What the poll of a device is at.

ghost use Rattle.std.specs.Prelude.{◌≡◌};

use bac_device_poll::DeviceEnd;
use bac_wire::{Address, Datagram, Stamp};

/// An answer, or a rejection, that came from an address, at a moment of this machine's clock.
#[derive(Drop)]
pub struct Came {
    pub from: Address,
    pub datagram: Datagram,
    pub at: Stamp,
}

impl Came {
    /// The same again.
    pub(crate) fn copy(&self) -> Came
        ensures { result ≡ self.now }
    {
        Came {
            from: self.from,
            datagram: self.datagram.copy(),
            at: self.at,
        }
    }
}

/// What the poll of a device is at.
#[derive(Drop)]
pub enum Doing {
    /// Its question is to be sent.
    Asks,
    /// It is to be sent again.
    Resends(Datagram),
    /// Its answer is waited for.
    Waits,
    /// It came.
    Hears(Came),
    /// It didn't come, to any send.
    Loses,
    /// Lines are to be told; then it asks on, or has ended so.
    Tells(Option<DeviceEnd>),
    Ended(DeviceEnd),
}
