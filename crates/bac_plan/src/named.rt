//! What words name: devices, and trend logs of them.

ghost use Rattle.std.specs.Prelude.{◌≡◌};
ghost use Rattle.bac_device_poller.specs.Rows.{device_as};
ghost use Rattle.bac_plan.specs.Named.{has_instance, is_at, is_whole, list_has};

use bac_archive::DeviceRow;

/// Which trend logs of a device words name.
#[derive(Debug, Drop)]
pub enum Choice {
    /// All of its Object_List, so new ones too.
    Whole,
    /// Those with these instances.
    Logs(Vec<u32>),
}

/// A device that words name.
#[derive(Debug, Drop)]
pub struct Named {
    /// The address of it, or of the router to it, as `A.B.C.D:PORT`.
    pub address: String,
    /// The network behind the router, or 0.
    pub dnet: u16,
    /// Its address there in hexadecimal digits, or nothing.
    pub dadr: String,
    /// Which of its trend logs.
    pub choice: Choice,
}

// Whether one of these numbers is this one.
fn list_has(numbers: &[u32], number: u32) -> bool
    ensures { result ≡ list_has numbers.now number }
{
    for one in numbers {
        if *one == number {
            return true;
        }
    }
    false
}

impl Named {
    /// Whether the device of a row is at its place.
    pub(crate) fn is_at(&self, device: &DeviceRow) -> bool
        ensures { result ≡ is_at self.now (device_as device.now) }
    {
        device.address.as_bytes() == self.address.as_bytes()
            && device.dnet == self.dnet
            && device.dadr.as_bytes() == self.dadr.as_bytes()
    }

    /// Whether all of its trend logs are named.
    pub(crate) fn is_whole(&self) -> bool
        ensures { result ≡ is_whole self.now }
    {
        match &self.choice {
            Choice::Whole => true,
            Choice::Logs(_) => false,
        }
    }

    /// Whether the one with this instance is named for itself.
    pub(crate) fn has_instance(&self, instance: u32) -> bool
        ensures { result ≡ has_instance instance self.now }
    {
        match &self.choice {
            Choice::Whole => false,
            Choice::Logs(instances) => list_has(instances.as_slice(), instance),
        }
    }
}
