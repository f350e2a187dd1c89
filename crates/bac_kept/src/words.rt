//! What is asked for: which logs, which of their records, and how they are written.

ghost use Rattle.std.specs.Prelude.{◌≡◌};
ghost use Rattle.bac_kept.specs.Words.{is_at, is_behind, is_chosen, names_one};

use bac_archive::{DeviceRow, LogRow};
use bac_form::Form;

/// The network behind a router, and a device's address there in hexadecimal digits. Network 0 and
/// no digits are those of a device that is behind none.
#[derive(Clone, Copy)]
pub struct Behind<'a> {
    pub network: u16,
    pub address: &'a str,
}

/// Where devices are.
#[derive(Clone, Copy)]
pub struct Place<'a> {
    /// The address of a device, or of the router to it, as `A.B.C.D:PORT`.
    pub address: &'a str,
    /// Where it is behind that; where this isn't said, each device at the address is meant, and
    /// each behind it.
    pub behind: Option<Behind<'a>>,
}

/// Which logs are printed.
#[derive(Clone, Copy)]
pub enum Choice<'a> {
    /// Each.
    All,
    /// Those of the devices at a place.
    Device(Place<'a>),
    /// Of these the ones with an instance.
    Log(Place<'a>, u32),
}

/// Which records are printed: those whose stamp is `since` or behind it, and before `before`, as
/// texts are compared, and the gaps between them. An undated record, `*`, is before each digit.
#[derive(Clone, Copy)]
pub struct Dates<'a> {
    pub since: &'a str,
    pub before: &'a str,
}

/// What is asked for.
#[derive(Clone, Copy)]
pub struct Words<'a> {
    pub choice: Choice<'a>,
    /// Nothing: each record and each gap.
    pub dates: Option<Dates<'a>>,
    pub form: Form,
}

/// Whether a device is there behind a router, or at the address itself.
fn is_behind(behind: Option<Behind<'_>>, device: &DeviceRow) -> bool
    ensures { result ≡ is_behind behind.entry device.now }
{
    match behind {
        None => true,
        Some(behind) => {
            device.dnet == behind.network && device.dadr.as_bytes() == behind.address.as_bytes()
        }
    }
}

/// Whether a device is at a place.
fn is_at(place: Place<'_>, device: &DeviceRow) -> bool
    ensures { result ≡ is_at place.entry device.now }
{
    device.address.as_bytes() == place.address.as_bytes() && is_behind(place.behind, device)
}

impl Choice<'_> {
    /// Whether a log of a device is one of them.
    pub(crate) fn has(self, device: &DeviceRow, log: &LogRow) -> bool
        ensures { result ≡ is_chosen self.entry device.now log.now }
    {
        match self {
            Choice::All => true,
            Choice::Device(place) => is_at(place, device),
            Choice::Log(place, instance) => is_at(place, device) && log.instance == instance,
        }
    }

    /// Whether one log is named.
    pub(crate) fn names_one(self) -> bool
        ensures { result ≡ names_one self.entry }
    {
        match self {
            Choice::All | Choice::Device(_) => false,
            Choice::Log(_, _) => true,
        }
    }
}
