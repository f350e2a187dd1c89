//! Which device the words of `bac kept` name, and which trend log of it.

ghost use Rattle.std.specs.Prelude.{◌≡◌, IfOk, option_map};
ghost use Rattle.bac_command_line.specs.Numbers.{number_in};
ghost use Rattle.bac_command_line.specs.declared.word.Word.TheVariants.{Instance};
ghost use Rattle.bac_keep_command_line.specs.Printing.{behind_as, behind_at, device_as, device_at};
ghost use Rattle.bac_keep_command_line.specs.Printing.{device_in};
ghost use Rattle.bac_keep_command_line.specs.Values.{Makes, said_if};

use crate::devices::MAX_INSTANCE;
use crate::fault::Fault;
use crate::options::{route_said, text_of};
use crate::texts::{address_text, mac_text};
use crate::values::{address, number};
use bac_apdu::Route;
use bac_command_line::{Kept, Name, Word};
use std::alloc::{AllocError, Global};

/// A place behind a router.
#[derive(Debug, Drop)]
pub struct BehindRouter {
    pub network: u16,
    /// The address there in hexadecimal digits.
    pub address: String,
}

/// Which device.
#[derive(Debug, Drop)]
pub struct Device {
    /// As `A.B.C.D:PORT`.
    pub address: String,
    pub behind: Option<BehindRouter>,
    /// The log of it; each if it is absent.
    pub instance: Option<u32>,
}

/// A place as an archive has it, if there is one.
fn behind_of(alloc: Global, route: &Option<Route>) -> Result<Option<BehindRouter>, AllocError>
    ensures { IfOk result
        (λ behind. option_map behind_as behind ≡ option_map behind_at route.now) }
{
    match route {
        Some(there) => Ok(Some(BehindRouter {
            network: there.far().net,
            address: mac_text(alloc, route)?,
        })),
        None => Ok(None),
    }
}

fn instance_in(text: &Option<Name>) -> Result<Option<u32>, Fault>
    ensures { result ≡ said_if (number_in 0 4194303) Instance text.now }
{
    match text {
        Some(text) => match number(Word::Instance, text.as_str(), 0, MAX_INSTANCE) {
            Ok(instance) => Ok(Some(instance)),
            Err(fault) => Err(fault),
        },
        None => Ok(None),
    }
}

/// A device that is named, and a log of it.
#[tactic(auto, unfolding(crate::specs::Printing::device_at))]
fn device_at(alloc: Global, kept: &Kept, text: &str) -> Result<Device, Fault>
    ensures { Makes device_as (device_at kept.now text.now) result }
{
    let octets = address(Word::Address, text)?;
    let route = route_said(text_of(&kept.dnet), text_of(&kept.dadr))?;
    let instance = instance_in(&kept.instance)?;
    Ok(Device {
        address: address_text(alloc, octets)?,
        behind: behind_of(alloc, &route)?,
        instance,
    })
}

/// The device that the words of `bac kept` name, if they name one.
pub fn read_device(alloc: Global, kept: &Kept) -> Result<Option<Device>, Fault>
    ensures { Makes (option_map device_as) (device_in kept.now) result }
{
    match &kept.address {
        Some(text) => Ok(Some(device_at(alloc, kept, text.as_str())?)),
        None => Ok(None),
    }
}
