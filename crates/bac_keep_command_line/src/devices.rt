//! The devices of `bac keep`, and which trend logs of each.

ghost use Rattle.std.specs.Prelude.{◌≡◌, IfOk, map};
ghost use Rattle.bac_keep_command_line.specs.Devices.{all_in, choice_as, chosen, first_or_zero};
ghost use Rattle.bac_keep_command_line.specs.Devices.{log_in};
ghost use Rattle.bac_keep_command_line.specs.Devices.{logs_in, named_as, named_at, named_in};
ghost use Rattle.bac_keep_command_line.specs.Devices.{net_of};
ghost use Rattle.bac_keep_command_line.specs.Values.{Makes};

use crate::fault::Fault;
use crate::options::{fetching_in, sending_in, way_in};
use crate::texts::{address_text, mac_text};
use crate::values::{address, number};
use bac_apdu::Route;
use bac_command_line::{Group, KeepOptions, Name, Word};
use bac_plan::{Choice, Named};
use bac_wire::Address;
use std::alloc::{AllocError, Global};

/// The greatest instance of an object (clause 20.2.14).
pub(crate) const MAX_INSTANCE: u32 = 4_194_303;

/// A log that words ask for.
#[derive(Drop)]
pub(crate) struct Asked {
    /// The address of its device, or of the router to it.
    address: Address,
    /// The place of its device behind a router.
    route: Option<Route>,
    instance: u32,
}

/// A log of a device, read by the rules of `bac log`.
#[tactic(auto, unfolding(crate::specs::Devices::log_in))]
fn log_in(options: &KeepOptions, group: &Group, instance: &str) -> Result<Asked, Fault>
    ensures { result ≡ log_in options.now group.now instance.now }
{
    let address = address(Word::Address, group.address.as_str())?;
    sending_in(options)?;
    let route = way_in(options, &group.way)?;
    let instance = number(Word::Instance, instance, 0, MAX_INSTANCE)?;
    fetching_in(options)?;
    Ok(Asked {
        address,
        route,
        instance,
    })
}

/// Several logs of it.
fn logs_in(alloc: Global, options: &KeepOptions, group: &Group) -> Result<Vec<u32>, Fault>
    ensures { Makes (λ instances. instances.items)
        (logs_in options.now group.now group.now.instances) result }
{
    let texts = group.instances.as_slice();
    let mut instances = Vec::new(alloc);
    for text in texts {
        let asked = log_in(options, group, text.as_str())?;
        instances.push(asked.instance)?;
    }
    Ok(instances)
}

/// The first of these texts; 0 stands for the log of a device of which none is named.
fn first_or_zero(instances: &[Name]) -> &str
    ensures { result.now ≡ first_or_zero instances.now }
{
    match instances.first() {
        Some(instance) => instance.as_str(),
        None => "0",
    }
}

/// These logs; all of a device of which none is named.
fn chosen(instances: Vec<u32>) -> Choice
    ensures { choice_as result ≡ chosen instances.items }
{
    if instances.is_empty() {
        Choice::Whole
    } else {
        Choice::Logs(instances)
    }
}

/// The network behind a router, or 0.
fn net_of(route: &Option<Route>) -> u16
    ensures { result ≡ net_of route.now }
{
    match route {
        Some(route) => route.far().net,
        None => 0,
    }
}

/// A device where it is asked, and logs of it.
fn named_at(alloc: Global, asked: &Asked, instances: Vec<u32>) -> Result<Named, AllocError>
    ensures { IfOk result (λ named. named_as named ≡ named_at asked.now instances.items) }
{
    Ok(Named {
        address: address_text(alloc, asked.address)?,
        dnet: net_of(&asked.route),
        dadr: mac_text(alloc, &asked.route)?,
        choice: chosen(instances),
    })
}

/// The device of a group, and which logs of it.
#[tactic(auto, unfolding(crate::specs::Devices::named_in))]
pub(crate) fn named_in(alloc: Global, options: &KeepOptions, group: &Group) -> Result<Named, Fault>
    ensures { Makes named_as (named_in options.now group.now) result }
{
    let asked = log_in(options, group, first_or_zero(group.instances.as_slice()))?;
    let instances = logs_in(alloc, options, group)?;
    Ok(named_at(alloc, &asked, instances)?)
}

/// Those of several groups.
pub(crate) fn all_in(
    alloc: Global,
    options: &KeepOptions,
    groups: &[Group],
) -> Result<Vec<Named>, Fault>
    ensures { Makes (λ all. map named_as all.items) (all_in options.now groups.now) result }
{
    let mut all = Vec::new(alloc);
    for group in groups {
        let named = named_in(alloc, options, group)?;
        all.push(named)?;
    }
    Ok(all)
}
