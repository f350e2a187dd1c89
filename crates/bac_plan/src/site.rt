//! The site that is polled, of what an archive tells.

ghost use Rattle.std.specs.Prelude.{◌≡◌, ◌<◌, IfErr, IfOk, IsPermutation, OnOk};
ghost use Rattle.std.specs.List.Sorted.{IsNonDecreasingBy};
ghost use Rattle.bac_plan.specs.Logs.{group_at};
ghost use Rattle.bac_plan.specs.Site.{IsAddFault, IsAdded, IsSite, IsSiteFault, no_devices};

use crate::fault::PlanFault;
use crate::groups::{Group, by_device};
use crate::options::Options;
use crate::poller::poller_of;
use bac_archive::{DeviceRow, LogRow, Standing};
use bac_device_poller::Ids;
use bac_resume::{LogRows, by_log};
use bac_site_poller::SitePoller;
use std::alloc::{AllocError, Global};

/// How many ids there are.
const IDS: u32 = 65_536;

// Devices by rising ids.
fn by_id(devices: Vec<DeviceRow>) -> Result<Vec<DeviceRow>, AllocError>
    ensures { IfOk result (λ rows. IsPermutation devices.items rows.items
        × IsNonDecreasingBy (λ d. d.id) rows.items) }
{
    let mut rows = devices;
    rows.sort_by_key(|device| device.id)?;
    Ok(rows)
}

// Logs by rising instances.
fn by_instance(logs: Vec<LogRow>) -> Result<Vec<LogRow>, AllocError>
    ensures { IfOk result (λ rows. IsPermutation logs.items rows.items
        × IsNonDecreasingBy (λ l. l.instance) rows.items) }
{
    let mut rows = logs;
    rows.sort_by_key(|log| log.instance)?;
    Ok(rows)
}

// The logs of the device with this id.
fn logs_at(groups: &[Group], id: u16) -> &[LogRow]
    ensures logs { result.now ≡ group_at groups.now id }
    ensures few { id < 65536 }
{
    match groups.get(usize::from(id)) {
        Some(group) => group.logs.as_slice(),
        None => &[],
    }
}

// A site without devices.
fn begun(alloc: Global, options: &Options, next_log: u32) -> SitePoller
    ensures { result ≡ no_devices options.now next_log }
{
    let ids = Ids { next: next_log };
    SitePoller::new(alloc, options.limits, options.begun, ids)
}

// One more device, if it isn't stopped.
fn add(
    alloc: Global,
    site: &mut SitePoller,
    device: DeviceRow,
    groups: &[Group],
    told: &[LogRows],
    options: &Options,
) -> Result<(), PlanFault>
    ensures ok { OnOk result (IsAdded options.now told.now (group_at groups.now device.id) device
        site.old site.new) }
    ensures err { IfErr result (IsAddFault device (group_at groups.now device.id)) }
    ensures few { device.id < 65536 }
{
    let logs = logs_at(groups, device.id);
    if device.stopped {
        return Ok(());
    }
    let poller = poller_of(alloc, device, logs, told, options)?;
    site.add(poller)?;
    Ok(())
}

/// The site that is polled, of what an archive tells and nothing else: each device that isn't
/// stopped, by rising ids, at its address and its place behind a router, with each of its logs,
/// which is polled from where its rows stand, if it isn't stopped. Each row is looked at once, but
/// for the order of ids and instances.
pub fn site_of(alloc: Global, told: Standing, options: &Options) -> Result<SitePoller, PlanFault>
    ensures ok { IfOk result (IsSite options.now told) }
    ensures err { IfErr result (IsSiteFault told) }
{
    let Standing {
        made: _,
        devices,
        logs,
        last,
        newest,
        next_device: _,
        next_log,
    } = told;
    let rows = by_log(alloc, last, newest, IDS)?;
    let groups = by_device(alloc, by_instance(logs)?)?;
    let mut site = begun(alloc, options, next_log);
    for device in by_id(devices)? {
        add(
            alloc,
            &mut site,
            device,
            groups.as_slice(),
            rows.as_slice(),
            options,
        )?;
    }
    Ok(site)
}
