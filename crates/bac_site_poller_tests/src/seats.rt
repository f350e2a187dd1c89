//! Devices that are polled for the first time.

use bac_archive::{DeviceRow, LogRow};
use bac_device_poll::{Begin, DevicePoll, Known, LogTask, Way};
use bac_device_poller::{DevicePoller, Ids, LogRecord, Rows};
use bac_link::Transactions;
use bac_poll::Told;
use bac_print::push_number;
use bac_row_ids::Place;
use bac_site_poller::{Limits, SitePoller};
use bac_walk::Count;
use bac_wire::{Address, ObjectId, Stamp};
use std::alloc::{AllocError, Global};
use std::test::Fail;

pub(crate) fn peer(host: u8) -> Address {
    [10, 0, 0, host, 0xba, 0xc0]
}

pub(crate) fn text(alloc: Global, from: &str) -> Result<Vec<u8>, AllocError> {
    let mut octets = Vec::new(alloc);
    octets.extend_from_slice(from.as_bytes())?;
    Ok(octets)
}

/// The row of a device of which nothing is known.
pub(crate) fn device_row(alloc: Global, id: u16) -> DeviceRow {
    DeviceRow {
        id,
        address: String::new(alloc),
        dnet: 0,
        dadr: String::new(alloc),
        instance: None,
        name: None,
        revision: None,
        whole: false,
        stopped: false,
        answered: None,
        offset: None,
    }
}

/// The record of a log of which nothing is kept. Its id is its instance.
pub(crate) fn log_record(alloc: Global, device: &str, instance: u16) -> Result<LogRecord, Fail> {
    let called = log_called(alloc, device, instance)?;
    Ok(LogRecord {
        row: LogRow {
            id: instance,
            device: 1,
            instance: u32::from(instance),
            name: None,
            source: None,
            units: None,
            description: None,
            restart: None,
            revision: None,
            stopped: false,
        },
        restart: Vec::new(alloc),
        revision: None,
        place: Place::new(instance, 0),
        next: 1,
        called,
    })
}

/// A log that is polled from there on.
pub(crate) fn task(instance: u16, begin: Begin) -> Result<LogTask, Fail> {
    let log = ObjectId::new(20, u32::from(instance)).ok_or("no object")?;
    let task = LogTask::new(log, begin).ok_or("no trend log")?;
    Ok(task)
}

/// A device with this id that isn't known yet. Each of its requests is repeated once, and each of
/// its logs has so many replies with records, if not as many as come.
pub(crate) fn poller(
    alloc: Global,
    id: u16,
    way: Way,
    called: &str,
    tasks: Vec<LogTask>,
    logs: Vec<LogRecord>,
    steps: Option<u32>,
) -> Result<DevicePoller, Fail> {
    let known = Known {
        who: None,
        revision: None,
        whole: false,
        others: None,
        stopped: Vec::new(alloc),
    };
    let many = Count::new(100).ok_or("no count")?;
    let poll = DevicePoll::new(alloc, known, tasks, many, 1, false).with_steps(steps);
    let transactions = match &way.route {
        Some(route) => Transactions::through(1, route.clone()?),
        None => Transactions::new(1),
    };
    let called = text(alloc, called)?;
    let rows = Rows::new(alloc, device_row(alloc, id), called, logs);
    Ok(DevicePoller::new(poll, transactions, way, 1, rows))
}

/// How lines call a log of a device.
pub(crate) fn log_called(alloc: Global, device: &str, log: u16) -> Result<Vec<u8>, AllocError> {
    let mut called = text(alloc, device)?;
    called.extend_from_slice(b" ")?;
    push_number(&mut called, u64::from(log))?;
    Ok(called)
}

/// The same with logs of these instances.
pub(crate) fn device(
    alloc: Global,
    id: u16,
    way: Way,
    called: &str,
    instances: &[u16],
) -> Result<DevicePoller, Fail> {
    let mut tasks = Vec::new(alloc);
    let mut logs = Vec::new(alloc);
    for instance in instances {
        let begin = Begin::Starting(None, Told::nothing(alloc));
        tasks.push(task(*instance, begin)?)?;
        logs.push(log_record(alloc, called, *instance)?)?;
    }
    poller(alloc, id, way, called, tasks, logs, None)
}

/// One at a host, without a router.
pub(crate) fn at_host(
    alloc: Global,
    host: u8,
    called: &str,
    instances: &[u16],
) -> Result<DevicePoller, Fail> {
    let way = Way {
        peer: peer(host),
        route: None,
    };
    device(alloc, u16::from(host), way, called, instances)
}

/// No devices: so many are asked at once, and at one host. Each send is waited for three seconds.
pub(crate) fn site(alloc: Global, at_once: usize, at_host: usize) -> Result<SitePoller, Fail> {
    let begun = Stamp::new(2026, 3, 29, 2, 30, 0, 0).ok_or("no moment")?;
    let limits = Limits::new(at_once, at_host, 64, 3000);
    Ok(SitePoller::new(alloc, limits, begun, Ids { next: 1000 }))
}
