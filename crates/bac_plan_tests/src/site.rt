//! The site of an archive of three devices: one with a log that is new and one that begins by the
//! count alone, one behind a router, and one that is stopped.

use bac_archive::{BeginningRow, DeviceRow, LogRow, Standing};
use bac_drive::{Machine, Next};
use bac_plan::{Options, PlanFault, site_of};
use bac_site_poller::{Limits, SitePoller};
use bac_walk::Count;
use bac_wire::{Address, Stamp};
use jiff_core::civil::DateTime;
use std::alloc::{AllocError, Global};
use std::test::Fail;

/// A ReadProperty of the Object_Identifier of whoever answers.
const FIRST: [u8; 17] = [
    0x81, 0x0a, 0x00, 0x11, 0x01, 0x04, 0x00, 0x05, 0x01, 0x0c, 0x0c, 0x02, 0x3f, 0xff, 0xff, 0x19,
    0x4b,
];

/// The network header of one for 0a on network 7.
const SECOND: Address = [0x01, 0x24, 0x00, 0x07, 0x01, 0x0a];

pub fn device(alloc: Global, id: u16, address: &str, dnet: u16) -> Result<DeviceRow, AllocError> {
    let dadr = if dnet == 0 { "" } else { "0a" };
    Ok(DeviceRow {
        id,
        address: String::from_str(alloc, address)?,
        dnet,
        dadr: String::from_str(alloc, dadr)?,
        instance: Some(u32::from(id) * 100),
        name: None,
        revision: None,
        whole: false,
        stopped: id == 3,
        answered: None,
        offset: None,
    })
}

pub fn log(id: u16, device: u16, instance: u32, stopped: bool) -> LogRow {
    LogRow {
        id,
        device,
        instance,
        name: None,
        source: None,
        units: None,
        description: None,
        restart: None,
        revision: None,
        stopped,
    }
}

/// What an archive tells.
pub fn standing(alloc: Global) -> Result<Standing, AllocError> {
    let mut devices = Vec::new(alloc);
    devices.push(device(alloc, 3, "10.0.0.3:47808", 0)?)?;
    devices.push(device(alloc, 2, "10.0.0.2:47809", 7)?)?;
    devices.push(device(alloc, 1, "10.0.0.1:47808", 0)?)?;
    let mut logs = Vec::new(alloc);
    logs.push(log(5, 3, 1, false))?;
    logs.push(log(4, 2, 1, false))?;
    logs.push(log(3, 1, 9, true))?;
    logs.push(log(2, 1, 8, false))?;
    logs.push(log(1, 1, 7, false))?;
    let mut last = Vec::new(alloc);
    last.push(BeginningRow {
        id: 65_536,
        number: 41,
        why: Some(String::from_str(alloc, "counted")?),
    })?;
    Ok(Standing {
        made: String::from_str(alloc, "2026-11-30T00:00:00Z")?,
        devices,
        logs,
        last,
        newest: Vec::new(alloc),
        next_device: 4,
        next_log: 6,
    })
}

pub fn options() -> Result<Options, Fail> {
    let Ok(at) = DateTime::from_nanosecond(1_796_040_000_000_000_000) else {
        return Err(Fail::from("no date and time"));
    };
    let begun = Stamp::of_civil(at).ok_or("no stamp")?;
    let records = Count::new(100).ok_or("no count")?;
    Ok(Options {
        limits: Limits::new(64, 4, 1024, 3000),
        records,
        steps: None,
        retries: 1,
        clocks: false,
        begun,
    })
}

/// The next datagram that is sent, and where to.
fn sent(alloc: Global, site: &mut SitePoller) -> Result<(Vec<u8>, Address), Fail> {
    for _ in 0..10 {
        match site.next(alloc)? {
            Next::Send(datagram, to) => {
                return Ok((Vec::from_slice(alloc, datagram.octets())?, to));
            }
            Next::Read => site.read(0),
            _ => return Err(Fail::from("nothing is sent")),
        }
    }
    Err(Fail::from("nothing is sent"))
}

#[test]
fn asks_those_that_are_not_stopped(rt: HostRuntime) -> Result<(), Fail> {
    let alloc = rt.alloc();
    let told = standing(alloc)?;
    let options = options()?;
    let mut site = match site_of(alloc, told, &options) {
        Ok(site) => site,
        Err(_) => return Err(Fail::from("no site")),
    };
    let (first, at) = sent(alloc, &mut site)?;
    assert!(rt; at == [10, 0, 0, 1, 186, 192]);
    assert!(rt; first.as_slice() == FIRST.as_slice());
    let (second, at) = sent(alloc, &mut site)?;
    assert!(rt; at == [10, 0, 0, 2, 186, 193]);
    assert!(rt; second.len() > 10 && second.as_slice()[4..10] == SECOND[..]);
    Ok(())
}

#[test]
fn an_address_that_is_none(rt: HostRuntime) -> Result<(), Fail> {
    let alloc = rt.alloc();
    let mut told = standing(alloc)?;
    told.devices.push(device(alloc, 4, "10.0.0.4", 0)?)?;
    let options = options()?;
    match site_of(alloc, told, &options) {
        Ok(_) => Err(Fail::from("a site")),
        Err(fault) => {
            assert!(rt; fault == PlanFault::Device(4));
            Ok(())
        }
    }
}
