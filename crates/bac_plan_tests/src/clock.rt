//! The clock of a device is asked for once a day.

use crate::site::{device, log, options};
use bac_archive::Standing;
use bac_drive::{Machine, Next};
use bac_plan::site_of;
use bac_ports::Heard;
use bac_site_poller::SitePoller;
use bac_wire::{Address, Datagram};
use std::alloc::{AllocError, Global};
use std::test::Fail;

/// Where the invoke ID of a ReadProperty and of its answer stands, and the property that it asks.
const INVOKE: usize = 8;

const ANSWERED: usize = 7;

const PROPERTY: usize = 16;

/// The Object_Identifier of a device, and its Local_Date.
const OBJECT_IDENTIFIER: u8 = 75;

const LOCAL_DATE: u8 = 56;

/// That Device 100 has that Object_Identifier, and that it has no such property.
const ITSELF: [u8; 23] = [
    0x81, 0x0a, 0x00, 0x17, 0x01, 0x00, 0x30, 0x00, 0x0c, 0x0c, 0x02, 0x3f, 0xff, 0xff, 0x19, 0x4b,
    0x3e, 0xc4, 0x02, 0x00, 0x00, 0x64, 0x3f,
];

const UNKNOWN: [u8; 13] = [
    0x81, 0x0a, 0x00, 0x0d, 0x01, 0x00, 0x50, 0x00, 0x0c, 0x91, 0x02, 0x91, 0x20,
];

/// An archive of one device with one log, which answered last then.
fn standing(alloc: Global, answered: Option<&str>) -> Result<Standing, AllocError> {
    let mut row = device(alloc, 1, "10.0.0.1:47808", 0)?;
    if let Some(answered) = answered {
        row.answered = Some(String::from_str(alloc, answered)?);
    }
    let mut devices = Vec::new(alloc);
    devices.push(row)?;
    let mut logs = Vec::new(alloc);
    logs.push(log(1, 1, 7, false))?;
    Ok(Standing {
        made: String::from_str(alloc, "2026-11-01T00:00:00Z")?,
        devices,
        logs,
        last: Vec::new(alloc),
        newest: Vec::new(alloc),
        next_device: 2,
        next_log: 2,
    })
}

/// The next datagram that is sent, and where to; rows that are put before it aren't looked at.
fn sent(alloc: Global, site: &mut SitePoller) -> Result<(Datagram, Address), Fail> {
    for _ in 0..10 {
        match site.next(alloc)? {
            Next::Send(datagram, to) => return Ok((datagram, to)),
            Next::Read => site.read(0),
            Next::Keep(_) => {}
            _ => return Err(Fail::from("nothing is sent")),
        }
    }
    Err(Fail::from("nothing is sent"))
}

/// What Device 100 answers, if that is a ReadProperty.
fn answer_to(request: &[u8]) -> Option<Datagram> {
    if request.len() != PROPERTY + 1 {
        return None;
    }
    if request[PROPERTY] == OBJECT_IDENTIFIER {
        let mut answer = ITSELF;
        answer[ANSWERED] = request[INVOKE];
        return Datagram::of(&answer);
    }
    let mut answer = UNKNOWN;
    answer[ANSWERED] = request[INVOKE];
    Datagram::of(&answer)
}

/// Whether a site asks for a date among its first requests; behind them a log is asked.
fn asks_date(alloc: Global, site: &mut SitePoller) -> Result<bool, Fail> {
    for _ in 0..10 {
        let (request, from) = sent(alloc, site)?;
        let octets = request.octets();
        if octets.len() > PROPERTY && octets[PROPERTY] == LOCAL_DATE {
            return Ok(true);
        }
        let datagram = answer_to(octets);
        if datagram.is_none() {
            return Ok(false);
        }
        site.hear(Ok(Heard { from, datagram }));
    }
    Err(Fail::from("no log is asked"))
}

/// Whether the clock of a device is asked for that answered last then.
fn asked_for(alloc: Global, clocks: bool, answered: Option<&str>) -> Result<bool, Fail> {
    let told = standing(alloc, answered)?;
    let mut options = options()?;
    options.clocks = clocks;
    match site_of(alloc, told, &options) {
        Ok(mut site) => asks_date(alloc, &mut site),
        Err(_) => Err(Fail::from("no site")),
    }
}

#[test]
fn asks_for_a_clock_once_a_day(rt: HostRuntime) -> Result<(), Fail> {
    let alloc = rt.alloc();
    assert!(rt; asked_for(alloc, true, None)?);
    assert!(rt; asked_for(alloc, true, Some("2026-11-29T23:59:59.99"))?);
    assert!(rt; !asked_for(alloc, true, Some("2026-11-30T00:00:00.00"))?);
    assert!(rt; asked_for(alloc, true, Some("2026-11"))?);
    assert!(rt; !asked_for(alloc, false, None)?);
    Ok(())
}
