//! Devices behind one router, and devices at one IP address.

use crate::rig::Rig;
use crate::seats::{device, peer, site};
use bac_apdu::Route;
use bac_archive::Put;
use bac_device_poll::Way;
use bac_device_poller::DevicePoller;
use bac_site_poller::SitePoller;
use std::alloc::Global;
use std::test::Fail;

/// How many devices are at one IP address, at a port each.
const DEVICES: u8 = 16;

/// What each of them is asked: who it is, its word, the count of its log, and the records.
const QUESTIONS: usize = 11;

/// What is told where it answers one request a second.
const SLOW: &[u8] = b"10.0.0.9: slow, 2 requests at a time\n10.0.0.9: slow, 1 request at a time\n";

/// The network behind the router.
const NETWORK: u16 = 5;

/// A device behind the router, at an address of one octet, with one log.
fn behind(alloc: Global, address: u8, called: &str) -> Result<DevicePoller, Fail> {
    let route = Route::new(NETWORK, &[address]).ok_or("no route")?;
    let way = Way {
        peer: peer(9),
        route: Some(route),
    };
    let id = u16::from(address);
    device(alloc, id, way, called, &[id])
}

/// Devices at one IP address, of which so many are asked at once.
fn beside(alloc: Global, at_host: usize) -> Result<SitePoller, Fail> {
    let mut site = site(alloc, 64, at_host)?;
    for number in 0..DEVICES {
        let mut peer = peer(9);
        peer[5] = number;
        let way = Way { peer, route: None };
        site.add(device(alloc, 1, way, "log", &[1])?)?;
    }
    Ok(site)
}

/// The instance of the device with this id, as it was put.
fn instance_of(puts: &[Put], id: u16) -> Option<u32> {
    let mut instance = None;
    for put in puts {
        if let Put::Device(row) = put {
            if row.id == id {
                instance = row.instance;
            }
        }
    }
    instance
}

/// How many lines end so.
fn count_lines(printed: &[u8], end: &[u8]) -> usize {
    let mut count: usize = 0;
    for line in printed.split(|octet| *octet == b'\n') {
        if line.ends_with(end) {
            count = count.saturating_add(1);
        }
    }
    count
}

#[test]
fn devices_behind_one_router_are_told_apart(rt: HostRuntime) -> Result<(), Fail> {
    let alloc = rt.alloc();
    let mut site = site(alloc, 2, 2)?;
    site.add(behind(alloc, 7, "seven")?)?;
    site.add(behind(alloc, 8, "eight")?)?;
    let mut rig = Rig::new(alloc, site);
    rig.is_reversed = true;
    let ended = rig.drive(alloc)?;
    assert!(rt; ended);
    assert!(rt; instance_of(rig.puts.as_slice(), 7) == Some(7));
    assert!(rt; instance_of(rig.puts.as_slice(), 8) == Some(8));
    assert!(rt; rig.ms == 0);
    Ok(())
}

#[test]
fn four_are_asked_at_one_address(rt: HostRuntime) -> Result<(), Fail> {
    let alloc = rt.alloc();
    let mut rig = Rig::new(alloc, beside(alloc, 4)?);
    rig.delay = 1000;
    let ended = rig.drive(alloc)?;
    assert!(rt; ended);
    assert!(rt; rig.most == 4);
    assert!(rt; rig.sends.len() == usize::from(DEVICES) * QUESTIONS);
    let refused = count_lines(rig.printed.as_slice(), b"refused: abort 4, next 1");
    assert!(rt; refused == usize::from(DEVICES));
    assert!(rt; rig.ms == 44000);
    Ok(())
}

#[test]
fn devices_behind_a_slow_router_are_all_asked(rt: HostRuntime) -> Result<(), Fail> {
    let alloc = rt.alloc();
    let mut rig = Rig::new(alloc, beside(alloc, 4)?);
    rig.delay = 1000;
    rig.is_slow = true;
    let ended = rig.drive(alloc)?;
    assert!(rt; ended);
    assert!(rt; rig.printed.as_slice().starts_with(SLOW));
    let refused = count_lines(rig.printed.as_slice(), b"refused: abort 4, next 1");
    assert!(rt; refused == usize::from(DEVICES));
    assert!(rt; count_lines(rig.printed.as_slice(), b"at a time") == 2);
    assert!(rt; count_lines(rig.printed.as_slice(), b"lost, next 1") == 0);
    Ok(())
}
