//! What is told of a device all of whose logs are kept.

use crate::rig::Rig;
use crate::seats::{device_row, peer, site, text};
use bac_device_poll::{DevicePoll, Known, Text, Way, Who};
use bac_device_poller::{DevicePoller, Rows};
use bac_link::Transactions;
use bac_walk::Count;
use std::alloc::Global;
use std::test::Fail;

/// The lines of one that refuses all, its Object_List too.
const REFUSED: &[u8] = b"first: the device is known by its address alone\n\
    first didn't tell its Object_List: refused: error 2 32\n\
    first: unknown property\n";

/// Those of one that was known by its name, and tells its instance.
const NOW: &[u8] = b"first: the device is known by its instance now\n\
    first didn't tell its Object_List: refused: error 2 32\n\
    first: unknown property\n";

/// A device at a host, by what it is known. None of its logs is on record.
fn whole(alloc: Global, host: u8, who: Option<Who>) -> Result<DevicePoller, Fail> {
    let known = Known {
        who,
        revision: None,
        whole: true,
        others: None,
        stopped: Vec::new(alloc),
    };
    let way = Way {
        peer: peer(host),
        route: None,
    };
    let many = Count::new(100).ok_or("no count")?;
    let poll = DevicePoll::new(alloc, known, Vec::new(alloc), many, 1, false);
    let row = device_row(alloc, u16::from(host));
    let rows = Rows::new(alloc, row, text(alloc, "first")?, Vec::new(alloc));
    Ok(DevicePoller::new(poll, Transactions::new(1), way, 1, rows))
}

#[test]
fn a_list_that_is_refused_is_told(rt: HostRuntime) -> Result<(), Fail> {
    let alloc = rt.alloc();
    let mut site = site(alloc, 1, 1)?;
    site.add(whole(alloc, 5, None)?)?;
    let mut rig = Rig::new(alloc, site);
    let ended = rig.drive(alloc)?;
    assert!(rt; ended);
    assert!(rt; rig.printed.as_slice() == REFUSED);
    assert!(rt; rig.status() == 3);
    Ok(())
}

#[test]
fn a_device_may_tell_more_of_itself(rt: HostRuntime) -> Result<(), Fail> {
    let alloc = rt.alloc();
    let mut site = site(alloc, 1, 1)?;
    let name = Text::of(alloc, b"AHU")?;
    site.add(whole(alloc, 1, Some(Who::Name(name)))?)?;
    let mut rig = Rig::new(alloc, site);
    let ended = rig.drive(alloc)?;
    assert!(rt; ended);
    assert!(rt; rig.printed.as_slice() == NOW);
    assert!(rt; rig.status() == 3);
    Ok(())
}
