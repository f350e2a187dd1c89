//! What words put on record, and stop: a device that is new and one that was stopped, a log that
//! was stopped and one that is new, each named twice.

use crate::site::{device, standing};
use bac_archive::Put;
use bac_plan::{Choice, Named, NamingFault, StopFault, rows_named, rows_stopped};
use std::alloc::{AllocError, Global};
use std::test::Fail;

fn logs(alloc: Global, instances: &[u32]) -> Result<Choice, AllocError> {
    Ok(Choice::Logs(Vec::from_slice(alloc, instances)?))
}

fn named(alloc: Global, address: &str, choice: Choice) -> Result<Named, AllocError> {
    Ok(Named {
        address: String::from_str(alloc, address)?,
        dnet: 0,
        dadr: String::new(alloc),
        choice,
    })
}

/// What a row is of, its id, and whether it is stopped.
fn said(put: &Put) -> (u8, u16, bool) {
    match put {
        Put::NewDevice(row) => (0, row.id, row.stopped),
        Put::Device(row) => (1, row.id, row.stopped),
        Put::NewLog(row) => (2, row.id, row.stopped),
        Put::Log(row) => (3, row.id, row.stopped),
        Put::Beginning(_) => (4, 0, false),
        Put::Lowered(_) => (5, 0, false),
        Put::Item(_) => (6, 0, false),
    }
}

fn all_said(alloc: Global, puts: &[Put]) -> Result<Vec<(u8, u16, bool)>, AllocError> {
    let mut all = Vec::new(alloc);
    for put in puts {
        all.push(said(put))?;
    }
    Ok(all)
}

#[test]
fn puts_what_is_named(rt: HostRuntime) -> Result<(), Fail> {
    let alloc = rt.alloc();
    let told = standing(alloc)?;
    let mut words = Vec::new(alloc);
    words.push(named(alloc, "10.0.0.1:47808", logs(alloc, &[8, 9, 10, 10])?)?)?;
    words.push(named(alloc, "10.0.0.3:47808", Choice::Whole)?)?;
    words.push(named(alloc, "10.0.0.9:47808", Choice::Whole)?)?;
    words.push(named(alloc, "10.0.0.9:47808", logs(alloc, &[1])?)?)?;
    let Ok(puts) = rows_named(alloc, &told, words.as_slice()) else {
        return Err(Fail::from("no rows"));
    };
    let all = all_said(alloc, puts.as_slice())?;
    assert!(rt; all.len() == 5);
    assert!(rt; all[0] == (1, 3, false));
    assert!(rt; all[1] == (0, 4, false));
    assert!(rt; all[2] == (3, 3, false));
    assert!(rt; all[3] == (2, 6, false));
    assert!(rt; all[4] == (2, 7, false));
    Ok(())
}

/// A device of which some logs were named has the revision that came with these; once all are named
/// it has none, so its list is asked for. One that is whole by then keeps its own.
#[test]
fn whole_device_is_asked_for_its_list(rt: HostRuntime) -> Result<(), Fail> {
    let alloc = rt.alloc();
    let mut third = device(alloc, 3, "10.0.0.3:47808", 0)?;
    third.revision = Some(8);
    third.whole = true;
    let mut first = device(alloc, 1, "10.0.0.1:47808", 0)?;
    first.revision = Some(7);
    let mut devices = Vec::new(alloc);
    devices.push(third)?;
    devices.push(first)?;
    let mut told = standing(alloc)?;
    told.devices = devices;
    let mut words = Vec::new(alloc);
    words.push(named(alloc, "10.0.0.1:47808", Choice::Whole)?)?;
    words.push(named(alloc, "10.0.0.3:47808", Choice::Whole)?)?;
    let Ok(puts) = rows_named(alloc, &told, words.as_slice()) else {
        return Err(Fail::from("no rows"));
    };
    assert!(rt; puts.len() == 2);
    let Put::Device(third) = &puts[0] else {
        return Err(Fail::from("no device"));
    };
    assert!(rt; third.id == 3 && third.whole && third.revision == Some(8));
    let Put::Device(first) = &puts[1] else {
        return Err(Fail::from("no device"));
    };
    assert!(rt; first.id == 1 && first.whole && first.revision == None);
    Ok(())
}

#[test]
fn no_id_is_left(rt: HostRuntime) -> Result<(), Fail> {
    let alloc = rt.alloc();
    let mut told = standing(alloc)?;
    told.next_device = 65_536;
    let mut words = Vec::new(alloc);
    words.push(named(alloc, "10.0.0.9:47808", Choice::Whole)?)?;
    match rows_named(alloc, &told, words.as_slice()) {
        Ok(_) => Err(Fail::from("rows")),
        Err(fault) => {
            assert!(rt; fault == NamingFault::DevicesFull);
            Ok(())
        }
    }
}

#[test]
fn stops_what_is_named(rt: HostRuntime) -> Result<(), Fail> {
    let alloc = rt.alloc();
    let told = standing(alloc)?;
    let mut words = Vec::new(alloc);
    words.push(named(alloc, "10.0.0.1:47808", Choice::Whole)?)?;
    let Ok(puts) = rows_stopped(alloc, &told, words.as_slice()) else {
        return Err(Fail::from("no rows"));
    };
    let all = all_said(alloc, puts.as_slice())?;
    assert!(rt; all.len() == 3);
    assert!(rt; all[0] == (1, 1, true));
    assert!(rt; all[1] == (3, 2, true));
    assert!(rt; all[2] == (3, 1, true));
    words.push(named(alloc, "10.0.0.3:47808", logs(alloc, &[1, 2])?)?)?;
    match rows_stopped(alloc, &told, words.as_slice()) {
        Ok(_) => Err(Fail::from("rows")),
        Err(fault) => {
            assert!(rt; fault == StopFault::NoLog(1, 2));
            Ok(())
        }
    }
}
