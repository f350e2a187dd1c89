//! What is put of a log whose numbers come round.

use crate::rig::Rig;
use crate::seats::{log_record, peer, poller, site, task, text};
use bac_archive::Put;
use bac_device_poll::{Begin, Way};
use bac_poll::{DateTime, Kept, Standing, Told};
use bac_row_ids::Place;
use bac_site_poller::SitePoller;
use std::alloc::{AllocError, Global};
use std::test::Fail;

/// The records from 4294967292 on, the last of which is 2, with LAST_ITEM.
const NEWS: &str =
    "810a008e010030011a0c0500000119833a054049065e0ea47e031c06b4162d00000f1e49171f2a0400\
    0ea47e031c06b4170000000f1e49181f2a04000ea47e031c06b4170f00000f1e49191f2a0400\
    0ea47e031c06b4171e00000f1e491a1f2a04000ea47e031c06b4172d00000f1e491b1f2a0400\
    0ea47e031d07b4000000000f1e491c1f2a04005f6cfffffffc";

/// The record 2, with LAST_ITEM.
const NEWEST: &str =
    "810a002c010030011a0c0500000119833a054049015e0ea47e031d07b4000000000f1e491c1f2a04005f6902";

/// The records from 4294967292 on, the last of which is 4294967295, with LAST_ITEM.
const UP_TO_LAST: &str =
    "810a0068010030011a0c0500000119833a054049045e0ea47e031c06b4162d00000f1e49171f2a0400\
    0ea47e031c06b4170000000f1e49181f2a04000ea47e031c06b4170f00000f1e49191f2a0400\
    0ea47e031c06b4171e00000f1e491a1f2a04005f6cfffffffc";

/// The record 4294967295, with LAST_ITEM.
const LAST: &str =
    "810a002f010030011a0c0500000119833a054049015e0ea47e031c06b4171e00000f1e491a1f2a0400\
    5f6cffffffff";

/// The records from 4294967293 on, the last of which is 2, with LAST_ITEM.
const BEHIND_LAST: &str =
    "810a007b010030011a0c0500000119833a054049055e0ea47e031c06b4170000000f1e49181f2a0400\
    0ea47e031c06b4170f00000f1e49191f2a04000ea47e031c06b4171e00000f1e491a1f2a0400\
    0ea47e031c06b4172d00000f1e491b1f2a04000ea47e031d07b4000000000f1e491c1f2a04005f6cfffffffd";

/// The ids of the rows that are put: 4294967295 of epoch 0, the beginning of epoch 1, and 1 and 2
/// of that.
const PUT: [i64; 4] = [
    140_741_783_322_623,
    32_769,
    140_741_783_322_625,
    140_741_783_322_626,
];

/// The line of the log.
const CAUGHT_UP: &[u8] = b"device 1 3 records 0 gaps caught up, next 3\n";

/// That of one that has one reply with records.
const LIMITED: &[u8] = b"device 1 3 records 0 gaps step limit, next 3\n";

/// A record that is kept.
fn kept(alloc: Global, number: u32, stamp: &str, datum: &str) -> Result<Kept, Fail> {
    let stamp = DateTime::read(stamp).ok_or("no date and time")?;
    let datum = text(alloc, datum)?;
    let flags = text(alloc, "0000")?;
    Ok(Kept {
        number,
        stamp,
        datum,
        flags,
    })
}

/// The lines of one that ends with 4294967295, of one that goes on behind that, and of one that
/// can't.
const AT_LAST: &[u8] = b"device 1 1 record 0 gaps caught up, next 1\n";

const WENT_ON: &[u8] = b"device 1 2 records 0 gaps caught up, next 3\n";

const USED_UP: &[u8] = b"device 1 0 records 0 gaps began anew once too often, next 1\n";

/// A log that stands behind 4294967294.
fn standing(alloc: Global) -> Result<Standing, Fail> {
    let newest = kept(alloc, 4_294_967_294, "2026-03-28T23:15:00.00", "25")?;
    let earlier = kept(alloc, 4_294_967_293, "2026-03-28T23:00:00.00", "24")?;
    let earliest = kept(alloc, 4_294_967_292, "2026-03-28T22:45:00.00", "23")?;
    let stamp = Some(newest.stamp);
    Ok(Standing {
        next: 4_294_967_295,
        newest: Some(newest),
        earlier: Some(earlier),
        earliest: Some(earliest),
        stamp,
        word: Told::nothing(alloc),
    })
}

/// One that stands behind 4294967295.
fn standing_at_last(alloc: Global) -> Result<Standing, Fail> {
    let newest = kept(alloc, 4_294_967_295, "2026-03-28T23:30:00.00", "26")?;
    let earlier = kept(alloc, 4_294_967_294, "2026-03-28T23:15:00.00", "25")?;
    let earliest = kept(alloc, 4_294_967_293, "2026-03-28T23:00:00.00", "24")?;
    let stamp = Some(newest.stamp);
    Ok(Standing {
        next: 1,
        newest: Some(newest),
        earlier: Some(earlier),
        earliest: Some(earliest),
        stamp,
        word: Told::nothing(alloc),
    })
}

/// A device with a log that stands there, and has so many replies with records, if not as many as
/// come.
fn site_at(
    alloc: Global,
    at: Standing,
    place: Option<Place>,
    steps: Option<u32>,
) -> Result<SitePoller, Fail> {
    let mut log = log_record(alloc, "device", 1)?;
    log.place = place;
    log.next = at.next;
    let mut tasks = Vec::new(alloc);
    tasks.push(task(1, Begin::Behind(at))?)?;
    let mut logs = Vec::new(alloc);
    logs.push(log)?;
    let way = Way {
        peer: peer(1),
        route: None,
    };
    let mut site = site(alloc, 1, 1)?;
    site.add(poller(alloc, 1, way, "device", tasks, logs, steps)?)?;
    Ok(site)
}

/// One with a log that stands behind 4294967294.
fn site_of(alloc: Global, steps: Option<u32>) -> Result<SitePoller, Fail> {
    site_at(alloc, standing(alloc)?, Place::new(1, 0), steps)
}

/// One with a log that stands behind 4294967295, in this epoch.
fn site_at_last(alloc: Global, epoch: u16) -> Result<SitePoller, Fail> {
    let place = Place::new(1, epoch).ok_or("no epoch")?;
    site_at(
        alloc,
        standing_at_last(alloc)?,
        Some(place.filled(true)),
        None,
    )
}

/// The ids of items and beginnings that are put.
fn ids_of(alloc: Global, puts: &[Put]) -> Result<Vec<i64>, AllocError> {
    let mut ids = Vec::new(alloc);
    for put in puts {
        match put {
            Put::Item(row) => ids.push(row.id)?,
            Put::Beginning(row) => ids.push(i64::from(row.id))?,
            Put::Lowered(row) => ids.push(i64::from(row.id))?,
            Put::NewDevice(_) => {}
            Put::Device(_) => {}
            Put::NewLog(_) => {}
            Put::Log(_) => {}
        }
    }
    Ok(ids)
}

#[test]
fn numbers_come_round(rt: HostRuntime) -> Result<(), Fail> {
    let alloc = rt.alloc();
    let mut rig = Rig::new(alloc, site_of(alloc, None)?);
    rig.records.push_back(NEWS)?;
    rig.records.push_back(NEWEST)?;
    let ended = rig.drive(alloc)?;
    assert!(rt; ended);
    // Who it is, its word, and records twice.
    assert!(rt; rig.sends.len() == 5);
    let ids = ids_of(alloc, rig.puts.as_slice())?;
    assert!(rt; ids.as_slice() == PUT.as_slice());
    assert!(rt; rig.printed.as_slice() == CAUGHT_UP);
    assert!(rt; rig.status() == 0);
    Ok(())
}

#[test]
fn the_next_epoch_begins_behind_the_last_number(rt: HostRuntime) -> Result<(), Fail> {
    let alloc = rt.alloc();
    let mut rig = Rig::new(alloc, site_of(alloc, None)?);
    rig.records.push_back(UP_TO_LAST)?;
    rig.records.push_back(LAST)?;
    let ended = rig.drive(alloc)?;
    assert!(rt; ended);
    let ids = ids_of(alloc, rig.puts.as_slice())?;
    assert!(rt; ids.as_slice() == &PUT[..1]);
    assert!(rt; rig.printed.as_slice() == AT_LAST);
    // The next run.
    let mut rig = Rig::new(alloc, site_at_last(alloc, 0)?);
    rig.records.push_back(BEHIND_LAST)?;
    rig.records.push_back(NEWEST)?;
    let ended = rig.drive(alloc)?;
    assert!(rt; ended);
    let ids = ids_of(alloc, rig.puts.as_slice())?;
    assert!(rt; ids.as_slice() == &PUT[1..]);
    assert!(rt; rig.printed.as_slice() == WENT_ON);
    assert!(rt; rig.status() == 0);
    Ok(())
}

#[test]
fn nothing_is_put_behind_the_last_epoch(rt: HostRuntime) -> Result<(), Fail> {
    let alloc = rt.alloc();
    let mut rig = Rig::new(alloc, site_at_last(alloc, 32_767)?);
    rig.records.push_back(BEHIND_LAST)?;
    rig.records.push_back(NEWEST)?;
    let ended = rig.drive(alloc)?;
    assert!(rt; ended);
    assert!(rt; ids_of(alloc, rig.puts.as_slice())?.is_empty());
    assert!(rt; rig.printed.as_slice() == USED_UP);
    assert!(rt; rig.status() == 6);
    Ok(())
}

#[test]
fn a_log_ends_at_its_step_limit(rt: HostRuntime) -> Result<(), Fail> {
    let alloc = rt.alloc();
    for steps in [0, 1] {
        let mut rig = Rig::new(alloc, site_of(alloc, Some(steps))?);
        rig.records.push_back(NEWS)?;
        rig.records.push_back(NEWEST)?;
        let ended = rig.drive(alloc)?;
        assert!(rt; ended);
        // Who it is, its word, and records once.
        assert!(rt; rig.sends.len() == 4);
        let ids = ids_of(alloc, rig.puts.as_slice())?;
        assert!(rt; ids.as_slice() == PUT.as_slice());
        assert!(rt; rig.printed.as_slice() == LIMITED);
        assert!(rt; rig.status() == 8);
    }
    Ok(())
}

#[test]
fn one_that_is_caught_up_with_its_last_reply_is_so(rt: HostRuntime) -> Result<(), Fail> {
    let alloc = rt.alloc();
    let mut rig = Rig::new(alloc, site_of(alloc, Some(2))?);
    rig.records.push_back(NEWS)?;
    rig.records.push_back(NEWEST)?;
    let ended = rig.drive(alloc)?;
    assert!(rt; ended);
    assert!(rt; rig.printed.as_slice() == CAUGHT_UP);
    assert!(rt; rig.status() == 0);
    Ok(())
}
