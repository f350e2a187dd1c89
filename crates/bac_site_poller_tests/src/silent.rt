//! Sites whose devices don't answer, don't answer for some of their logs, or refuse all.

use crate::rig::Rig;
use crate::seats::{at_host, site};
use std::test::Fail;

/// The lines of a silent device, and of one that answers from another port: by its invoke ID that
/// answer might be the silent one's, too.
const NONE: &[u8] = b"10.0.0.2:47808: no answer, but one from 10.0.0.4:47809\n\
    silent 2 not asked\nsilent 12 not asked\nsilent 22 not asked\n\
    silent: no answer\n\
    10.0.0.4:47808: no answer, but one from 10.0.0.4:47809\n\
    moved 4 not asked\nmoved: no answer\n";

/// To which hosts is sent where a silent device is between two that answer, and gives its place up
/// before it is asked again. These are asked who they are, for their word, for the count of a log
/// and for its records seven times, always fewer. The second log of the first device is asked for
/// one at a time.
const SENDS: [u8; 26] = [
    1, 2, 3, 1, 3, 1, 3, 1, 3, 1, 3, 1, 3, 1, 3, 1, 3, 1, 3, 1, 3, 1, 3, 1, 1, 2,
];

/// Their lines, in the order in which the logs end.
const BETWEEN: &[u8] = b"first 1 0 records 0 gaps refused: abort 4, next 1\n\
    first 1: segmentation not supported: the answer is too long for one \
    datagram; --index=0 and on reads an array in parts, --count=20 a log\n\
    third 3 0 records 0 gaps refused: abort 4, next 1\n\
    third 3: segmentation not supported: the answer is too long for one \
    datagram; --index=0 and on reads an array in parts, --count=20 a log\n\
    first 11 0 records 0 gaps refused: abort 4, next 1\n\
    first 11: segmentation not supported: the answer is too long for one \
    datagram; --index=0 and on reads an array in parts, --count=20 a log\n\
    silent 2 not asked\nsilent 12 not asked\nsilent 22 not asked\n\
    silent: no answer\n";

/// Those of a device that doesn't answer for some of its logs.
const LOST: &[u8] = b"third 100 0 records 0 gaps lost, next 1\n\
    third 3 0 records 0 gaps refused: abort 4, next 1\n\
    third 3: segmentation not supported: the answer is too long for one \
    datagram; --index=0 and on reads an array in parts, --count=20 a log\n\
    third 101 0 records 0 gaps lost, next 1\n\
    third 33 0 records 0 gaps refused: abort 4, next 1\n\
    third 33: segmentation not supported: the answer is too long for one \
    datagram; --index=0 and on reads an array in parts, --count=20 a log\n\
    third 102 0 records 0 gaps lost, next 1\n";

/// Those of one that falls silent.
const FALLEN: &[u8] = b"third 100 0 records 0 gaps lost, next 1\n\
    third 101 0 records 0 gaps lost, next 1\n\
    third 102 not asked\nthird 103 not asked\n";

/// The lines of one that refuses all.
const REFUSED: &[u8] = b"first: the device is known by its address alone\n\
    first 1 0 records 0 gaps refused: error 2 32, next 1\n\
    first 1: unknown property\n";

/// The line of a silent device, to whose question the answer of another device would fit that came
/// late.
const LATE: &[u8] = b"silent 2 not asked\nsilent: no answer\n";

#[test]
fn silent_devices_are_waited_for_once(rt: HostRuntime) -> Result<(), Fail> {
    let alloc = rt.alloc();
    let mut site = site(alloc, 1, 1)?;
    site.add(at_host(alloc, 2, "silent", &[2, 12, 22])?)?;
    site.add(at_host(alloc, 4, "moved", &[4])?)?;
    let mut rig = Rig::new(alloc, site);
    let ended = rig.drive(alloc)?;
    assert!(rt; ended);
    // The second one is asked as the first gives its place up, after 250 ms.
    assert!(rt; rig.sends.as_slice() == [2, 4, 2, 4].as_slice());
    assert!(rt; rig.printed.as_slice() == NONE);
    assert!(rt; rig.puts.is_empty());
    assert!(rt; rig.ms == 6250);
    Ok(())
}

#[test]
fn a_silent_device_stops_no_other(rt: HostRuntime) -> Result<(), Fail> {
    let alloc = rt.alloc();
    let mut site = site(alloc, 1, 1)?;
    site.add(at_host(alloc, 1, "first", &[1, 11])?)?;
    site.add(at_host(alloc, 2, "silent", &[2, 12, 22])?)?;
    site.add(at_host(alloc, 3, "third", &[3])?)?;
    let mut rig = Rig::new(alloc, site);
    let ended = rig.drive(alloc)?;
    assert!(rt; ended);
    assert!(rt; rig.sends.as_slice() == SENDS.as_slice());
    assert!(rt; rig.printed.as_slice() == BETWEEN);
    assert!(rt; rig.ms == 6000);
    Ok(())
}

#[test]
fn a_log_that_is_lost_stops_no_other(rt: HostRuntime) -> Result<(), Fail> {
    let alloc = rt.alloc();
    let mut site = site(alloc, 1, 1)?;
    site.add(at_host(alloc, 3, "third", &[100, 3, 101, 33, 102])?)?;
    let mut rig = Rig::new(alloc, site);
    let ended = rig.drive(alloc)?;
    assert!(rt; ended);
    assert!(rt; rig.sends.as_slice() == [3; 19].as_slice());
    assert!(rt; rig.printed.as_slice() == LOST);
    assert!(rt; rig.ms == 18000);
    Ok(())
}

#[test]
fn two_that_are_lost_in_a_row_end_a_device(rt: HostRuntime) -> Result<(), Fail> {
    let alloc = rt.alloc();
    let mut site = site(alloc, 1, 1)?;
    site.add(at_host(alloc, 3, "third", &[100, 101, 102, 103])?)?;
    let mut rig = Rig::new(alloc, site);
    let ended = rig.drive(alloc)?;
    assert!(rt; ended);
    // Who it is and its word, the question of a log twice, and that of the next once.
    assert!(rt; rig.sends.as_slice() == [3; 6].as_slice());
    assert!(rt; rig.printed.as_slice() == FALLEN);
    assert!(rt; rig.ms == 9000);
    Ok(())
}

#[test]
fn a_device_may_refuse_all(rt: HostRuntime) -> Result<(), Fail> {
    let alloc = rt.alloc();
    let mut site = site(alloc, 1, 1)?;
    site.add(at_host(alloc, 5, "first", &[1])?)?;
    let mut rig = Rig::new(alloc, site);
    let ended = rig.drive(alloc)?;
    assert!(rt; ended);
    // Who it is, a Who-Is twice, its name, its word, the count of its log and the records.
    assert!(rt; rig.sends.as_slice() == [5; 8].as_slice());
    assert!(rt; rig.printed.as_slice() == REFUSED);
    assert!(rt; rig.ms == 6000);
    Ok(())
}

#[test]
fn a_late_answer_of_another_device_is_no_stray(rt: HostRuntime) -> Result<(), Fail> {
    let alloc = rt.alloc();
    let mut site = site(alloc, 1, 1)?;
    site.add(at_host(alloc, 1, "first", &[])?)?;
    site.add(at_host(alloc, 2, "silent", &[2])?)?;
    site.add(at_host(alloc, 3, "third", &[])?)?;
    let mut rig = Rig::new(alloc, site);
    rig.delay = 3500;
    let ended = rig.drive(alloc)?;
    assert!(rt; ended);
    assert!(rt; rig.printed.as_slice() == LATE);
    Ok(())
}
