//! A device that can't send so many records at once: half as many are asked for, of its next log,
//! too.

use crate::comes::come;
use bac_apdu::Extent;
use bac_device_poll::{Begin, DevicePoll, Known, LogTask, Question, Who};
use bac_link::Request;
use bac_poll::Told;
use bac_walk::Count;
use bac_wire::{ObjectId, Stamp};
use std::alloc::Global;
use std::test::Fail;

/// How many records are asked for; 0: something else is.
fn count_of(poll: &DevicePoll) -> i32 {
    match poll.question() {
        Question::Confirmed(Request::ReadRange(asked)) => match asked.extent {
            Extent::ByNumber { count, .. } => count,
            Extent::ByTime { count, .. } => count,
            _ => 0,
        },
        _ => 0,
    }
}

/// A trend log of which nothing is kept.
fn task(alloc: Global, instance: u32) -> Option<LogTask> {
    let log = ObjectId::new(20, instance)?;
    LogTask::new(log, Begin::Starting(None, Told::nothing(alloc)))
}

#[test]
fn fewer_are_asked_for(rt: HostRuntime) -> Result<(), Fail> {
    let alloc = rt.alloc();
    let known = Known {
        who: Some(Who::Device(ObjectId::new(8, 4711).ok_or("no device")?)),
        revision: Some(7),
        whole: false,
        others: None,
        stopped: Vec::new(alloc),
    };
    let mut logs = Vec::new(alloc);
    logs.push(task(alloc, 1).ok_or("no log")?)?;
    logs.push(task(alloc, 2).ok_or("no log")?)?;
    let now = Stamp::new(2026, 3, 29, 2, 30, 0, 0).ok_or("no moment")?;
    let mut poll = DevicePoll::new(alloc, known, logs, Count::most(), 3, false);
    // Object_Identifier; no restart (Error property, unknown-property); Database_Revision 7.
    come(
        alloc,
        &mut poll,
        "810a0017010030010c0c023fffff194b3ec4020012673f",
        now,
    )?;
    come(alloc, &mut poll, "810a000d010050010c91029120", now)?;
    come(
        alloc,
        &mut poll,
        "810a0014010030010c0c02001267199b3e21073f",
        now,
    )?;
    // Three records are counted: the oldest are asked for.
    come(
        alloc,
        &mut poll,
        "810a0014010030010c0c0500000119913e21033f",
        now,
    )?;
    assert!(rt; count_of(&poll) == 100);
    // Abort 4 and Abort 11.
    come(alloc, &mut poll, "810a00090100710104", now)?;
    assert!(rt; count_of(&poll) == 50);
    come(alloc, &mut poll, "810a0009010071010b", now)?;
    assert!(rt; count_of(&poll) == 25);
    // Error object, unknown-object ends the log; so many are asked of the next one.
    let turn = come(alloc, &mut poll, "810a000d010050011a9101911f", now)?;
    assert!(rt; turn.log.is_some());
    poll.go_on(alloc)?;
    come(
        alloc,
        &mut poll,
        "810a0014010030010c0c0500000219913e21033f",
        now,
    )?;
    assert!(rt; count_of(&poll) == 25);
    Ok(())
}
