//! A device that gives no answer to some questions, and refuses its Object_List.

use crate::comes::{asked, come};
use bac_device_poll::{Begin, DeviceEnd, DevicePoll, Known, LogTask, Step, Who};
use bac_poll::Told;
use bac_walk::Count;
use bac_wire::{ObjectId, Stamp};
use std::alloc::Global;
use std::test::Fail;

/// An answer in hexadecimal digits, or none; how many entries that brings; the property that is
/// asked for then, and whether it is asked for once.
#[derive(Clone, Copy)]
struct Row {
    comes: &'static str,
    entries: usize,
    asks: u32,
    once: bool,
}

fn from(comes: &'static str, entries: usize, asks: u32, once: bool) -> Row {
    Row {
        comes,
        entries,
        asks,
        once,
    }
}

/// A device that doesn't answer for each second of its properties.
fn rows() -> [Row; 9] {
    [
        // Device 4711; Time_Of_Device_Restart.
        from(
            "810a0017010030010c0c023fffff194b3ec4020012673f",
            0,
            203,
            false,
        ),
        // None; Database_Revision.
        from("", 0, 155, true),
        // 8; Local_Date.
        from("810a0014010030010c0c02001267199b3e21083f", 0, 56, false),
        // None: its clock is unknown; Object_List.
        from("", 1, 76, true),
        // Error property, read-access-denied, which is told; the name of its log.
        from("810a000d010050010c9102911b", 1, 77, false),
        // None; Log_DeviceObjectProperty.
        from("", 0, 132, true),
        // The Present_Value of Analog Input 2; Units.
        from(
            "810a0019010030010c0c0500000119843e0c0000000219553f",
            0,
            117,
            false,
        ),
        // Degrees Celsius; Description.
        from("810a0014010030010c0c0000000219753e913e3f", 0, 28, false),
        // None: the log is named, and polled.
        from("", 1, 145, true),
    ]
}

/// Device 4711, all of whose logs are kept, of which one is on record.
fn device(alloc: Global) -> Result<DevicePoll, Fail> {
    let known = Known {
        who: Some(Who::Device(ObjectId::new(8, 4711).ok_or("no device")?)),
        revision: Some(7),
        whole: true,
        others: None,
        stopped: Vec::new(alloc),
    };
    let log = ObjectId::new(20, 1).ok_or("no log")?;
    let task = LogTask::new(log, Begin::Starting(None, Told::nothing(alloc)));
    let mut logs = Vec::new(alloc);
    logs.push(task.ok_or("no trend log")?)?;
    Ok(DevicePoll::new(alloc, known, logs, Count::most(), 3, true))
}

#[test]
fn questions_are_passed_over(rt: HostRuntime) -> Result<(), Fail> {
    let alloc = rt.alloc();
    let now = Stamp::new(2026, 3, 29, 2, 30, 0, 0).ok_or("no moment")?;
    let mut poll = device(alloc)?;
    for row in rows() {
        let turn = come(alloc, &mut poll, row.comes, now)?;
        assert!(rt; turn.entries.len() == row.entries);
        assert!(rt; turn.step == Step::Ask);
        assert!(rt; asked(&poll) == (row.asks, None));
        assert!(rt; poll.is_sent_once() == row.once);
    }
    let turn = come(alloc, &mut poll, "", now)?;
    assert!(rt; turn.step == Step::End(DeviceEnd::Silent));
    Ok(())
}

#[test]
fn two_in_a_row_are_silence(rt: HostRuntime) -> Result<(), Fail> {
    let alloc = rt.alloc();
    let now = Stamp::new(2026, 3, 29, 2, 30, 0, 0).ok_or("no moment")?;
    let mut poll = device(alloc)?;
    for row in rows()[..4].iter() {
        come(alloc, &mut poll, row.comes, now)?;
    }
    // The Object_List: the log is told as not asked.
    let turn = come(alloc, &mut poll, "", now)?;
    assert!(rt; turn.entries.len() == 1);
    assert!(rt; turn.step == Step::End(DeviceEnd::Silent));
    Ok(())
}

#[test]
fn a_list_is_asked_for_by_index(rt: HostRuntime) -> Result<(), Fail> {
    let alloc = rt.alloc();
    let now = Stamp::new(2026, 3, 29, 2, 30, 0, 0).ok_or("no moment")?;
    let mut poll = device(alloc)?;
    for row in rows()[..3].iter() {
        come(alloc, &mut poll, row.comes, now)?;
    }
    // Error property, unknown-property: its clock is unknown; the whole list, and then its length.
    come(alloc, &mut poll, "810a000d010050010c91029120", now)?;
    assert!(rt; asked(&poll) == (76, None));
    come(alloc, &mut poll, "", now)?;
    assert!(rt; asked(&poll) == (76, Some(0)));
    assert!(rt; poll.is_sent_once());
    Ok(())
}

#[test]
fn who_it_is_must_be_answered(rt: HostRuntime) -> Result<(), Fail> {
    let alloc = rt.alloc();
    let mut poll = device(alloc)?;
    let turn = poll.lose(alloc)?;
    assert!(rt; turn.entries.len() == 1);
    assert!(rt; turn.step == Step::End(DeviceEnd::Silent));
    Ok(())
}
