//! Questions about a list and about what a log is that aren't answered: no revision is put on
//! record, so the next run asks again.

use crate::comes::{asked, come, device, now};
use bac_device_poll::{DeviceEnd, DevicePoll, Entry, Step};
use bac_walk::WalkFault;
use std::alloc::Global;
use std::test::Fail;

/// Device 4711.
const INSTANCE: &str = "810a0017010030010c0c023fffff194b3ec4020012673f";
/// Error property, unknown-property.
const REFUSED: &str = "810a000d010050010c91029120";
/// Database_Revision 8.
const REVISION: &str = "810a0014010030010c0c02001267199b3e21083f";
/// "AHU".
const NAME: &str = "810a0017010030010c0c05000001194d3e74004148553f";
/// The Present_Value of Analog Input 2.
const SOURCE: &str = "810a0019010030010c0c0500000119843e0c0000000219553f";
/// Degrees Celsius.
const UNITS: &str = "810a0014010030010c0c0000000219753e913e3f";
/// "AHU" as a Description.
const DESCRIPTION: &str = "810a0017010030010c0c00000002191c3e74004148553f";
/// Total_Record_Count, by which a log's poll begins (clause 12.25).
const COUNT: u32 = 145;
/// No answer.
const LOST: &str = "";

/// What comes of what a log is; and whether the revision is put on record then.
#[derive(Clone, Copy)]
struct Row {
    name: &'static str,
    source: &'static str,
    units: &'static str,
    description: &'static str,
    is_read: bool,
}

fn from(
    name: &'static str,
    source: &'static str,
    units: &'static str,
    description: &'static str,
    is_read: bool,
) -> Row {
    Row {
        name,
        source,
        units,
        description,
        is_read,
    }
}

/// One that refuses what a log is, is read; one that doesn't answer isn't.
fn rows() -> [Row; 7] {
    [
        from(NAME, SOURCE, UNITS, DESCRIPTION, true),
        from(REFUSED, SOURCE, UNITS, DESCRIPTION, true),
        from(NAME, SOURCE, REFUSED, REFUSED, true),
        from(LOST, SOURCE, UNITS, DESCRIPTION, false),
        from(NAME, LOST, LOST, LOST, false),
        from(NAME, SOURCE, LOST, DESCRIPTION, false),
        from(NAME, SOURCE, UNITS, LOST, false),
    ]
}

/// Whether a log is named by these.
fn is_named(entries: &[Entry]) -> bool {
    for entry in entries {
        if matches!(entry, Entry::Named(_, _)) {
            return true;
        }
    }
    false
}

/// Whether a revision is put on record by these.
fn is_read(entries: &[Entry]) -> bool {
    for entry in entries {
        if matches!(entry, Entry::Read(8)) {
            return true;
        }
    }
    false
}

/// A device that was changed, as its log, or its list, is asked for.
fn changed(alloc: Global, whole: bool) -> Result<DevicePoll, Fail> {
    let mut poll = device(alloc, Some(4711), whole)?;
    let now = now()?;
    come(alloc, &mut poll, INSTANCE, now)?;
    come(alloc, &mut poll, REFUSED, now)?;
    come(alloc, &mut poll, REVISION, now)?;
    Ok(poll)
}

/// Whether its log is named, and a revision is put on record, by what comes of what the log is, up
/// to where that is polled.
fn tell(alloc: Global, poll: &mut DevicePoll, row: Row) -> Result<(bool, bool), Fail> {
    let now = now()?;
    let mut named = false;
    let mut read = false;
    for digits in [row.name, row.source, row.units, row.description] {
        if asked(poll) != (COUNT, None) {
            let turn = come(alloc, poll, digits, now)?;
            named = named || is_named(turn.entries.as_slice());
            read = read || is_read(turn.entries.as_slice());
        }
    }
    Ok((named, read))
}

#[test]
fn names_are_asked_again(rt: HostRuntime) -> Result<(), Fail> {
    let alloc = rt.alloc();
    for row in rows() {
        let mut poll = changed(alloc, false)?;
        assert!(rt; asked(&poll) == (77, None));
        let told = tell(alloc, &mut poll, row)?;
        assert!(rt; told == (true, row.is_read));
        assert!(rt; asked(&poll) == (COUNT, None));
    }
    Ok(())
}

#[test]
fn list_is_asked_again(rt: HostRuntime) -> Result<(), Fail> {
    let alloc = rt.alloc();
    let now = now()?;
    let mut poll = changed(alloc, true)?;
    assert!(rt; asked(&poll) == (76, None));
    // Neither the list comes nor how many elements it has, which is told.
    come(alloc, &mut poll, LOST, now)?;
    assert!(rt; asked(&poll) == (76, Some(0)));
    let turn = come(alloc, &mut poll, LOST, now)?;
    assert!(rt; turn.step == Step::Ask);
    assert!(rt; matches!(turn.entries.as_slice(), [Entry::Unlisted(WalkFault::Lost)]));
    // Its log on record is polled.
    assert!(rt; asked(&poll) == (77, None));
    assert!(rt; poll.is_sent_once());
    let told = tell(alloc, &mut poll, rows()[0])?;
    assert!(rt; told == (true, false));
    assert!(rt; asked(&poll) == (COUNT, None));
    Ok(())
}

#[test]
fn three_in_a_row_are_silence(rt: HostRuntime) -> Result<(), Fail> {
    let alloc = rt.alloc();
    let now = now()?;
    let mut poll = changed(alloc, true)?;
    come(alloc, &mut poll, LOST, now)?;
    come(alloc, &mut poll, LOST, now)?;
    let turn = come(alloc, &mut poll, LOST, now)?;
    assert!(rt; turn.step == Step::End(DeviceEnd::Silent));
    Ok(())
}

#[test]
fn length_may_be_lost_alone(rt: HostRuntime) -> Result<(), Fail> {
    let alloc = rt.alloc();
    let now = now()?;
    let mut poll = changed(alloc, true)?;
    // Abort 4: the list is too long for one answer. How many elements it has is lost.
    come(alloc, &mut poll, "810a00090100710104", now)?;
    assert!(rt; asked(&poll) == (76, Some(0)));
    come(alloc, &mut poll, LOST, now)?;
    assert!(rt; asked(&poll) == (77, None));
    Ok(())
}
