//! The lines of an archive that is checked.

ghost use Rattle.std.specs.Prelude.{◌≡◌, ◌++◌, IfOk, OnOk, flat_map};
ghost use Rattle.std.specs.List.{list_all};
ghost use Rattle.bac_check.specs.Lines.{are_whole, check_text, counted, course_text, is_all_there};
ghost use Rattle.bac_check.specs.Lines.{lines_of};
ghost use Rattle.bac_check.specs.Lines.{doubtful_text, epoch_in, epoch_line, epochs_text};
ghost use Rattle.bac_check.specs.Lines.{from_before, gaps_text, gone_line, has_all, has_lost};
ghost use Rattle.bac_check.specs.Lines.{hole_line, holes_in, holes_text, is_complete, is_gone};
ghost use Rattle.bac_check.specs.Lines.{is_none_of, is_whole, log_text, lost_text, tally_text};
ghost use Rattle.bac_check.specs.Lines.{name_text, place_if, place_text, some_doubtful, text_in};

use crate::counts::Counts;
use crate::course::Course;
use crate::gone::{from_before, has_lost, is_gone};
use crate::joins::log_of;
use crate::tally::{Hole, Tally, front_hole};
use bac_archive::{DeviceRow, LogRow};
use bac_print::push_number;
use std::alloc::{AllocError, Global};

/// How many epochs a log has.
const EPOCHS: u32 = 32_768;

/// Appends a number and what is counted.
#[tactic(auto, unfolding(crate::specs::Lines::counted))]
fn push_count(text: &mut Vec<u8>, count: u64, one: &[u8], many: &[u8]) -> Result<(), AllocError>
    ensures { OnOk result (text.new.items ≡ text.old.items ++ counted count one.now many.now) }
{
    push_number(text, count)?;
    text.extend_from_slice(if count == 1 { one } else { many })
}

/// Appends how many gaps there are, and how many numbers they have.
#[tactic(auto, unfolding(crate::specs::Lines::gaps_text))]
fn push_gaps(text: &mut Vec<u8>, gaps: u64, gone: u64) -> Result<(), AllocError>
    ensures { OnOk result (text.new.items ≡ text.old.items ++ gaps_text gaps gone) }
{
    if gaps == 0 {
        return text.extend_from_slice(b"0 gaps");
    }
    push_count(text, gaps, b" gap of ", b" gaps of ")?;
    push_count(text, gone, b" number", b" numbers")
}

/// The same of those that are doubtful.
#[tactic(auto, unfolding(crate::specs::Lines::some_doubtful))]
fn push_some(text: &mut Vec<u8>, gaps: u64, gone: u64) -> Result<(), AllocError>
    ensures { OnOk result (text.new.items ≡ text.old.items ++ some_doubtful gaps gone) }
{
    text.extend_from_slice(b", ")?;
    push_count(text, gaps, b" doubtful gap of ", b" doubtful gaps of ")?;
    push_count(text, gone, b" number\n", b" numbers\n")
}

/// The same, if there are any.
#[tactic(auto, unfolding(crate::specs::Lines::doubtful_text))]
fn push_doubtful(text: &mut Vec<u8>, gaps: u64, gone: u64) -> Result<(), AllocError>
    ensures { OnOk result (text.new.items ≡ text.old.items ++ doubtful_text gaps gone) }
{
    if gaps == 0 {
        return text.extend_from_slice(b"\n");
    }
    push_some(text, gaps, gone)
}

/// Appends what was counted of an epoch.
#[tactic(auto, unfolding(crate::specs::Lines::tally_text))]
fn push_tally(text: &mut Vec<u8>, tally: &Tally) -> Result<(), AllocError>
    ensures { OnOk result (text.new.items ≡ text.old.items ++ tally_text tally.now) }
{
    push_number(text, u64::from(tally.first))?;
    text.extend_from_slice(b" to ")?;
    push_number(text, u64::from(tally.newest.end()))?;
    text.extend_from_slice(b", ")?;
    push_count(text, tally.records, b" record, ", b" records, ")?;
    push_gaps(text, tally.gaps, tally.gone)?;
    push_doubtful(text, tally.doubtful, tally.doubted)
}

/// The number of an epoch, by its id.
fn epoch_in(id: u32) -> u32
    ensures { result ≡ epoch_in id }
{
    id % EPOCHS
}

/// Appends the line of an epoch of the log with this name.
#[tactic(auto, unfolding(crate::specs::Lines::epoch_line))]
fn push_epoch(
    text: &mut Vec<u8>,
    name: &[u8],
    gone: bool,
    course: &Course,
) -> Result<(), AllocError>
    ensures { OnOk result
        (text.new.items ≡ text.old.items ++ epoch_line name.now gone course.now) }
{
    text.extend_from_slice(name)?;
    text.extend_from_slice(b" epoch ")?;
    push_number(text, u64::from(epoch_in(course.begun.id)))?;
    text.extend_from_slice(b": ")?;
    match &course.tally {
        Some(tally) => push_tally(text, tally),
        None => text.extend_from_slice(if gone { b"gone\n" } else { b"nothing\n" }),
    }
}

/// Appends one epoch, or those from one to another.
#[tactic(auto, unfolding(crate::specs::Lines::epochs_text))]
fn push_epochs(text: &mut Vec<u8>, first: u32, last: u32) -> Result<(), AllocError>
    ensures { OnOk result (text.new.items ≡ text.old.items ++ epochs_text first last) }
{
    if first == last {
        text.extend_from_slice(b" epoch ")?;
        return push_number(text, u64::from(last));
    }
    text.extend_from_slice(b" epochs ")?;
    push_number(text, u64::from(first))?;
    text.extend_from_slice(b" to ")?;
    push_number(text, u64::from(last))
}

/// Appends the line of epochs that are gone.
#[tactic(auto, unfolding(crate::specs::Lines::gone_line))]
fn push_gone(text: &mut Vec<u8>, name: &[u8], first: u32, last: u32) -> Result<(), AllocError>
    ensures { OnOk result (text.new.items ≡ text.old.items ++ gone_line name.now first last) }
{
    text.extend_from_slice(name)?;
    push_epochs(text, first, last)?;
    text.extend_from_slice(b": gone\n")
}

/// Appends the line of those before an epoch of the log with this name, if there are any.
fn push_lost(
    text: &mut Vec<u8>,
    name: &[u8],
    courses: &[Course],
    course: &Course,
) -> Result<(), AllocError>
    ensures { OnOk result
        (text.new.items ≡ text.old.items ++ lost_text name.now courses.now course.now) }
{
    if !has_lost(courses, course) {
        return Ok(());
    }
    let first = from_before(courses, course.begun.id);
    push_gone(
        text,
        name,
        epoch_in(first),
        epoch_in(course.begun.id.saturating_sub(1)),
    )
}

/// Appends the line of a hole.
#[tactic(auto, unfolding(crate::specs::Lines::hole_line))]
fn push_hole(text: &mut Vec<u8>, hole: Hole) -> Result<(), AllocError>
    ensures { OnOk result (text.new.items ≡ text.old.items ++ hole_line hole) }
{
    text.extend_from_slice(b"missing ")?;
    push_number(text, u64::from(hole.first))?;
    text.push(b'-')?;
    push_number(text, u64::from(hole.last))?;
    text.push(b'\n')?;
    Ok(())
}

/// Appends the lines of holes.
fn push_holes(text: &mut Vec<u8>, holes: &[Hole]) -> Result<(), AllocError>
    ensures { OnOk result (text.new.items ≡ text.old.items ++ holes_text holes.now) }
{
    for hole in holes {
        push_hole(text, *hole)?;
    }
    Ok(())
}

/// Appends the lines of the holes of an epoch; tells whether it has none.
fn push_holes_in(text: &mut Vec<u8>, course: &Course) -> Result<bool, AllocError>
    ensures text { OnOk result
        (text.new.items ≡ text.old.items ++ holes_text (holes_in course.now)) }
    ensures whole { IfOk result (λ whole. whole ≡ is_none_of (holes_in course.now)) }
{
    let Some(tally) = &course.tally else {
        return Ok(true);
    };
    let front = front_hole(course.begun.number, tally.first);
    if let Some(hole) = front {
        push_hole(text, hole)?;
    }
    push_holes(text, tally.holes.as_slice())?;
    Ok(front.is_none() && tally.holes.is_empty())
}

/// Appends what is told of an epoch of the log with this name; tells whether nothing is missing.
fn push_course(
    text: &mut Vec<u8>,
    name: &[u8],
    courses: &[Course],
    course: &Course,
) -> Result<bool, AllocError>
    ensures text { OnOk result
        (text.new.items ≡ text.old.items ++ course_text name.now courses.now course.now) }
    ensures whole { IfOk result (λ whole. whole ≡ is_complete courses.now course.now) }
{
    let gone = is_gone(courses, course);
    push_lost(text, name, courses, course)?;
    push_epoch(text, name, gone, course)?;
    let whole = push_holes_in(text, course)?;
    Ok(!has_lost(courses, course) && !gone && whole)
}

/// The same, if it is an epoch of this log.
fn push_in(
    text: &mut Vec<u8>,
    name: &[u8],
    log: u32,
    courses: &[Course],
    course: &Course,
) -> Result<bool, AllocError>
    ensures text { OnOk result
        (text.new.items ≡ text.old.items ++ text_in name.now log courses.now course.now) }
    ensures whole { IfOk result (λ whole. whole ≡ is_whole log courses.now course.now) }
{
    if log_of(course.begun.id) == log {
        return push_course(text, name, courses, course);
    }
    Ok(true)
}

/// Appends the lines of the epochs of a log, and tells whether nothing is missing.
fn push_log(
    text: &mut Vec<u8>,
    name: &[u8],
    log: u32,
    courses: &[Course],
) -> Result<bool, AllocError>
    ensures text { OnOk result
        (text.new.items ≡ text.old.items ++ log_text name.now log courses.now) }
    ensures whole { IfOk result (λ whole. whole ≡ are_whole log courses.now) }
{
    let mut whole = true;
    for course in courses {
        let so = push_in(text, name, log, courses, course)?;
        whole = whole & so;
    }
    Ok(whole)
}

/// Appends where a device is.
#[tactic(auto, unfolding(crate::specs::Lines::place_text))]
fn push_place(text: &mut Vec<u8>, device: &DeviceRow) -> Result<(), AllocError>
    ensures { OnOk result (text.new.items ≡ text.old.items ++ place_text device.now) }
{
    text.extend_from_slice(device.address.as_bytes())?;
    if device.dnet == 0 {
        return Ok(());
    }
    text.push(b'/')?;
    push_number(text, u64::from(device.dnet))?;
    text.push(b'/')?;
    text.extend_from_slice(device.dadr.as_bytes())
}

/// The same, if it is the device with this id.
fn push_place_if(text: &mut Vec<u8>, id: u16, device: &DeviceRow) -> Result<(), AllocError>
    ensures { OnOk result (text.new.items ≡ text.old.items ++ place_if id device.now) }
{
    if device.id == id {
        return push_place(text, device);
    }
    Ok(())
}

/// Appends where the device with this id is: nothing, if it has no row.
fn push_place_of(text: &mut Vec<u8>, id: u16, devices: &[DeviceRow]) -> Result<(), AllocError>
    ensures { OnOk result
        (text.new.items ≡ text.old.items ++ flat_map (place_if id) devices.now) }
{
    for device in devices {
        push_place_if(text, id, device)?;
    }
    Ok(())
}

/// Appends the name of a log: its device's address and its instance.
#[tactic(auto, unfolding(crate::specs::Lines::name_text))]
fn push_name(text: &mut Vec<u8>, devices: &[DeviceRow], log: &LogRow) -> Result<(), AllocError>
    ensures { OnOk result (text.new.items ≡ text.old.items ++ name_text devices.now log.now) }
{
    push_place_of(text, log.device, devices)?;
    text.extend_from_slice(b" ")?;
    push_number(text, u64::from(log.instance))
}

/// Appends the lines of a log; answers whether nothing of it is missing.
fn push_one(
    alloc: Global,
    text: &mut Vec<u8>,
    counts: &Counts,
    log: &LogRow,
) -> Result<bool, AllocError>
    ensures text { OnOk result (text.new.items ≡ text.old.items ++ lines_of counts.now log.now) }
    ensures whole { IfOk result
        (λ whole. whole ≡ is_all_there counts.now log.now) }
{
    let mut name = Vec::new(alloc);
    push_name(&mut name, counts.devices.as_slice(), log)?;
    push_log(
        text,
        name.as_slice(),
        u32::from(log.id),
        counts.courses.as_slice(),
    )
}

/// Appends the lines of each of these logs; answers whether nothing is missing.
fn push_each(
    alloc: Global,
    text: &mut Vec<u8>,
    counts: &Counts,
    logs: &[LogRow],
) -> Result<bool, AllocError>
    ensures text { OnOk result
        (text.new.items ≡ text.old.items ++ flat_map (lines_of counts.now) logs.now) }
    ensures whole { IfOk result (λ whole. whole ≡ list_all (is_all_there counts.now) logs.now) }
{
    let mut whole = true;
    for log in logs {
        let so = push_one(alloc, text, counts, log)?;
        whole = whole & so;
    }
    Ok(whole)
}

/// The same of each log.
pub(crate) fn push_all(
    alloc: Global,
    text: &mut Vec<u8>,
    counts: &Counts,
) -> Result<bool, AllocError>
    ensures text { OnOk result (text.new.items ≡ text.old.items ++ check_text counts.now) }
    ensures whole { IfOk result (λ whole. whole ≡ has_all counts.now) }
{
    push_each(alloc, text, counts, counts.logs.as_slice())
}
