//! The objects of a device, as its Object_List tells them.

ghost use Rattle.std.specs.Prelude.{◌≡◌, ◌++◌, IfOk, OnOk, map};
ghost use Rattle.std.specs.List.{list_any};
ghost use Rattle.bac_answers.specs.Listing.{are_same, count_of, is_object, may_differ};
ghost use Rattle.bac_answers.specs.Listing.{others_in, told_others};
ghost use Rattle.bac_answers.specs.declared.entry.Entry.TheVariants.{Added};

use crate::entry::{Entry, Others};
use crate::naming::is_other;
use bac_wire::ObjectId;
use std::alloc::{AllocError, Global};

/// Event Log (clause 21, BACnetObjectType).
const EVENT_LOG: u16 = 25;

/// Trend Log Multiple.
const TREND_LOG_MULTIPLE: u16 = 27;

/// Whether a device that tells this revision may have another list.
pub fn may_differ(was: Option<u32>, now: Option<u32>) -> bool
    ensures { result ≡ may_differ was now }
{
    match now {
        Some(now) => is_other(was, now),
        None => true,
    }
}

/// Whether these are the same object.
pub fn is_object(object: ObjectId, other: ObjectId) -> bool
    ensures { result ≡ is_object object other }
{
    object.kind() == other.kind() && object.instance() == other.instance()
}

/// Whether an object is one of these.
pub fn is_among(objects: &[ObjectId], object: ObjectId) -> bool
    ensures { result ≡ list_any (is_object object) objects.now }
{
    for one in objects {
        if is_object(object, *one) {
            return true;
        }
    }
    false
}

// How many of these are of a type.
fn count_of(kind: u16, objects: &[ObjectId]) -> u64
    ensures { result ≡ count_of kind objects.now }
{
    let mut count = 0;
    for object in objects {
        if object.kind() == kind {
            count += 1;
        }
    }
    count
}

/// How many objects there are among these whose records aren't kept.
pub fn others_in(objects: &[ObjectId]) -> Others
    ensures { result ≡ others_in objects.now }
{
    Others {
        multiple: count_of(TREND_LOG_MULTIPLE, objects),
        event: count_of(EVENT_LOG, objects),
    }
}

// Whether they are as many as were told.
fn are_same(was: Option<Others>, now: Others) -> bool
    ensures { result ≡ are_same was now }
{
    match was {
        Some(was) => was.multiple == now.multiple && was.event == now.event,
        None => now.multiple == 0 && now.event == 0,
    }
}

/// Tells them, where their numbers are other ones.
pub fn push_others(
    entries: &mut Vec<Entry>,
    was: Option<Others>,
    now: Others,
) -> Result<(), AllocError>
    ensures { OnOk result (entries.new.items ≡ entries.old.items ++ told_others was now) }
{
    if !are_same(was, now) {
        entries.push(Entry::Others(now))?;
    }
    Ok(())
}

/// Tells of new logs.
pub fn added(alloc: Global, logs: &[ObjectId]) -> Result<Vec<Entry>, AllocError>
    ensures { IfOk result (λ entries. entries.items ≡ map Added logs.now) }
{
    let mut entries = Vec::new(alloc);
    for log in logs {
        entries.push(Entry::Added(*log))?;
    }
    Ok(entries)
}
