//! What the logs of a device are: their names, and what they log.

ghost use Rattle.std.specs.Prelude.{◌≡◌, ◌++◌, OnOk};
ghost use Rattle.bac_answers.specs.Naming.{is_changed, is_of, is_other, is_own, read_at, subject};
ghost use Rattle.bac_answers.specs.Naming.{unnamed};

use crate::entry::{Entry, Naming, Reference};
use crate::who::Who;
use bac_wire::ObjectId;
use std::alloc::AllocError;

/// Whether this is another revision than that on record.
pub(crate) fn is_other(was: Option<u32>, now: u32) -> bool
    ensures { result ≡ is_other was now }
{
    match was {
        Some(was) => was != now,
        None => true,
    }
}

/// Whether a device was changed that tells this revision.
pub fn is_changed(was: Option<u32>, now: Option<u32>) -> bool
    ensures { result ≡ is_changed was now }
{
    match now {
        Some(now) => is_other(was, now),
        None => false,
    }
}

/// Puts on record at which revision it was read.
pub fn push_read(
    entries: &mut Vec<Entry>,
    was: Option<u32>,
    now: Option<u32>,
) -> Result<(), AllocError>
    ensures { OnOk result (entries.new.items ≡ entries.old.items ++ read_at was now) }
{
    match now {
        Some(now) => {
            if is_other(was, now) {
                entries.push(Entry::Read(now))?;
            }
        }
        None => {}
    }
    Ok(())
}

/// Nothing was told of a log.
pub fn unnamed() -> Naming
    ensures { result ≡ unnamed }
{
    Naming {
        name: None,
        source: None,
        units: None,
        description: None,
    }
}

// Whether a device that is known so is this one.
fn is_of(who: &Option<Who>, device: ObjectId) -> bool
    ensures { result ≡ is_of who.now device }
{
    match who {
        Some(Who::Device(known)) => known.instance() == device.instance(),
        Some(Who::Name(_)) => false,
        Some(Who::Address) => false,
        None => false,
    }
}

// Whether what is logged is of the device itself.
fn is_own(who: &Option<Who>, device: Option<ObjectId>) -> bool
    ensures { result ≡ is_own who.now device }
{
    match device {
        Some(device) => is_of(who, device),
        None => true,
    }
}

/// The object that tells the units and the description of a log.
pub fn subject(who: &Option<Who>, log: ObjectId, source: Option<Reference>) -> ObjectId
    ensures { result ≡ subject who.now log source }
{
    match source {
        Some(source) => {
            if is_own(who, source.device) {
                source.object
            } else {
                log
            }
        }
        None => log,
    }
}
