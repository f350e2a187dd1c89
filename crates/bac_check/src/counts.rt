//! What is counted of an archive, part by part.

ghost use Rattle.std.specs.Prelude.{◌≡◌, ◌++◌, IfErr, IfOk, OnErr, OnOk};
ghost use Rattle.std.specs.List.{AllZip};
ghost use Rattle.sqlite.specs.State.{HasCleanDisk, IsUnchanged};
ghost use Rattle.sqlite.specs.Held.{state};
ghost use Rattle.bac_archive.specs.Ask.{IsAsWas};
ghost use Rattle.bac_archive.specs.Schema.{OverArchive};
ghost use Rattle.bac_check.specs.Counted.{CountsPart, IsEmpty, with_begun};
ghost use Rattle.bac_check.specs.Rows.{CountsCourse};
ghost use Rattle.bac_check.specs.Uncounts.{IsUncounted};

use crate::course::{Beginning, Course, all_begun, count_known, count_new, unknown};
use crate::joins::are_joined;
use crate::tally::Uncounted;
use bac_archive::{DeviceRow, LogRow, read_known};
use sqlite::{Alter, Connection};
use std::alloc::{AllocError, Global};

/// What was counted of the parts of an archive that were read.
#[derive(Drop)]
pub struct Counts {
    /// The devices and the logs of the last part.
    pub devices: Vec<DeviceRow>,
    pub logs: Vec<LogRow>,
    /// The epochs of all parts.
    pub courses: Vec<Course>,
}

/// Epochs, and others behind them.
fn joined(first: Vec<Course>, more: Vec<Course>) -> Result<Vec<Course>, AllocError>
    ensures { IfOk result (λ all. all.items ≡ first.items ++ more.items) }
{
    let mut all = first;
    for course in more {
        all.push(course)?;
    }
    Ok(all)
}

/// Counts the rows of one more part with these beginnings, of each epoch.
fn count_all<A: Alter>(
    alloc: Global,
    conn: &mut Connection<A>,
    courses: &[Course],
    begun: &[Beginning],
) -> Result<Vec<Course>, Uncounted>
    ensures counted { OverArchive (state A.Store conn.old) (state A.Store conn.new)
        (IfOk result (λ new. AllZip (CountsCourse (state A.Store conn.old).now.trees)
        (with_begun courses.now begun.now) new.items)) }
    ensures same { OverArchive (state A.Store conn.old) (state A.Store conn.new)
        (OnOk result (IsAsWas A.Store conn.old conn.new)) }
    ensures uncounted { OverArchive (state A.Store conn.old) (state A.Store conn.new)
        (IfErr result (IsUncounted A.Store conn.old conn.new)) }
    ensures clean { HasCleanDisk (state A.Store conn.new) → HasCleanDisk (state A.Store conn.old) }
{
    let counted = count_known(alloc, conn, courses, begun)?;
    let new = unknown(alloc, courses, begun)?;
    let more = count_new(alloc, conn, new.as_slice())?;
    let all = joined(counted, more)?;
    Ok(all)
}

impl Counts {
    /// Nothing is counted yet.
    pub fn new(alloc: Global) -> Counts
        ensures { IsEmpty result }
    {
        Counts {
            devices: Vec::new(alloc),
            logs: Vec::new(alloc),
            courses: Vec::new(alloc),
        }
    }

    /// Counts the rows of one more part, and tells whether its logs go on where what was counted
    /// of them ends. Where they aren't counted, nothing of them is: what was counted of the parts
    /// before stays, and so does the part.
    pub fn count<A: Alter>(
        &mut self,
        alloc: Global,
        conn: &mut Connection<A>,
    ) -> Result<bool, Uncounted>
        ensures counted { OverArchive (state A.Store conn.old) (state A.Store conn.new)
            (IfOk result (CountsPart (state A.Store conn.old).now.trees self.old self.new)) }
        ensures dropped { OnErr result (self.new ≡ self.old) }
        ensures same { OverArchive (state A.Store conn.old) (state A.Store conn.new)
            (OnOk result (IsUnchanged (state A.Store conn.old) (state A.Store conn.new))) }
        ensures uncounted { OverArchive (state A.Store conn.old) (state A.Store conn.new)
            (IfErr result (IsUncounted A.Store conn.old conn.new)) }
        ensures clean { HasCleanDisk (state A.Store conn.new)
            → HasCleanDisk (state A.Store conn.old) }
    {
        let known = read_known(alloc, conn)?;
        let begun = all_begun(alloc, known.beginnings.as_slice())?;
        let joined = are_joined(conn, self.courses.as_slice())?;
        let courses = count_all(alloc, conn, self.courses.as_slice(), begun.as_slice())?;
        *self = Counts {
            devices: known.devices,
            logs: known.logs,
            courses,
        };
        Ok(joined)
    }
}
