//! Whether the rows of a part of an archive go on where those of the part before it end.

ghost use Rattle.std.specs.Prelude.{◌≡◌, IfErr, IfOk, OnOk, Some};
ghost use Rattle.std.specs.List.{list_any};
ghost use Rattle.sqlite.specs.State.{HasCleanDisk, IsUnchanged};
ghost use Rattle.sqlite.specs.Held.{state};
ghost use Rattle.bac_archive.specs.Ask.{IsAsWas};
ghost use Rattle.bac_archive.specs.Items.{IsFirst};
ghost use Rattle.bac_archive.specs.Schema.{OverArchive};
ghost use Rattle.bac_check.specs.Joins.{AreJoined, IsJoined, is_it, is_later, log_of};
ghost use Rattle.bac_check.specs.Rows.{IsUnreadable, between};
ghost use Rattle.bac_check.specs.Uncounts.{IsUncounted};

use crate::course::Course;
use crate::rows::{between, read_span};
use crate::tally::{Span, Uncounted};
use bac_archive::first_in;
use sqlite::{Alter, Connection, Row};

/// How many epochs a log has.
const EPOCHS: u32 = 32_768;

/// The log of an epoch, by its id.
pub(crate) fn log_of(id: u32) -> u32
    ensures { result ≡ log_of id }
{
    id / EPOCHS
}

/// Whether an epoch is of the same log as this one and behind it, and rows of it were counted.
fn is_later(course: &Course, id: u32) -> bool
    ensures { result ≡ is_later id course.now }
{
    log_of(course.begun.id) == log_of(id) && id < course.begun.id && course.tally.is_some()
}

/// Whether there is one.
pub(crate) fn any_later(courses: &[Course], id: u32) -> bool
    ensures { result ≡ list_any (is_later id) courses.now }
{
    courses.iter().any(|course| is_later(course, id))
}

/// Whether the row that is found is the one that was counted last.
fn is_it(row: &Row, newest: Span) -> Result<bool, Uncounted>
    ensures told { IfOk result (λ so. so ≡ is_it newest (Some row.now)) }
    ensures only { IfErr result (λ why. (e : _) × (why ≡ Uncounted.Database e)
        × IsUnreadable row.now e) }
{
    let span = read_span(row)?;
    Ok(span.end() == newest.end())
}

/// Whether the row that was counted last of an epoch is in a part, too.
fn has_newest<A: Alter>(
    conn: &mut Connection<A>,
    epoch: u32,
    newest: Span,
) -> Result<bool, Uncounted>
    ensures told { OverArchive (state A.Store conn.old) (state A.Store conn.new)
        (IfOk result (λ so. (found : _) × IsFirst (between epoch newest.number newest.number)
        ((state A.Store conn.old).now.trees 5) found × (so ≡ is_it newest found))) }
    ensures same { OverArchive (state A.Store conn.old) (state A.Store conn.new)
        (OnOk result (IsUnchanged (state A.Store conn.old) (state A.Store conn.new))) }
    ensures uncounted { OverArchive (state A.Store conn.old) (state A.Store conn.new)
        (IfErr result (IsUncounted A.Store conn.old conn.new)) }
    ensures clean { HasCleanDisk (state A.Store conn.new) → HasCleanDisk (state A.Store conn.old) }
{
    match first_in(conn, between(epoch, newest.number, newest.number)) {
        Ok(Some(row)) => is_it(&row, newest),
        Ok(None) => Ok(false),
        Err(error) => Err(Uncounted::Database(error)),
    }
}

/// Whether the log of an epoch goes on in a part, if rows of the epoch were counted.
fn is_joined<A: Alter>(
    conn: &mut Connection<A>,
    courses: &[Course],
    course: &Course,
) -> Result<bool, Uncounted>
    ensures told { OverArchive (state A.Store conn.old) (state A.Store conn.new)
        (IfOk result (IsJoined ((state A.Store conn.old).now.trees 5) courses.now course.now)) }
    ensures same { OverArchive (state A.Store conn.old) (state A.Store conn.new)
        (OnOk result (IsAsWas A.Store conn.old conn.new)) }
    ensures uncounted { OverArchive (state A.Store conn.old) (state A.Store conn.new)
        (IfErr result (IsUncounted A.Store conn.old conn.new)) }
    ensures clean { HasCleanDisk (state A.Store conn.new) → HasCleanDisk (state A.Store conn.old) }
{
    match &course.tally {
        None => Ok(true),
        Some(tally) => {
            let there = has_newest(conn, course.begun.id, tally.newest)?;
            Ok(any_later(courses, course.begun.id) || there)
        }
    }
}

/// Whether each log of which rows were counted does.
pub(crate) fn are_joined<A: Alter>(
    conn: &mut Connection<A>,
    courses: &[Course],
) -> Result<bool, Uncounted>
    ensures told { OverArchive (state A.Store conn.old) (state A.Store conn.new)
        (IfOk result (AreJoined ((state A.Store conn.old).now.trees 5) courses.now)) }
    ensures same { OverArchive (state A.Store conn.old) (state A.Store conn.new)
        (OnOk result (IsAsWas A.Store conn.old conn.new)) }
    ensures uncounted { OverArchive (state A.Store conn.old) (state A.Store conn.new)
        (IfErr result (IsUncounted A.Store conn.old conn.new)) }
    ensures clean { HasCleanDisk (state A.Store conn.new) → HasCleanDisk (state A.Store conn.old) }
{
    for course in courses {
        if !is_joined(conn, courses, course)? {
            return Ok(false);
        }
    }
    Ok(true)
}
