//! The epochs of logs, and what is counted of each.

ghost use Rattle.std.specs.Prelude.{◌≡◌, ◌⊎◌, ◌∷◌, ◌++◌, [], IfErr, IfOk, List, OnOk, Some, map};
ghost use Rattle.std.specs.List.{AllZip, filter, list_any};
ghost use Rattle.sqlite.specs.State.{HasCleanDisk, IsUnchanged};
ghost use Rattle.sqlite.specs.Held.{state};
ghost use Rattle.bac_archive.specs.Ask.{IsAsWas};
ghost use Rattle.bac_archive.specs.Items.{AreItems};
ghost use Rattle.bac_archive.specs.Schema.{OverArchive};
ghost use Rattle.bac_check.specs.Counted.{begun_in, begun_of, course_of, has_id, is_counted};
ghost use Rattle.bac_check.specs.Counted.{is_unknown, updated, updated_by};
ghost use Rattle.bac_check.specs.Rows.{CountsCourse, is_new, items_of, span_of};
ghost use Rattle.bac_check.specs.Tallies.{IsTallied, newest_of};
ghost use Rattle.bac_check.specs.Uncounts.{FailsOnRow, IsUncounted};
ghost use Rattle.bac_check.specs.declared.tally.Span.{Span as SpanOf};

use crate::rows::{items_of, read_span};
use crate::tally::{Span, Tally, Uncounted, take};
use bac_archive::{BeginningRow, items_in};
use sqlite::{Alter, Connection, Error, ErrorCode, Row};
use std::alloc::{AllocError, Global};

/// The beginning of an epoch.
#[derive(Clone, Copy)]
pub struct Beginning {
    /// 32768 times the id of the log's row, and the epoch.
    pub id: u32,
    /// The number from which its rows are kept.
    pub number: u32,
    /// Only the log's count told that.
    pub by_count: bool,
}

/// An epoch of a log.
#[derive(Drop)]
pub struct Course {
    pub begun: Beginning,
    /// What was counted of its rows, if there are any.
    pub tally: Option<Tally>,
}

/// Whether only the log's count told where an epoch begins.
fn is_counted(why: &Option<String>) -> bool
    ensures { result ≡ is_counted why.now }
{
    match why {
        Some(why) => why.as_bytes() == "counted".as_bytes(),
        None => false,
    }
}

/// A beginning, by its row.
fn begun_of(row: &BeginningRow) -> Beginning
    ensures { result ≡ begun_of row.now }
{
    Beginning {
        id: row.id,
        number: row.number,
        by_count: is_counted(&row.why),
    }
}

/// Beginnings, by their rows.
pub(crate) fn all_begun(alloc: Global, rows: &[BeginningRow]) -> Result<Vec<Beginning>, AllocError>
    ensures { IfOk result (λ all. all.items ≡ map begun_of rows.now) }
{
    let mut all = Vec::new(alloc);
    for row in rows {
        all.push(begun_of(row))?;
    }
    Ok(all)
}

/// Whether a row lies behind another, if there is one.
fn is_new(behind: Option<Span>, span: Span) -> bool
    ensures { result ≡ is_new behind span }
{
    match behind {
        None => true,
        Some(newest) => newest.end() < span.number,
    }
}

/// Counts a row, if it lies behind the one that was counted last in the part before: others were
/// read there.
fn count_row(
    alloc: Global,
    epoch: u32,
    row: &Row,
    behind: Option<Span>,
    tally: &mut Option<Tally>,
) -> Result<(), Uncounted>
    ensures counted { (before : List SpanOf) → IsTallied before tally.old → OnOk result
        (IsTallied (before ++ filter (is_new behind) (span_of row.now ∷ [])) tally.new) }
    ensures newest { OnOk result ((tally.new ≡ tally.old)
        ⊎ (newest_of tally.new ≡ Some (span_of row.now))) }
    ensures uncounted { IfErr result (FailsOnRow epoch behind tally.old row.now) }
{
    let span = match read_span(row) {
        Ok(span) => span,
        Err(error) => return Err(Uncounted::Database(error)),
    };
    if !is_new(behind, span) {
        return Ok(());
    }
    take(alloc, epoch, tally, span)
}

/// Counts the rows of an epoch that lie behind this one.
fn count_rows<A: Alter>(
    alloc: Global,
    conn: &mut Connection<A>,
    epoch: u32,
    behind: Option<Span>,
    tally: &mut Option<Tally>,
) -> Result<(), Uncounted>
    ensures counted { OverArchive (state A.Store conn.old) (state A.Store conn.new)
        (OnOk result ((rows : List _)
        × AreItems (items_of epoch) ((state A.Store conn.old).now.trees 5) rows
        × ((before : List SpanOf) → IsTallied before tally.old
        → IsTallied (before ++ filter (is_new behind) (map span_of rows)) tally.new))) }
    ensures same { OverArchive (state A.Store conn.old) (state A.Store conn.new)
        (OnOk result (IsUnchanged (state A.Store conn.old) (state A.Store conn.new))) }
    ensures uncounted { OverArchive (state A.Store conn.old) (state A.Store conn.new)
        (behind ≡ newest_of tally.old → IfErr result (IsUncounted A.Store conn.old conn.new)) }
    ensures clean { HasCleanDisk (state A.Store conn.new) → HasCleanDisk (state A.Store conn.old) }
{
    let mut rows = match items_in(conn, items_of(epoch)) {
        Ok(rows) => rows,
        Err(error) => return Err(Uncounted::Database(error)),
    };
    'rows: for read in 0..u64::MAX {
        let row = match rows.next() {
            Ok(Some(row)) => row,
            Ok(None) => return Ok(()),
            Err(error) => return Err(Uncounted::Database(error)),
        };
        count_row(alloc, epoch, row, behind, tally)?;
    }
    Err(Uncounted::Database(Error::SqliteFailure(ErrorCode::OperationInterrupted)))
}

/// The last row of what was counted.
pub(crate) fn newest_of(tally: &Option<Tally>) -> Option<Span>
    ensures { result ≡ newest_of tally.now }
{
    match tally {
        Some(tally) => Some(tally.newest),
        None => None,
    }
}

/// What was counted, once more.
fn copied(alloc: Global, tally: &Option<Tally>) -> Result<Option<Tally>, AllocError>
    ensures counted { (spans : List SpanOf) → IsTallied spans tally.now
        → IfOk result (IsTallied spans) }
    ensures newest { IfOk result (λ copy. newest_of copy ≡ newest_of tally.now) }
{
    let Some(tally) = tally else {
        return Ok(None);
    };
    let holes = Vec::from_slice(alloc, tally.holes.as_slice())?;
    Ok(Some(Tally {
        first: tally.first,
        newest: tally.newest,
        records: tally.records,
        gaps: tally.gaps,
        gone: tally.gone,
        doubtful: tally.doubtful,
        doubted: tally.doubted,
        holes,
    }))
}

/// Counts the rows of an epoch in one more part, behind those that were counted.
fn count_on<A: Alter>(
    alloc: Global,
    conn: &mut Connection<A>,
    begun: Beginning,
    tally: &Option<Tally>,
) -> Result<Course, Uncounted>
    ensures counted { OverArchive (state A.Store conn.old) (state A.Store conn.new)
        (IfOk result (CountsCourse (state A.Store conn.old).now.trees
        (record { begun = begun; tally = tally.now }))) }
    ensures same { OverArchive (state A.Store conn.old) (state A.Store conn.new)
        (OnOk result (IsUnchanged (state A.Store conn.old) (state A.Store conn.new))) }
    ensures uncounted { OverArchive (state A.Store conn.old) (state A.Store conn.new)
        (IfErr result (IsUncounted A.Store conn.old conn.new)) }
    ensures clean { HasCleanDisk (state A.Store conn.new) → HasCleanDisk (state A.Store conn.old) }
{
    let mut counted = copied(alloc, tally)?;
    count_rows(alloc, conn, begun.id, newest_of(tally), &mut counted)?;
    Ok(Course {
        begun,
        tally: counted,
    })
}

/// The beginning with this id, if it is among these.
fn begun_in(all: &[Beginning], id: u32) -> Option<Beginning>
    ensures { result ≡ begun_in all.now id }
{
    all.iter().copied().find(|begun| begun.id == id)
}

/// An epoch's beginning as these have it, of which it may be one.
fn updated(begun: Beginning, all: &[Beginning]) -> Beginning
    ensures { result ≡ updated all.now begun }
{
    begun_in(all, begun.id).unwrap_or(begun)
}

/// Whether an epoch has this id.
fn has_id(course: &Course, id: u32) -> bool
    ensures { result ≡ has_id id course.now }
{
    course.begun.id == id
}

/// Whether one of these has.
fn any_has(courses: &[Course], id: u32) -> bool
    ensures { result ≡ list_any (has_id id) courses.now }
{
    courses.iter().any(|course| has_id(course, id))
}

/// Whether an epoch isn't among those that were counted.
fn is_unknown(courses: &[Course], begun: Beginning) -> bool
    ensures { result ≡ is_unknown courses.now begun }
{
    !any_has(courses, begun.id)
}

/// Counts the rows of one more part that has these beginnings, of each epoch that was counted.
pub(crate) fn count_known<A: Alter>(
    alloc: Global,
    conn: &mut Connection<A>,
    courses: &[Course],
    begun: &[Beginning],
) -> Result<Vec<Course>, Uncounted>
    ensures counted { OverArchive (state A.Store conn.old) (state A.Store conn.new)
        (IfOk result (λ new. AllZip (CountsCourse (state A.Store conn.old).now.trees)
        (map (updated_by begun.now) courses.now) new.items)) }
    ensures same { OverArchive (state A.Store conn.old) (state A.Store conn.new)
        (OnOk result (IsAsWas A.Store conn.old conn.new)) }
    ensures uncounted { OverArchive (state A.Store conn.old) (state A.Store conn.new)
        (IfErr result (IsUncounted A.Store conn.old conn.new)) }
    ensures clean { HasCleanDisk (state A.Store conn.new) → HasCleanDisk (state A.Store conn.old) }
{
    let mut counted = Vec::new(alloc);
    for course in courses {
        let now = count_on(alloc, conn, updated(course.begun, begun), &course.tally)?;
        counted.push(now)?;
    }
    Ok(counted)
}

/// The same of each epoch that has begun since.
pub(crate) fn count_new<A: Alter>(
    alloc: Global,
    conn: &mut Connection<A>,
    begun: &[Beginning],
) -> Result<Vec<Course>, Uncounted>
    ensures counted { OverArchive (state A.Store conn.old) (state A.Store conn.new)
        (IfOk result (λ new. AllZip (CountsCourse (state A.Store conn.old).now.trees)
        (map course_of begun.now) new.items)) }
    ensures same { OverArchive (state A.Store conn.old) (state A.Store conn.new)
        (OnOk result (IsAsWas A.Store conn.old conn.new)) }
    ensures uncounted { OverArchive (state A.Store conn.old) (state A.Store conn.new)
        (IfErr result (IsUncounted A.Store conn.old conn.new)) }
    ensures clean { HasCleanDisk (state A.Store conn.new) → HasCleanDisk (state A.Store conn.old) }
{
    let mut counted = Vec::new(alloc);
    for one in begun {
        counted.push(count_on(alloc, conn, *one, &None)?)?;
    }
    Ok(counted)
}

/// The epochs that aren't among those that were counted.
pub(crate) fn unknown(
    alloc: Global,
    courses: &[Course],
    begun: &[Beginning],
) -> Result<Vec<Beginning>, AllocError>
    ensures { IfOk result (λ new. new.items ≡ filter (is_unknown courses.now) begun.now) }
{
    let mut new = Vec::new(alloc);
    for one in begun {
        if is_unknown(courses, *one) {
            new.push(*one)?;
        }
    }
    Ok(new)
}
