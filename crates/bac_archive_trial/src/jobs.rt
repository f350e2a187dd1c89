//! What is done in an open database.

ghost use Rattle.std.specs.Prelude.{OnOk};
ghost use Rattle.sqlite.specs.Held.{state};
ghost use Rattle.sqlite.specs.State.{HasCleanDisk};
ghost use Rattle.bac_archive.specs.Schema.{HasArchive};

use crate::files::follow;
use crate::text::{add, failed, item, refused, standing};
use crate::why::Why;
use bac_archive::{Put, Range, Refused, first_in, items_in, open, put, stands};
use sqlite::{Alter, Connection, Error};
use std::alloc::Global;

/// When each archive is made that is made here.
const MADE: &str = "2026-11-30T00:00:00Z";

/// What is done.
#[derive(Clone, Copy)]
pub(crate) enum Job<'a> {
    Open,
    Put(&'a [Put]),
    Stands,
    Items(Range<'a>),
    First(Range<'a>),
    /// Any statements, as of another program.
    Statements(&'a str),
    /// Makes the part that follows on it.
    Follow(&'a str),
}

/// Takes it as an archive, or makes one of it.
pub(crate) fn take<S: Alter>(conn: &mut Connection<S>) -> Result<(), Refused>
    ensures { HasCleanDisk (state S.Store conn.new)
        → OnOk result (HasArchive (state S.Store conn.new).now.schema) }
{
    open(conn, MADE)
}

/// What stands in it.
fn stood<S: Alter>(alloc: Global, conn: &mut Connection<S>) -> Result<String, Why> {
    match take(conn) {
        Ok(()) => match stands(alloc, conn) {
            Ok(told) => standing(alloc, &told),
            Err(error) => failed(alloc, error),
        },
        Err(why) => refused(alloc, why),
    }
}

/// The items of a range, a line each.
fn items<S: Alter>(
    alloc: Global,
    conn: &mut Connection<S>,
    range: Range<'_>,
) -> Result<String, Error> {
    let mut text = String::new(alloc);
    let mut rows = items_in(conn, range)?;
    for _ in 0..u64::MAX {
        let Some(row) = rows.next()? else {
            return Ok(text);
        };
        text.push_str(item(alloc, row)?.as_str())?;
    }
    Ok(text)
}

/// The first item of a range.
fn first<S: Alter>(
    alloc: Global,
    conn: &mut Connection<S>,
    range: Range<'_>,
) -> Result<String, Error> {
    match first_in(conn, range)? {
        Some(row) => item(alloc, &row),
        None => Ok(String::from_str(alloc, "none")?),
    }
}

/// The text, or what the database says.
fn or_failed(alloc: Global, told: Result<String, Error>) -> Result<String, Why> {
    match told {
        Ok(text) => Ok(text),
        Err(error) => failed(alloc, error),
    }
}

/// This text, if it was done.
fn said(alloc: Global, text: &str, done: Result<(), Error>) -> Result<String, Why> {
    match done {
        Ok(()) => Ok(String::from_str(alloc, text)?),
        Err(error) => failed(alloc, error),
    }
}

/// Does it, and tells what came.
pub(crate) fn done<S: Alter>(
    rt: &HostRuntime,
    conn: &mut Connection<S>,
    job: Job<'_>,
) -> Result<String, Why> {
    let alloc = rt.alloc();
    match job {
        Job::Open => match take(conn) {
            Ok(()) => Ok(String::from_str(alloc, "an archive")?),
            Err(why) => refused(alloc, why),
        },
        Job::Put(batch) => said(alloc, "put", put(conn, batch)),
        Job::Stands => stood(alloc, conn),
        Job::Items(range) => or_failed(alloc, items(alloc, conn, range)),
        Job::First(range) => or_failed(alloc, first(alloc, conn, range)),
        Job::Statements(text) => said(alloc, "done", conn.execute_batch(text)),
        Job::Follow(part) => follow(rt, part, conn),
    }
}

/// What stands in it, and all its items.
pub(crate) fn all_of<S: Alter>(alloc: Global, conn: &mut Connection<S>) -> Result<String, Why> {
    let mut text = stood(alloc, conn)?;
    let range = Range::Oldest {
        first: 0,
        last: i64::MAX,
    };
    add(
        &mut text,
        or_failed(alloc, items(alloc, conn, range))?.as_str(),
    )?;
    Ok(text)
}
