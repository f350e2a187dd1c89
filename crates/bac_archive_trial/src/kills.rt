//! Files in memory, and what a kill at each call on one of them leaves of a batch.
//!
//! A process that is killed leaves what it had written, and a machine that stops what was synced.
//! Either way the next run has to find what was there before the batch, or all of it; all, once the
//! batch was said to be put.

use crate::jobs::{all_of, take};
use crate::text::failed;
use crate::why::Why;
use bac_archive::{Put, Refused, put};
use sqlite::{Alter, Connection, Error, Files, Options};
use sqlite_disk::{Crash, Disk, Fuse, Memory};
use std::alloc::Global;

/// More steps than a batch of a few rows takes.
const STEPS: u64 = 10_000;

/// A file in memory with these octets, which are synced.
fn memory_of(alloc: Global, octets: &[u8]) -> Result<Memory, Why> {
    let mut memory = Memory::new(alloc);
    memory.write_at(0, octets)?;
    if memory.may_be_used() {
        memory.sync()?;
    }
    Ok(memory)
}

fn copies(alloc: Global, log: &[u8], db: &[u8]) -> Result<Files<Memory>, Why> {
    Ok(Files {
        log: memory_of(alloc, log)?,
        db: memory_of(alloc, db)?,
    })
}

/// Takes it as an archive, and puts a batch.
fn put_in<S: Alter>(conn: &mut Connection<S>, batch: &[Put]) -> Result<(), Error> {
    match take(conn) {
        Ok(()) => put(conn, batch),
        Err(Refused::Database(error)) => Err(error),
        Err(_) => Err(Error::InvalidQuery),
    }
}

/// Puts a batch into the archive of these files, and closes it; or leaves it behind an error, as a
/// process does that is killed there. What came of it, and the files.
fn put_over<D: Disk + Drop>(
    alloc: Global,
    files: Files<D>,
    batch: &[Put],
) -> (Result<(), Error>, Files<D>) {
    if !files.may_be_used() {
        return (Err(Error::InvalidQuery), files);
    }
    match Connection::open_files(alloc, files, Options::new(1)) {
        Ok(mut conn) => match put_in(&mut conn, batch) {
            Ok(()) => match conn.close_files() {
                Ok(files) => (Ok(()), files),
                Err((error, store)) => (Err(error), store.close()),
            },
            Err(error) => (Err(error), conn.into_store().close()),
        },
        Err((error, left)) => (Err(error), left.into_files()),
    }
}

/// What stands in the archive of these files.
fn stood_over<D: Disk + Drop>(alloc: Global, files: Files<D>) -> Result<String, Why> {
    if !files.may_be_used() {
        return Err(Why::File);
    }
    match Connection::open_files(alloc, files, Options::new(2)) {
        Ok(mut conn) => all_of(alloc, &mut conn),
        Err((error, _left)) => failed(alloc, error),
    }
}

/// The files of an archive with these rows.
fn base(alloc: Global, rows: &[Put]) -> Result<Files<Memory>, Why> {
    let files = copies(alloc, &[], &[])?;
    let (done, files) = put_over(alloc, files, rows);
    done?;
    Ok(files)
}

/// What stands before a batch and behind it, and what was found of each so far.
#[derive(Drop)]
struct Found {
    old: String,
    new: String,
    before: bool,
    all: bool,
    /// Something else was found.
    half: bool,
    /// What the last run that didn't end well was told.
    told: Option<Error>,
}

impl Found {
    fn of(alloc: Global, before: &[Put], batch: &[Put]) -> Result<Found, Why> {
        let old = stood_over(alloc, base(alloc, before)?)?;
        let (done, files) = put_over(alloc, base(alloc, before)?, batch);
        done?;
        let new = stood_over(alloc, files)?;
        Ok(Found {
            old,
            new,
            before: false,
            all: false,
            half: false,
            told: None,
        })
    }

    /// Notes what was found behind a run.
    fn note(&mut self, text: &str, done: Result<(), Error>) {
        if text == self.new.as_str() {
            self.all = true;
        } else if text == self.old.as_str() && done.is_err() {
            self.before = true;
        } else {
            self.half = true;
        }
        if let Err(error) = done {
            self.told = Some(error);
        }
    }

    fn text(&self) -> &'static str {
        match (self.half, self.before, self.all) {
            (true, _, _) => "something else is left",
            (false, true, true) => "as it was, or all of it",
            (false, true, false) => "as it was each time",
            (false, false, true) => "all of it each time",
            (false, false, false) => "nothing was tried",
        }
    }
}

/// What ends a run: its process is killed, or the machine stops, at a call on one of the files.
#[derive(Clone, Copy)]
pub(crate) enum End {
    KilledAtLog,
    KilledAtDatabase,
}

/// A run whose files fail from these calls on, and what is left where its process was killed, or
/// the machine stopped. Whether it ended well.
fn fused(
    alloc: Global,
    files: Files<Memory>,
    batch: &[Put],
    calls: (u64, u64),
    found: &mut Found,
) -> Result<bool, Why> {
    let files = Files {
        log: Fuse::new(files.log, calls.0),
        db: Fuse::new(files.db, calls.1),
    };
    let (done, mut files) = put_over(alloc, files, batch);
    let left = copies(alloc, files.log.inner().bytes(), files.db.inner().bytes())?;
    files.log.crash();
    files.db.crash();
    found.note(stood_over(alloc, left)?.as_str(), done);
    found.note(stood_over(alloc, files)?.as_str(), done);
    Ok(done.is_ok())
}

/// A run that is ended so, at this step.
fn ended(
    alloc: Global,
    end: End,
    step: u64,
    files: Files<Memory>,
    batch: &[Put],
    found: &mut Found,
) -> Result<bool, Why> {
    match end {
        End::KilledAtLog => fused(alloc, files, batch, (step, u64::MAX), found),
        End::KilledAtDatabase => fused(alloc, files, batch, (u64::MAX, step), found),
    }
}

/// Runs that are ended so at each step, until one ends well: what they leave, and are told.
pub(crate) fn each(alloc: Global, end: End, before: &[Put], batch: &[Put]) -> Result<String, Why> {
    let mut found = Found::of(alloc, before, batch)?;
    for step in 0..STEPS {
        let files = base(alloc, before)?;
        if ended(alloc, end, step, files, batch, &mut found)? {
            break;
        }
    }
    let left = found.text();
    match found.told {
        Some(error) => Ok(format!(in alloc; "{left}; {error}")?),
        None => Ok(format!(in alloc; "{left}")?),
    }
}
