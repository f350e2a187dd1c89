//! Archives in files of the machine.

use crate::jobs::{Job, done, take};
use crate::text::{failed, refused};
use crate::why::Why;
use bac_archive::{Put, follow_on, is_nothing, put};
use bac_files::DiskFiles;
use sqlite::{Alter, Connection, Unknown};
use std::alloc::Global;
use std::fs;
use std::time::Instant;

/// The octets of a file; none, if it isn't there.
fn octets(rt: &HostRuntime, file: &str) -> Vec<u8> {
    match fs::read(rt, file) {
        Ok(octets) => octets,
        Err(_) => Vec::new(rt.alloc()),
    }
}

/// Does it in a file, and tells what came, and whether the file is as it was.
pub(crate) fn do_in(rt: &HostRuntime, file: &str, job: Job<'_>) -> Result<String, Why> {
    let before = octets(rt, file);
    let (told, _took) = told_of(rt, file, job)?;
    let now = octets(rt, file);
    let kept = match before.as_slice() == now.as_slice() {
        true => "as it was",
        false => "changed",
    };
    Ok(format!(in rt.alloc(); "{file}: {told}; {kept}")?)
}

/// Does it in a file, and tells how many microseconds it took, the file being open.
pub(crate) fn timed(rt: &HostRuntime, file: &str, job: Job<'_>) -> Result<String, Why> {
    let (_told, took) = told_of(rt, file, job)?;
    Ok(format!(in rt.alloc(); "{took}")?)
}

/// Does it, and tells how many microseconds it took.
fn done_in<S: Alter>(
    rt: &HostRuntime,
    conn: &mut Connection<S>,
    job: Job<'_>,
) -> Result<(String, u128), Why> {
    let began = Instant::now(rt)?;
    let told = done(rt, conn, job)?;
    let took = began.elapsed(rt)?;
    Ok((told, took.as_micros()))
}

/// Opens a file, does it there, and closes it.
fn told_of(rt: &HostRuntime, file: &str, job: Job<'_>) -> Result<(String, u128), Why> {
    let mut files = DiskFiles::new(rt, Unknown);
    let mut conn = match files.open(file, true) {
        Ok(conn) => conn,
        Err(why) => return Err(Why::NotOpened(why)),
    };
    let told = done_in(rt, &mut conn, job);
    match files.close(conn) {
        Ok(()) => told,
        Err(error) => Err(Why::Database(error)),
    }
}

/// Puts batch after batch, and tells how many microseconds each took.
fn put_each<S: Alter>(
    rt: &HostRuntime,
    conn: &mut Connection<S>,
    batches: &[Vec<Put>],
) -> Result<String, Why> {
    let mut text = String::new(rt.alloc());
    for batch in batches {
        let began = Instant::now(rt)?;
        match put(conn, batch.as_slice()) {
            Ok(()) => {}
            Err(error) => return Err(Why::Database(error)),
        }
        write!(text, "{} ", began.elapsed(rt)?.as_micros())?;
    }
    Ok(text)
}

/// The same in a file, as one run of a program does.
pub(crate) fn timed_each(
    rt: &HostRuntime,
    file: &str,
    batches: &[Vec<Put>],
) -> Result<String, Why> {
    let mut files = DiskFiles::new(rt, Unknown);
    let mut conn = match files.open(file, true) {
        Ok(conn) => conn,
        Err(why) => return Err(Why::NotOpened(why)),
    };
    let told = put_each(rt, &mut conn, batches);
    match files.close(conn) {
        Ok(()) => told,
        Err(error) => Err(Why::Database(error)),
    }
}

/// Makes a part that follows on an archive.
fn follow_in<A: Alter, B: Alter>(
    alloc: Global,
    part: &mut Connection<A>,
    archive: &mut Connection<B>,
) -> Result<String, Why> {
    if !is_nothing(part.schema()) {
        return Ok(String::from_str(alloc, "there is a part")?);
    }
    match take(archive) {
        Ok(()) => match follow_on(alloc, part, archive) {
            Ok(()) => Ok(String::from_str(alloc, "made")?),
            Err(error) => failed(alloc, error),
        },
        Err(why) => refused(alloc, why),
    }
}

/// The same in a file that isn't there, of an open archive.
pub(crate) fn follow<B: Alter>(
    rt: &HostRuntime,
    part: &str,
    archive: &mut Connection<B>,
) -> Result<String, Why> {
    let mut files = DiskFiles::new(rt, Unknown);
    let mut conn = match files.open(part, true) {
        Ok(conn) => conn,
        Err(why) => return Err(Why::NotOpened(why)),
    };
    let told = follow_in(rt.alloc(), &mut conn, archive);
    match files.close(conn) {
        Ok(()) => told,
        Err(error) => Err(Why::Database(error)),
    }
}

/// Whether what stands in two files is the same.
pub(crate) fn is_same(rt: &HostRuntime, file: &str, other: &str) -> Result<String, Why> {
    let (here, _) = told_of(rt, file, Job::Stands)?;
    let (there, _) = told_of(rt, other, Job::Stands)?;
    let text = match here.as_str() == there.as_str() {
        true => "stand as one",
        false => "differ",
    };
    Ok(String::from_str(rt.alloc(), text)?)
}

/// Leaves so many octets of a file.
pub(crate) fn cut(rt: &HostRuntime, file: &str, most: usize) -> Result<String, Why> {
    let octets = fs::read(rt, file)?;
    let Some(left) = octets.as_slice().get(..most) else {
        return Err(Why::Line);
    };
    fs::write(rt, file, left)?;
    Ok(String::from_str(rt.alloc(), "cut")?)
}
