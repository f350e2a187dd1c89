//! A device that doesn't answer is on record behind its run; then it is stopped.

ghost use Rattle.std.specs.Prelude.{OnOk};
ghost use Rattle.sqlite.specs.Held.{state};
ghost use Rattle.sqlite.specs.State.{HasCleanDisk};
ghost use Rattle.bac_archive.specs.Schema.{HasArchive};

use crate::ports::{Refusing, Ticks};
use bac_archive::{Standing, open, stands};
use bac_device_poller::Status;
use bac_keeping::{Run, StopHalt, keep_site, stop_named};
use bac_plan::{Choice, Named, Options, StopFault};
use bac_site_poller::Limits;
use bac_walk::Count;
use bac_wire::Stamp;
use sqlite::{Alter, Connection, MemStore};
use std::alloc::{AllocError, Global};
use std::test::Fail;

fn options() -> Result<Options, Fail> {
    let records = Count::new(100).ok_or("no count")?;
    let begun = Stamp::new(2026, 11, 30, 1, 0, 0, 0).ok_or("no moment")?;
    Ok(Options {
        limits: Limits::new(64, 4, 1024, 3000),
        records,
        steps: None,
        retries: 1,
        clocks: false,
        begun,
    })
}

fn named(alloc: Global, address: &str, choice: Choice) -> Result<Vec<Named>, AllocError> {
    let mut all = Vec::new(alloc);
    all.push(Named {
        address: String::from_str(alloc, address)?,
        dnet: 0,
        dadr: String::new(alloc),
        choice,
    })?;
    Ok(all)
}

fn run(alloc: Global, named: Vec<Named>) -> Result<Run, Fail> {
    Ok(Run {
        moment: String::from_str(alloc, "2026-11-30T00:00:00Z")?,
        named,
        options: options()?,
    })
}

/// Opens the archive that is there.
fn open_at<S: Alter>(conn: &mut Connection<S>) -> Result<(), Fail>
    ensures archive { HasCleanDisk (state S.Store conn.new)
        → OnOk result (HasArchive (state S.Store conn.new).now.schema) }
{
    match open(conn, "") {
        Ok(()) => Ok(()),
        Err(_) => Err(Fail::from("no archive")),
    }
}

/// What is told of an archive.
fn told<S: Alter>(alloc: Global, conn: &mut Connection<S>) -> Result<Standing, Fail> {
    open_at(conn)?;
    match stands(alloc, conn) {
        Ok(told) => Ok(told),
        Err(_) => Err(Fail::from("not told")),
    }
}

/// A run over such a port, and its status.
fn kept(
    alloc: Global,
    conn: &mut Connection<MemStore>,
    run: &Run,
    port: &mut Refusing,
    lines: &mut Vec<u8>,
) -> Result<Status, Fail> {
    let mut clock = Ticks { ms: 0 };
    let mut errors = Vec::new(alloc);
    match keep_site(alloc, run, port, &mut clock, conn, lines, &mut errors) {
        Ok(status) => {
            lines.append(&mut errors)?;
            Ok(status)
        }
        Err(_) => Err(Fail::from("halted")),
    }
}

#[test]
fn what_is_named_is_kept_and_stopped(rt: HostRuntime) -> Result<(), Fail> {
    let alloc = rt.alloc();
    let mut conn = Connection::open_in_memory(alloc)?;
    let mut instances = Vec::new(alloc);
    instances.push(5)?;
    let words = named(alloc, "10.0.0.1:47808", Choice::Logs(instances))?;
    // No archive is made of a database that has nothing.
    let none = stop_named(alloc, &mut conn, words.as_slice());
    assert!(rt; none.err() == Some(StopHalt::Nothing));
    assert!(rt; conn.schema().tables.is_empty());
    // A device that is silent is on record, with its log, and so it is for a run that names none.
    let mut silent = Refusing::new(false);
    let mut lines = Vec::new(alloc);
    let status = kept(
        alloc,
        &mut conn,
        &run(alloc, words)?,
        &mut silent,
        &mut lines,
    )?;
    assert!(rt; status == Status::NoReply);
    assert!(rt; silent.sends == 2);
    let on_record = told(alloc, &mut conn)?;
    assert!(rt; on_record.devices.len() == 1 && on_record.logs.len() == 1);
    assert!(rt; on_record.logs[0].instance == 5 && !on_record.logs[0].stopped);
    let mut refusing = Refusing::new(true);
    let again = run(alloc, Vec::new(alloc))?;
    let status = kept(alloc, &mut conn, &again, &mut refusing, &mut lines)?;
    assert!(rt; status == Status::Refused);
    assert!(rt; refusing.sends > 2);
    // What isn't on record isn't stopped; what is isn't asked any more.
    let other = named(alloc, "10.0.0.2:47808", Choice::Whole)?;
    let none = stop_named(alloc, &mut conn, other.as_slice());
    assert!(rt; none.err() == Some(StopHalt::Missing(StopFault::NoDevice(0))));
    let words = named(alloc, "10.0.0.1:47808", Choice::Whole)?;
    match stop_named(alloc, &mut conn, words.as_slice()) {
        Ok(stopped) => assert!(rt; stopped.rows.len() == 2),
        Err(_) => return Err(Fail::from("not stopped")),
    }
    let mut idle = Refusing::new(true);
    let status = kept(alloc, &mut conn, &again, &mut idle, &mut lines)?;
    assert!(rt; status == Status::Done);
    assert!(rt; idle.sends == 0);
    Ok(())
}
