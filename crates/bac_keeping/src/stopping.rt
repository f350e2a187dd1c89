//! What words name is stopped.

ghost use Rattle.std.specs.Prelude.{IfErr, IfOk};
ghost use Rattle.sqlite.specs.Held.{state};
ghost use Rattle.sqlite.specs.State.{HasCleanDisk, Survives};
ghost use Rattle.bac_archive.specs.Schema.{HasArchive};
ghost use Rattle.bac_archive.specs.Stands.{StandsAs};
ghost use Rattle.bac_drive.specs.Happens.{StaysSettled};
ghost use Rattle.bac_keeping.specs.Stopping.{HaltsStopping, IsStopped, MayHaveStopped};
ghost use Rattle.bac_keeping.specs.Stopping.{StopsNothing};

use crate::opening::open_at;
use bac_archive::{Put, Refused, Standing, is_nothing, put, stands};
use bac_plan::{Named, StopFault, rows_stopped};
use sqlite::{Alter, Connection, Error};
use std::alloc::Global;

/// What was stopped.
#[derive(Drop)]
pub struct Stopped {
    /// What the archive told before: the devices and logs that the rows are of.
    pub told: Standing,
    /// The rows that were put: of devices, and then of logs, each stopped now and not before.
    pub rows: Vec<Put>,
}

/// Why nothing is stopped.
#[derive(Clone, Copy, Debug, PartialEq, Eq)]
pub enum StopHalt {
    /// The database has nothing: no archive is made of it.
    Nothing,
    /// It isn't opened as an archive.
    Refused(Refused),
    /// The archive doesn't tell how it stands.
    Untold(Error),
    /// What words name isn't on record.
    Missing(StopFault),
    /// The rows aren't put.
    Unput(Error),
}

// What words name is stopped, where an archive tells this.
fn stop_told<S: Alter>(
    alloc: Global,
    conn: &mut Connection<S>,
    named: &[Named],
    told: Standing,
) -> Result<Stopped, StopHalt>
    requires archive { HasCleanDisk (state S.Store conn.old)
        → HasArchive (state S.Store conn.old).now.schema }
    requires told { HasCleanDisk (state S.Store conn.old)
        → StandsAs (state S.Store conn.old).now.trees told }
    ensures all { HasCleanDisk (state S.Store conn.new)
        → IfOk result (λ stopped. IsStopped named.now stopped (state S.Store conn.old).now
        (state S.Store conn.new).now) }
    ensures neither { HasCleanDisk (state S.Store conn.new)
        → IfErr result (HaltsStopping S.Store named.now conn.old conn.new) }
    ensures settled { StaysSettled (state S.Store conn.old) (state S.Store conn.new) result }
    ensures crash { Survives (state S.Store conn.old) (state S.Store conn.new)
        (MayHaveStopped named.now (state S.Store conn.old).now) }
{
    match rows_stopped(alloc, &told, named) {
        Ok(rows) => match put(conn, rows.as_slice()) {
            Ok(()) => Ok(Stopped { told, rows }),
            Err(error) => Err(StopHalt::Unput(error)),
        },
        Err(why) => Err(StopHalt::Missing(why)),
    }
}

/// What words name isn't asked any more: the logs that they name for themselves, and a device that
/// they name whole, with all of its logs. All of it is put in one transaction. If one of them isn't
/// on record, or the database has nothing, it is left as it is.
pub fn stop_named<S: Alter>(
    alloc: Global,
    conn: &mut Connection<S>,
    named: &[Named],
) -> Result<Stopped, StopHalt>
    // The rows are those of what words name, and nothing else is changed.
    ensures all { HasCleanDisk (state S.Store conn.new)
        → IfOk result (λ stopped. IsStopped named.now stopped (state S.Store conn.old).now
        (state S.Store conn.new).now) }
    // A fault leaves the database as it was, and says why.
    ensures neither { HasCleanDisk (state S.Store conn.new)
        → IfErr result (StopsNothing S.Store named.now conn.old conn.new) }
    // All that it put is committed; and after a fault so is all that was, if that shut nothing.
    ensures settled { StaysSettled (state S.Store conn.old) (state S.Store conn.new) result }
    // Killed at any moment, it leaves what was there, or what is stopped.
    ensures crash { Survives (state S.Store conn.old) (state S.Store conn.new)
        (MayHaveStopped named.now (state S.Store conn.old).now) }
{
    if is_nothing(conn.schema()) {
        return Err(StopHalt::Nothing);
    }
    if let Err(why) = open_at(conn, "") {
        return Err(StopHalt::Refused(why));
    }
    match stands(alloc, conn) {
        Ok(told) => stop_told(alloc, conn, named, told),
        Err(error) => Err(StopHalt::Untold(error)),
    }
}
