//! What an archive has on record of devices, logs and epochs.

ghost use Rattle.std.specs.Prelude.{IfErr, IfOk, OnOk};
ghost use Rattle.sqlite_trees.specs.Tree.{Trees};
ghost use Rattle.sqlite.specs.State.{HasCleanDisk, IsUnchanged, Survives};
ghost use Rattle.sqlite.specs.Held.{state};
ghost use Rattle.bac_archive.specs.Ask.{IsLeft};
ghost use Rattle.bac_archive.specs.Known.{AreAnswersTo, FailsToKnow, HasUnreadKnown, IsKnown};
ghost use Rattle.bac_archive.specs.Schema.{HasArchive, OverArchive};

use crate::asking::{Question, rows_of, rows_of_two};
use crate::reading::{beginnings_of, devices_of, logs_of};
use crate::row::{BeginningRow, DeviceRow, LogRow};
use sqlite::{Alter, Connection, Error, Row};
use std::alloc::Global;

/// What an archive has on record but its items, each by rising ids.
#[derive(Drop)]
pub struct Known {
    pub devices: Vec<DeviceRow>,
    pub logs: Vec<LogRow>,
    /// Of each epoch of a log.
    pub beginnings: Vec<BeginningRow>,
}

/// What the rows of the tables tell; those of logs and of beginnings come by falling ids.
fn known_of(
    alloc: Global,
    devices: &[Row],
    logs: &[Row],
    beginnings: &[Row],
) -> Result<Known, Error>
    ensures known { (trees : Trees) → AreAnswersTo trees devices.now logs.now beginnings.now
        → IfOk result (IsKnown trees) }
    ensures cause { (trees : Trees) → AreAnswersTo trees devices.now logs.now beginnings.now
        → IfErr result (HasUnreadKnown trees) }
{
    let devices = devices_of(alloc, devices)?;
    let mut logs = logs_of(alloc, logs)?;
    logs.reverse();
    let mut beginnings = beginnings_of(alloc, beginnings)?;
    beginnings.reverse();
    Ok(Known {
        devices,
        logs,
        beginnings,
    })
}

/// What an archive has on record: its devices, its logs and where each epoch begins. It is asked
/// three questions, and none for items.
pub fn read_known<S: Alter>(alloc: Global, conn: &mut Connection<S>) -> Result<Known, Error>
    ensures known { OverArchive (state S.Store conn.old) (state S.Store conn.new)
        (IfOk result (IsKnown (state S.Store conn.old).now.trees)) }
    ensures same { OverArchive (state S.Store conn.old) (state S.Store conn.new)
        (OnOk result (IsUnchanged (state S.Store conn.old) (state S.Store conn.new))) }
    // An error leaves it as it was, or takes back what wasn't committed.
    ensures left { OverArchive (state S.Store conn.old) (state S.Store conn.new)
        (IsLeft (state S.Store conn.old) (state S.Store conn.new)) }
    ensures crash { (HasCleanDisk (state S.Store conn.old)
        → HasArchive (state S.Store conn.old).now.schema)
        → Survives (state S.Store conn.old) (state S.Store conn.new) (λ _. ⊥) }
    // Why it isn't told: the database gave up on one of them, or a row of theirs can't be read.
    ensures cause { OverArchive (state S.Store conn.old) (state S.Store conn.new)
        (IfErr result (FailsToKnow S.Store conn.old conn.new)) }
    ensures clean { HasCleanDisk (state S.Store conn.new) → HasCleanDisk (state S.Store conn.old) }
{
    let (devices, logs) = rows_of_two(conn, Question::Devices, Question::Logs)?;
    let beginnings = rows_of(conn, Question::Beginnings)?;
    known_of(
        alloc,
        devices.as_slice(),
        logs.as_slice(),
        beginnings.as_slice(),
    )
}
