//! A part that follows on an archive.

ghost use Rattle.std.specs.Prelude.{◌≡◌, ◌++◌, IfErr, IfOk, IsTrue, OnErr, OnOk, map, reverse};
ghost use Rattle.sqlite.specs.State.{HasCleanDisk, Survives};
ghost use Rattle.sqlite.specs.Held.{state};
ghost use Rattle.bac_archive.specs.Ask.{IsLeft};
ghost use Rattle.bac_archive.specs.Follow.{FailsToFollow, FollowsOn, PartIsArchive, puts_of};
ghost use Rattle.bac_archive.specs.Schema.{HasArchive, no_schema};
ghost use Rattle.bac_archive.specs.declared.row.Put.TheVariants.{Beginning, Item, NewDevice};
ghost use Rattle.bac_archive.specs.declared.row.Put.TheVariants.{NewLog};

use crate::making::make;
use crate::row::{BeginningRow, DeviceRow, ItemRow, LogRow, Put};
use crate::standing::{Standing, stands};
use sqlite::{Alter, Connection, Error, ErrorCode};
use std::alloc::Global;

/// Devices as new ones, behind other rows.
fn with_devices(before: Vec<Put>, devices: Vec<DeviceRow>) -> Result<Vec<Put>, Error>
    ensures puts { IfOk result (λ puts. puts.items ≡ before.items ++ map NewDevice devices.items) }
    ensures cause { IfErr result (λ e. e ≡ Error.SqliteFailure ErrorCode.OutOfMemory) }
{
    let mut puts = before;
    for device in devices {
        puts.push(Put::NewDevice(device))?;
    }
    Ok(puts)
}

/// So are logs.
fn with_logs(before: Vec<Put>, logs: Vec<LogRow>) -> Result<Vec<Put>, Error>
    ensures puts { IfOk result (λ puts. puts.items ≡ before.items ++ map NewLog logs.items) }
    ensures cause { IfErr result (λ e. e ≡ Error.SqliteFailure ErrorCode.OutOfMemory) }
{
    let mut puts = before;
    for log in logs {
        puts.push(Put::NewLog(log))?;
    }
    Ok(puts)
}

/// So are beginnings.
fn with_beginnings(before: Vec<Put>, last: Vec<BeginningRow>) -> Result<Vec<Put>, Error>
    ensures puts { IfOk result (λ puts. puts.items ≡ before.items ++ map Beginning last.items) }
    ensures cause { IfErr result (λ e. e ≡ Error.SqliteFailure ErrorCode.OutOfMemory) }
{
    let mut puts = before;
    for beginning in last {
        puts.push(Put::Beginning(beginning))?;
    }
    Ok(puts)
}

/// So are items, from the last on.
fn with_items(before: Vec<Put>, newest: Vec<ItemRow>) -> Result<Vec<Put>, Error>
    ensures puts { IfOk result
        (λ puts. puts.items ≡ before.items ++ map Item (reverse newest.items)) }
    ensures cause { IfErr result (λ e. e ≡ Error.SqliteFailure ErrorCode.OutOfMemory) }
{
    let mut puts = before;
    let mut rising = newest;
    rising.reverse();
    for item in rising {
        puts.push(Put::Item(item))?;
    }
    Ok(puts)
}

/// What an archive tells, as what is put into the part that follows on it.
pub fn puts_of(alloc: Global, told: Standing) -> Result<Vec<Put>, Error>
    ensures puts { IfOk result (λ puts. puts.items ≡ puts_of told) }
    ensures cause { IfErr result (λ e. e ≡ Error.SqliteFailure ErrorCode.OutOfMemory) }
{
    let Standing {
        devices,
        logs,
        last,
        newest,
        ..
    } = told;
    let puts = with_devices(Vec::new(alloc), devices)?;
    let puts = with_logs(puts, logs)?;
    let puts = with_beginnings(puts, last)?;
    with_items(puts, newest)
}

/// Makes of an empty database the part that follows on an archive: it is of the same moment, and
/// has the devices, the logs, each log's last beginning and the newest items behind it; all of it
/// or nothing, also over a crash. The archive is only read.
pub fn follow_on<A: Alter, B: Alter>(
    alloc: Global,
    part: &mut Connection<A>,
    archive: &mut Connection<B>,
) -> Result<(), Error>
    requires nothing { (state A.Store part.old).now.schema ≡ no_schema }
    requires archive { HasCleanDisk (state B.Store archive.old)
        → HasArchive (state B.Store archive.old).now.schema }
    ensures all { HasCleanDisk (state A.Store part.new) → HasCleanDisk (state B.Store archive.new)
        → OnOk result (FollowsOn (state B.Store archive.old).now.trees (state A.Store part.new).now
        × ((state A.Store part.new).committed ≡ (state A.Store part.new).now)) }
    ensures neither { HasCleanDisk (state A.Store part.new)
        → IsTrue (state A.Store part.new).is_open
        → OnErr result (((state A.Store part.new).now ≡ (state A.Store part.old).now)
        × ((state A.Store part.new).committed ≡ (state A.Store part.old).committed)) }
    // The archive is as it was, or what wasn't committed to it is taken back, since it failed.
    ensures left { HasCleanDisk (state B.Store archive.new)
        → IsLeft (state B.Store archive.old) (state B.Store archive.new) }
    // A crash leaves the archive as it was, and the part is there or not.
    ensures crash { Survives (state B.Store archive.old) (state B.Store archive.new) (λ _. ⊥) }
    ensures part_crash { HasCleanDisk (state B.Store archive.new)
        → Survives (state A.Store part.old) (state A.Store part.new)
        (λ trees. (db : _) × FollowsOn (state B.Store archive.old).now.trees db
        × (trees ≡ db.trees)) }
    // Why it isn't made: the archive isn't told, or what it tells isn't put.
    ensures cause { HasCleanDisk (state A.Store part.new)
        → HasCleanDisk (state B.Store archive.new) → IfErr result
        (FailsToFollow A.Store B.Store part.old archive.old archive.new) }
    ensures clean { (HasCleanDisk (state A.Store part.new) → HasCleanDisk (state A.Store part.old))
        × (HasCleanDisk (state B.Store archive.new) → HasCleanDisk (state B.Store archive.old)) }
{
    let told = stands(alloc, archive)?;
    let made = told.made.clone()?;
    let puts = puts_of(alloc, told)?;
    make(part, made.as_str(), puts.as_slice())
}

/// The part that follows on an archive is one: so it can be opened.
pub fn part_is_archive()
    ensures { PartIsArchive }
{}
