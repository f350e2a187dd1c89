//! What words name goes on record.

ghost use Rattle.std.specs.Prelude.{IfErr, IfOk, OnOk};
ghost use Rattle.sqlite.specs.Held.{state};
ghost use Rattle.sqlite.specs.State.{HasCleanDisk, Survives};
ghost use Rattle.bac_archive.specs.Schema.{HasArchive};
ghost use Rattle.bac_archive.specs.Stands.{StandsAs};
ghost use Rattle.bac_drive.specs.Happens.{StaysSettled};
ghost use Rattle.bac_keeping.specs.Parts.{AreNamedAndTold, ArePutAndTold, HaltsNaming};
ghost use Rattle.bac_keeping.specs.Parts.{HaltsPutting, MayHaveNamed, MayHavePut};

use crate::run::KeepFault;
use bac_archive::{Put, Standing, put, stands};
use bac_plan::{Named, rows_named};
use sqlite::{Alter, Connection};
use std::alloc::Global;

// Rows are put in one transaction, and the archive is told again.
fn put_told<S: Alter>(
    alloc: Global,
    conn: &mut Connection<S>,
    puts: &[Put],
) -> Result<Standing, KeepFault>
    requires { HasCleanDisk (state S.Store conn.old)
        → HasArchive (state S.Store conn.old).now.schema }
    ensures told { HasCleanDisk (state S.Store conn.new)
        → IfOk result (ArePutAndTold puts.now (state S.Store conn.old).now
        (state S.Store conn.new).now) }
    ensures archive { HasCleanDisk (state S.Store conn.new)
        → OnOk result (HasArchive (state S.Store conn.new).now.schema) }
    ensures settled { StaysSettled (state S.Store conn.old) (state S.Store conn.new) result }
    ensures halts { HasCleanDisk (state S.Store conn.new)
        → IfErr result (HaltsPutting S.Store puts.now conn.old conn.new) }
    ensures crash { Survives (state S.Store conn.old) (state S.Store conn.new)
        (MayHavePut puts.now (state S.Store conn.old).now) }
{
    if let Err(error) = put(conn, puts) {
        return Err(KeepFault::Unput(error));
    }
    match stands(alloc, conn) {
        Ok(told) => Ok(told),
        Err(error) => Err(KeepFault::Untold(error)),
    }
}

// The same, if there are any; else it tells this still.
fn put_any<S: Alter>(
    alloc: Global,
    conn: &mut Connection<S>,
    puts: &[Put],
    told: Standing,
) -> Result<Standing, KeepFault>
    requires archive { HasCleanDisk (state S.Store conn.old)
        → HasArchive (state S.Store conn.old).now.schema }
    requires told { HasCleanDisk (state S.Store conn.old)
        → StandsAs (state S.Store conn.old).now.trees told }
    ensures told { HasCleanDisk (state S.Store conn.new)
        → IfOk result (ArePutAndTold puts.now (state S.Store conn.old).now
        (state S.Store conn.new).now) }
    ensures archive { HasCleanDisk (state S.Store conn.new)
        → OnOk result (HasArchive (state S.Store conn.new).now.schema) }
    ensures settled { StaysSettled (state S.Store conn.old) (state S.Store conn.new) result }
    ensures halts { HasCleanDisk (state S.Store conn.new)
        → IfErr result (HaltsPutting S.Store puts.now conn.old conn.new) }
    ensures crash { Survives (state S.Store conn.old) (state S.Store conn.new)
        (MayHavePut puts.now (state S.Store conn.old).now) }
{
    if puts.is_empty() {
        return Ok(told);
    }
    put_told(alloc, conn, puts)
}

/// The rows of what words name are put, where an archive tells this, and it is told again.
pub(crate) fn name_told<S: Alter>(
    alloc: Global,
    conn: &mut Connection<S>,
    named: &[Named],
    told: Standing,
) -> Result<Standing, KeepFault>
    requires archive { HasCleanDisk (state S.Store conn.old)
        → HasArchive (state S.Store conn.old).now.schema }
    requires told { HasCleanDisk (state S.Store conn.old)
        → StandsAs (state S.Store conn.old).now.trees told }
    ensures told { HasCleanDisk (state S.Store conn.new)
        → IfOk result (AreNamedAndTold named.now told (state S.Store conn.old).now
        (state S.Store conn.new).now) }
    ensures archive { HasCleanDisk (state S.Store conn.new)
        → OnOk result (HasArchive (state S.Store conn.new).now.schema) }
    ensures settled { StaysSettled (state S.Store conn.old) (state S.Store conn.new) result }
    ensures halts { HasCleanDisk (state S.Store conn.new)
        → IfErr result (HaltsNaming S.Store named.now told conn.old conn.new) }
    ensures crash { Survives (state S.Store conn.old) (state S.Store conn.new)
        (MayHaveNamed named.now told (state S.Store conn.old).now) }
{
    match rows_named(alloc, &told, named) {
        Ok(puts) => put_any(alloc, conn, puts.as_slice(), told),
        Err(why) => Err(KeepFault::Naming(why)),
    }
}
