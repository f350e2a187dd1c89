//! An archive is opened, and told.

ghost use Rattle.std.specs.Prelude.{◌≡◌, IfErr, IfOk, OnErr, OnOk};
ghost use Rattle.sqlite.specs.Held.{state};
ghost use Rattle.sqlite.specs.State.{HasCleanDisk, Survives};
ghost use Rattle.bac_archive.specs.Schema.{HasArchive};
ghost use Rattle.bac_drive.specs.Happens.{StaysSettled};
ghost use Rattle.bac_keeping.specs.Keeping.{IsOpened, IsRefused, IsTold, MayHaveMade};
ghost use Rattle.bac_keeping.specs.Parts.{HaltsOpening};

use crate::run::KeepFault;
use bac_archive::{Refused, Standing, open, stands};
use sqlite::{Alter, Connection};
use std::alloc::Global;

/// An archive is opened, or made where nothing is.
pub(crate) fn open_at<S: Alter>(conn: &mut Connection<S>, moment: &str) -> Result<(), Refused>
    ensures opened { HasCleanDisk (state S.Store conn.new)
        → OnOk result (IsOpened moment.now (state S.Store conn.old).now
        (state S.Store conn.new).now) }
    ensures archive { HasCleanDisk (state S.Store conn.new)
        → OnOk result (HasArchive (state S.Store conn.new).now.schema) }
    ensures committed { HasCleanDisk (state S.Store conn.new)
        → OnOk result ((state S.Store conn.new).committed ≡ (state S.Store conn.new).now) }
    ensures settled { StaysSettled (state S.Store conn.old) (state S.Store conn.new) result }
    ensures refused { HasCleanDisk (state S.Store conn.new)
        → IfErr result (IsRefused S.Store moment.now conn.old conn.new) }
    ensures crash { Survives (state S.Store conn.old) (state S.Store conn.new)
        (MayHaveMade moment.now (state S.Store conn.old).now) }
{
    open(conn, moment)
}

/// An archive is opened, or made where nothing is, and told.
pub(crate) fn open_told<S: Alter>(
    alloc: Global,
    conn: &mut Connection<S>,
    moment: &str,
) -> Result<Standing, KeepFault>
    ensures told { HasCleanDisk (state S.Store conn.new)
        → IfOk result (IsTold moment.now (state S.Store conn.old).now
        (state S.Store conn.new).now) }
    ensures archive { HasCleanDisk (state S.Store conn.new)
        → OnOk result (HasArchive (state S.Store conn.new).now.schema) }
    ensures committed { HasCleanDisk (state S.Store conn.new)
        → OnOk result ((state S.Store conn.new).committed ≡ (state S.Store conn.new).now) }
    ensures settled { StaysSettled (state S.Store conn.old) (state S.Store conn.new) result }
    ensures halts { HasCleanDisk (state S.Store conn.new)
        → IfErr result (HaltsOpening S.Store moment.now conn.old conn.new) }
    ensures crash { Survives (state S.Store conn.old) (state S.Store conn.new)
        (MayHaveMade moment.now (state S.Store conn.old).now) }
{
    if let Err(why) = open_at(conn, moment) {
        return Err(KeepFault::Refused(why));
    }
    match stands(alloc, conn) {
        Ok(told) => Ok(told),
        Err(error) => Err(KeepFault::Untold(error)),
    }
}
