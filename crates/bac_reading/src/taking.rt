//! An open database is taken as an archive, as it is.

ghost use Rattle.std.specs.Prelude.{◌≡◌, OnErr, OnOk};
ghost use Rattle.sqlite.specs.State.{HasCleanDisk, IsUnchanged};
ghost use Rattle.sqlite.specs.Held.{state};
ghost use Rattle.bac_archive.specs.Archive.{IsArchive};
ghost use Rattle.bac_files.specs.Parts.{reading};
ghost use Rattle.bac_parts.specs.Visits.{IsAsFound};
ghost use Rattle.bac_reading.specs.Taking.{IsNotTaken};

use crate::fault::{Stop, Trouble};
use bac_parts::take_archive;
use sqlite::{Alter, Connection};

/// Takes an open database as an archive, as it is; else it is told why it is no use.
pub(crate) fn take<A: Alter>(conn: &mut Connection<A>) -> Result<(), Stop>
    ensures archive { HasCleanDisk (state A.Store conn.new)
        → OnOk result (IsArchive (state A.Store conn.old).now
        × IsUnchanged (state A.Store conn.old) (state A.Store conn.new)
        × ((state A.Store conn.new).committed ≡ (state A.Store conn.new).now)) }
    ensures refused { OnErr result
        (IsNotTaken result (reading (state A.Store conn.old) (state A.Store conn.new))) }
    ensures left { OnErr result
        (IsAsFound (reading (state A.Store conn.old) (state A.Store conn.new))) }
    ensures clean { HasCleanDisk (state A.Store conn.new) → HasCleanDisk (state A.Store conn.old) }
{
    match take_archive(conn) {
        Ok(()) => Ok(()),
        Err(why) => Err(Stop::Trouble(Trouble::File(why))),
    }
}
