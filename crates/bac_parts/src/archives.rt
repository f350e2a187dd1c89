//! A database file is opened, taken as an archive, and closed.

ghost use Rattle.std.specs.Prelude.{◌≡◌, [], Err, IfErr, IfOk, IsTrue, Ok, OnErr, OnOk};
ghost use Rattle.sqlite.specs.Held.{state};
ghost use Rattle.sqlite.specs.State.{HasCleanDisk, IsUnchanged, Survives};
ghost use Rattle.sqlite_wal.specs.Files.{image_at};
ghost use Rattle.bac_archive.specs.Archive.{IsArchive};
ghost use Rattle.bac_archive.specs.Making.{IsMadeOf};
ghost use Rattle.bac_archive.specs.Schema.{OverArchive, no_schema};
ghost use Rattle.bac_files.specs.Files.{IsClosedBy, IsNamed, IsOpenedBy};
ghost use Rattle.bac_parts.specs.Archives.{EndsAs, IsAsWas, IsTakenAs, IsUnopenedAs, RefusesIt};
ghost use Rattle.bac_parts.specs.Archives.{RefusesToTake, and_shut};

use crate::fault::FileFault;
use bac_archive::{is_nothing, open};
use bac_files::{DiskFiles, FileOf, NotOpened};
use sqlite::{Alter, Connection, Error, FileStore, Start};

/// Opens the database of this name; an empty or absent one is made, where it may.
pub fn open_file<F: Start>(
    files: &mut DiskFiles<'_, F>,
    path: &str,
    may_make: bool,
) -> Result<Connection<FileStore<FileOf<F>>>, FileFault>
    ensures opened { IfOk result (IsOpenedBy (image_at F.Start)) }
    ensures named { OnOk result (IsNamed path.now may_make files.new) }
    ensures fault { IfErr result (IsUnopenedAs path.now may_make files.new) }
    ensures kept { (files.new.closed ≡ files.old.closed)
        × (files.new.unclosed ≡ files.old.unclosed) }
{
    match files.open(path, may_make) {
        Ok(conn) => Ok(conn),
        Err(why) => Err(FileFault::Unopened(why)),
    }
}

/// What was done, unless it went well and its file couldn't be closed.
pub(crate) fn and_shut<T: Drop>(
    done: Result<T, FileFault>,
    closed: Result<(), Error>,
) -> Result<T, FileFault>
    ensures { result ≡ and_shut done closed }
{
    match closed {
        Ok(()) => done,
        Err(error) => match done {
            Ok(_) => Err(FileFault::Database(error)),
            Err(why) => Err(why),
        },
    }
}

/// Closes it, and hands on what was done; if it can't be closed, that is the fault of what went
/// well before.
pub fn close_file<F: Start, T: Drop>(
    files: &mut DiskFiles<'_, F>,
    conn: Connection<FileStore<FileOf<F>>>,
    done: Result<T, FileFault>,
) -> Result<T, FileFault>
    ensures ends { EndsAs conn files.old files.new done result }
    ensures named { (path : _) (may : _) → IsNamed path may files.old → IsNamed path may files.new }
{
    match files.close(conn) {
        Ok(()) => and_shut(done, Ok(())),
        Err(error) => and_shut(done, Err(error)),
    }
}

/// Opens a database as an archive; of one that has nothing an archive is made, at this moment.
pub fn open_archive<A: Alter>(conn: &mut Connection<A>, made: &str) -> Result<(), FileFault>
    ensures archive { HasCleanDisk (state A.Store conn.new)
        → OnOk result
        (IsTakenAs made.now (state A.Store conn.old).now (state A.Store conn.new).now) }
    ensures committed { HasCleanDisk (state A.Store conn.new)
        → OnOk result ((state A.Store conn.new).committed ≡ (state A.Store conn.new).now) }
    ensures same { OverArchive (state A.Store conn.old) (state A.Store conn.new)
        (OnOk result (IsUnchanged (state A.Store conn.old) (state A.Store conn.new))) }
    ensures refused { IfErr result (RefusesIt A.Store made.now conn.old conn.new) }
    // A refused one is left as it is, and a crash leaves what was there, or a new archive if there
    // was nothing.
    ensures left { HasCleanDisk (state A.Store conn.new) → IsTrue (state A.Store conn.new).is_open
        → OnErr result (IsAsWas (state A.Store conn.old) (state A.Store conn.new)) }
    ensures crash { Survives (state A.Store conn.old) (state A.Store conn.new)
        (λ trees. ((state A.Store conn.old).now.schema ≡ no_schema)
        × ((db : _) × IsMadeOf made.now db [] × (trees ≡ db.trees))) }
{
    match open(conn, made) {
        Ok(()) => Ok(()),
        Err(why) => Err(FileFault::Refused(why)),
    }
}

/// Takes a database as an archive, as it is: none is made of one that has nothing.
pub fn take_archive<A: Alter>(conn: &mut Connection<A>) -> Result<(), FileFault>
    ensures archive { HasCleanDisk (state A.Store conn.new)
        → OnOk result (IsArchive (state A.Store conn.new).now
        × IsUnchanged (state A.Store conn.old) (state A.Store conn.new)
        × ((state A.Store conn.new).committed ≡ (state A.Store conn.new).now)) }
    ensures refused { IfErr result (RefusesToTake A.Store conn.old conn.new) }
    ensures left { HasCleanDisk (state A.Store conn.new) → IsTrue (state A.Store conn.new).is_open
        → OnErr result (IsAsWas (state A.Store conn.old) (state A.Store conn.new)) }
    ensures crash { Survives (state A.Store conn.old) (state A.Store conn.new) (λ _. ⊥) }
{
    if is_nothing(conn.schema()) {
        return Err(FileFault::Unopened(NotOpened::Empty));
    }
    // There is something, so no archive is made, and no moment is put.
    open_archive(conn, "")
}
