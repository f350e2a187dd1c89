//! A work is done over the database in a file.

ghost use Rattle.sqlite.specs.Files.{over_files};
ghost use Rattle.sqlite_wal.specs.Files.{image_at};
ghost use Rattle.bac_parts.specs.Works.{Passage, Works, passage};

use bac_files::{DiskFiles, FileOf, NotOpened};
use sqlite::{Alter, Connection, Error, FileStore, Start};
use sqlite_disk::Disk;

/// What is done to an open database, with something beside it, as an output; `T` is what comes of
/// it.
///
/// When it can be done, and what it is, are relations that each implementor names itself.
pub trait Work<X, T> {
    /// When it can be done with this.
    ghost can_work: { Self → X → Type 0 };

    /// What it is: the work, the connection as it was opened and as it is left, what it is done
    /// with before it and behind it, what comes of it.
    ghost does: { Self → Passage → X → X → T → Type 0 };

    /// Does it.
    fn work<A: Alter>(&self, conn: &mut Connection<A>, with: &mut X) -> T
        requires { can_work self.now with.old }
        ensures { does self.now (passage A.Store conn.old conn.new) with.old with.new result };
}

/// A work that was done over an open database.
pub struct Done<T> {
    /// What came of it.
    pub came: T,
    /// Whether the database could be closed behind it.
    pub closed: Result<(), Error>,
}

/// Does the work over the database in open files. The disk is any: of a known one the prover would
/// show all that makes it a store anew.
fn work_over<D: Disk, X, T, W: Work<X, T>>(
    conn: &mut Connection<FileStore<D>>,
    work: &W,
    with: &mut X,
) -> T
    requires { W.can_work work.now with.old }
    ensures { W.does work.now (passage over_files conn.old conn.new) with.old with.new result }
{
    work.work(conn, with)
}

/// Opens the database of this name, does the work and closes it. None is made.
pub fn work_in<F: Start, X, T, W: Work<X, T>>(
    files: &mut DiskFiles<'_, F>,
    path: &str,
    work: &W,
    with: &mut X,
) -> Result<Done<T>, NotOpened>
    requires { W.can_work work.now with.old }
    ensures { Works ⟦<FileOf<F> as Disk>⟧ (image_at F.Start) (W.does work.now) path.now files.old
        files.new with.old with.new result }
{
    let mut conn = match files.open(path, false) {
        Ok(conn) => conn,
        Err(why) => return Err(why),
    };
    let came = work_over(&mut conn, work, with);
    let closed = files.close(conn);
    Ok(Done { came, closed })
}
