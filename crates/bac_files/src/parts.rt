//! The databases of an archive in parts, read one after the other.

ghost use Rattle.std.specs.Prelude.{◌≡◌, ℕ, IfErr, IfOk, List, OnErr, Option};
ghost use Rattle.sqlite.specs.Held.{state};
ghost use Rattle.bac_files.specs.Parts.{AreListed, Listing, Reading, paths_of, reading};
ghost use Rattle.bac_files.specs.declared.not_opened.NotOpened.{NotOpened as Reason};

use crate::disk_files::DiskFiles;
use crate::folder::parts_of;
use crate::not_opened::NotOpened;
use sqlite::{Alter, Connection, Error, FileStore, Start, Unknown};
use sqlite_disk::Disk;
use std::io::Write;

/// Reads an open database, and writes what it makes of it.
///
/// What a read is, is a relation that each implementor names itself.
pub trait Reader {
    /// What a read is: the reader before it, the database as it was opened and as it is left
    /// (specs/Parts), the output before it and behind it, the reader behind it.
    ghost reads: { Self → Reading → Option (List ℕ) → Option (List ℕ) → Self → Type 0 };

    /// Reads a database.
    fn read<A: Alter, O: Write>(&mut self, conn: &mut Connection<A>, output: &mut O)
        ensures { reads self.old (reading (state A.Store conn.old) (state A.Store conn.new))
            (O.contents output.old) (O.contents output.new) self.new };
}

/// Opens the parts of archives to read them, and closes them.
///
/// What there is, is a relation that each implementor names itself. Of the machine's files it says
/// that those that are listed are parts of the folder, in their order, and none between is left
/// out; else nothing.
pub trait Parts {
    /// What a listing is: the parts before it, the name, the paths, the parts behind it.
    ghost lists: { Self → List ℕ → Listing → Self → Type 0 };

    /// What is found in a part and left there: the parts before a read, its path, the database, the
    /// parts behind it.
    ghost holds: { Self → List ℕ → Reading → Self → Type 0 };

    /// Why a part isn't opened: the parts before that, its path, the reason, the parts behind it.
    ghost bars: { Self → List ℕ → Reason → Self → Type 0 };

    /// From now on a part that is in use is waited for so many seconds, 3,600 at most. What is
    /// listed then is what was there to be listed before.
    fn wait_for(&mut self, seconds: u32)
        ensures { (name : List ℕ) (paths : Listing) (next : Self) → lists self.new name paths next
            → lists self.old name paths next };

    /// The paths of the parts of a folder, the oldest first; nothing, where the name is that of no
    /// folder.
    fn list(&mut self, name: &str) -> Result<Option<Vec<String>>, NotOpened>
        ensures { lists self.old name.now (paths_of result) self.new };

    /// Opens a database, which isn't made, reads it and closes it. It answers whether it could be
    /// closed, or why it isn't opened.
    fn read<R: Reader, O: Write>(
        &mut self,
        path: &str,
        reader: &mut R,
        output: &mut O,
    ) -> Result<Result<(), Error>, NotOpened>
        ensures read { IfOk result (λ closed. (found : Reading)
            × holds self.old path.now found self.new
            × R.reads reader.old found (O.contents output.old) (O.contents output.new)
            reader.new) }
        ensures barred { IfErr result (λ why. bars self.old path.now why self.new) }
        ensures unread { OnErr result ((reader.new ≡ reader.old)
            × (O.contents output.new ≡ O.contents output.old)) };
}

/// The files of the machine that a program runs on.
#[derive(Drop)]
pub struct FolderFiles<'a> {
    rt: &'a HostRuntime,
    /// How many seconds a part that is in use is waited for.
    wait: u32,
}

impl<'a> FolderFiles<'a> {
    /// The files of the machine. One that is in use isn't waited for.
    pub fn new(rt: &'a HostRuntime) -> FolderFiles<'a>
        ensures rt { result.rt ≡ rt.entry }
        ensures wait { result.wait ≡ 0 }
    {
        FolderFiles { rt, wait: 0 }
    }
}

/// Reads the database in open files. The disk is any: of a known one the prover would show all that
/// makes it a store anew.
fn read_open<D: Disk, R: Reader, O: Write>(
    conn: &mut Connection<FileStore<D>>,
    reader: &mut R,
    output: &mut O,
)
    ensures { (found : Reading) × R.reads reader.old found (O.contents output.old)
        (O.contents output.new) reader.new }
{
    reader.read(conn, output);
}

/// Opens the database of this name, reads it and closes it.
fn read_file<F: Start, R: Reader, O: Write>(
    files: &mut DiskFiles<'_, F>,
    path: &str,
    reader: &mut R,
    output: &mut O,
) -> Result<Result<(), Error>, NotOpened>
    ensures read { IfOk result (λ closed. (found : Reading) × R.reads reader.old found
        (O.contents output.old) (O.contents output.new) reader.new) }
    ensures unread { OnErr result ((reader.new ≡ reader.old)
        × (O.contents output.new ≡ O.contents output.old)) }
{
    let mut conn = files.open(path, false)?;
    read_open(&mut conn, reader, output);
    Ok(files.close(conn))
}

impl<'a> Parts for FolderFiles<'a> {
    ghost lists = { λ old name paths new. AreListed name paths };

    ghost holds = { λ old path found new. Unit {0} };

    ghost bars = { λ old path why new. Unit {0} };

    fn wait_for(&mut self, seconds: u32) {
        self.wait = seconds;
    }

    fn list(&mut self, name: &str) -> Result<Option<Vec<String>>, NotOpened> {
        parts_of(self.rt, name)
    }

    fn read<R: Reader, O: Write>(
        &mut self,
        path: &str,
        reader: &mut R,
        output: &mut O,
    ) -> Result<Result<(), Error>, NotOpened> {
        let mut files = DiskFiles::new(self.rt, Unknown);
        files.wait_for(self.wait);
        read_file(&mut files, path, reader, output)
    }
}
