//! The files of a database, opened at a path: no file gets longer than the process may make one.

ghost use Rattle.std.specs.Prelude.{◌≡◌, false, IfErr, IfOk, IsTrue, true};
ghost use Rattle.sqlite.specs.Files.{image_of};
ghost use Rattle.sqlite.specs.Opening.{is_open_error};
ghost use Rattle.sqlite_std_file.specs.File.{IsFresh};
ghost use Rattle.sqlite_wal.specs.Files.{image_at};
ghost use Rattle.bac_files.specs.Files.{IsOpenedBy};
ghost use Rattle.bac_files.specs.Limited.{inner_of, most_of};

use crate::limited::Limited;
use libc::types::rlimit;
use sqlite::{Connection, Error, ErrorCode, FileFrom, FileStore, Files, Options, Start};
use sqlite_disk::Disk;
use sqlite_std_file::OpenError;
use std::hash::{BuildHasher, RandomState};
use std::io::ErrorKind;

/// RLIMIT_FSIZE of Linux: getrlimit is asked how many octets a file may have.
const FILE_SIZE: i32 = 1;

const NO_MEMORY: Error = Error::SqliteFailure(ErrorCode::OutOfMemory);

const CANNOT_OPEN: Error = Error::SqliteFailure(ErrorCode::CannotOpen);

/// A file that held what `F` says, and that gets no longer than the process may make one.
pub type FileOf<F> = Limited<FileFrom<F>>;

/// How many octets a file may have that this process writes, unless any number or it can't be told.
/// A write beyond them would end the process by a signal.
fn most_octets() -> Option<u64> {
    let mut limit = rlimit {
        rlim_cur: u64::MAX,
        rlim_max: u64::MAX,
    };
    if libc::getrlimit(FILE_SIZE, &mut limit) != 0 || limit.rlim_cur == u64::MAX {
        return None;
    }
    Some(limit.rlim_cur)
}

/// The files of the database at a path, which are made if they aren't there. Memory alone and a URI
/// are no path.
fn open_pair<F: Start>(
    rt: &HostRuntime,
    path: &str,
    start: F,
    most: Option<u64>,
) -> Result<Files<FileOf<F>>, Error>
    ensures named { IfErr result (λ error. IsTrue (is_open_error error)) }
    ensures fresh { IfOk result (λ files. IsFresh true (inner_of files.log)
        × IsFresh false (inner_of files.db)) }
    ensures limited { IfOk result (λ files. (most_of files.log ≡ most)
        × (most_of files.db ≡ most)) }
    ensures usable { IfOk result (λ files.
        IsTrue (⟦<FileOf<F> as Disk>⟧.is_usable files.log)
        × IsTrue (⟦<FileOf<F> as Disk>⟧.is_usable files.db)) }
{
    if path == ":memory:" || path.starts_with("file:") {
        return Err(CANNOT_OPEN);
    }
    match sqlite_std_file::open(rt, path, start) {
        Ok(files) => Ok(Files {
            log: Limited::new(files.log, most),
            db: Limited::new(files.db, most),
        }),
        Err(OpenError::OutOfMemory) => Err(NO_MEMORY),
        Err(OpenError::Busy) => Err(Error::SqliteFailure(ErrorCode::DatabaseBusy)),
        Err(OpenError::Io(error)) if error.kind() == ErrorKind::OutOfMemory => Err(NO_MEMORY),
        Err(_) => Err(CANNOT_OPEN),
    }
}

/// How a database is opened: its log begins with random numbers.
fn options(rt: &HostRuntime) -> Result<Options, Error>
    ensures { IfErr result (λ error. IsTrue (is_open_error error)) }
{
    match RandomState::new(rt) {
        Ok(state) => Ok(Options::new(state.hash_one(&0u8))),
        Err(_) => Err(CANNOT_OPEN),
    }
}

/// Opens the database in these files. If it can't be, they are closed. It has no clock: no
/// statement that reads or writes an archive asks for the time.
fn open_in<D: Disk + Drop>(
    rt: &HostRuntime,
    files: Files<D>,
) -> Result<Connection<FileStore<D>>, Error>
    requires log { IsTrue (D.Disk.is_usable files.log) }
    requires db { IsTrue (D.Disk.is_usable files.db) }
    ensures opened { IfOk result (IsOpenedBy (image_of D.Disk files)) }
    ensures named { IfErr result (λ error. IsTrue (is_open_error error)) }
{
    let options = match options(rt) {
        Ok(options) => options,
        Err(error) => return Err(error),
    };
    match Connection::open_files_with(rt.alloc(), files, options, false) {
        Ok(conn) => Ok(conn),
        Err((error, _)) => Err(error),
    }
}

/// Opens the database at a path, or makes it.
pub(crate) fn connect<F: Start>(
    rt: &HostRuntime,
    path: &str,
    start: F,
) -> Result<Connection<FileStore<FileOf<F>>>, Error>
    ensures opened { IfOk result (IsOpenedBy (image_at F.Start)) }
    ensures named { IfErr result (λ error. IsTrue (is_open_error error)) }
{
    match open_pair(rt, path, start, most_octets()) {
        Ok(files) => open_in(rt, files),
        Err(error) => Err(error),
    }
}
