//! The files of the machine.

ghost use Rattle.std.specs.Prelude.{◌≡◌, ◌≢◌, ◌*◌, ◌+◌, ◌≤◌, IfErr, IfOk, IsTrue, None, OnErr};
ghost use Rattle.std.specs.Prelude.{OnOk};
ghost use Rattle.sqlite.specs.Closing.{IsCopied};
ghost use Rattle.sqlite.specs.Opening.{is_open_error};
ghost use Rattle.sqlite_wal.specs.Files.{image_at};
ghost use Rattle.sqlite_wal.specs.Reads.{AreClean};
ghost use Rattle.bac_files.specs.Files.{IsClosedBy, IsNamed, IsOpenedBy, IsReason, IsReasonFor};
ghost use Rattle.bac_files.specs.Files.{IsUnasked, IsUnclosed, IsUnopened, IsUnused, KeepsOthers};
ghost use Rattle.bac_files.specs.Files.{waiting};
ghost use Rattle.bac_files.specs.Parts.{IsPlaced};

use crate::folder::{Place, place_of};
use crate::not_opened::NotOpened;
use crate::obstacles::obstacle_of;
use crate::opening::{FileOf, connect};
use crate::shared::is_in_use;
use sqlite::{Connection, Error, ErrorCode, FileStore, Files, Start};
use sqlite_disk::Disk;
use std::alloc::AllocError;
use std::fs::{Files as _, exists, metadata};

/// The files of the machine that a program runs on. One database is opened of them, of which `F`
/// says what its files hold; once it is closed they are kept as it left them.
#[derive(Drop)]
pub struct DiskFiles<'a, F: Start> {
    rt: &'a HostRuntime,
    start: Option<F>,
    /// Which database was asked for, and whether it might be made.
    name: Option<String>,
    may_make: bool,
    /// How many seconds a file that is in use is waited for.
    wait: u32,
    /// How often the last one was asked whether it is in use.
    asked: u32,
    /// Why the last one that was asked for wasn't opened.
    refused: Option<NotOpened>,
    /// Why it couldn't be closed.
    unclosed: Option<Error>,
    closed: Option<Files<FileOf<F>>>,
}

/// How many octets a file has, if it is there and no folder.
fn len_of(rt: &HostRuntime, path: &str) -> Option<u64> {
    match metadata(rt, path) {
        Ok(found) if !found.is_dir() => Some(found.len()),
        _ => None,
    }
}

/// Whether a file is there, and has nothing in it; nor has the log beside it.
fn has_nothing(rt: &HostRuntime, path: &str, log: &str) -> bool {
    len_of(rt, path) == Some(0) && len_of(rt, log).unwrap_or(0) == 0
}

/// The name of the log beside a database.
fn log_of(rt: &HostRuntime, path: &str) -> Result<String, AllocError> {
    let mut name = String::from_str(rt.alloc(), path)?;
    name.push_str("-wal")?;
    Ok(name)
}

/// Takes away the empty log that a refused open left.
fn remove_empty(rt: &HostRuntime, log: &str) {
    if let Ok(found) = metadata(rt, log) {
        if found.len() == 0 {
            let _ = rt.remove_file(log);
        }
    }
}

/// Why a database isn't opened; of one that can't be, what the machine says of it and its log.
fn why(rt: &HostRuntime, path: &str, log: &str, error: Error) -> NotOpened
    ensures { IsReasonFor error result }
{
    match error {
        Error::SqliteFailure(ErrorCode::DatabaseBusy) => NotOpened::InUse,
        Error::SqliteFailure(ErrorCode::CannotOpen) => {
            match obstacle_of(rt, path, log) {
                Some(obstacle) => NotOpened::Barred(obstacle),
                None => NotOpened::Database(error),
            }
        }
        error => NotOpened::Database(error),
    }
}

/// Opens the database of this name, or makes it; a log that wasn't there isn't left by a refusal.
fn open_from<F: Start>(
    rt: &HostRuntime,
    path: &str,
    log: &str,
    start: F,
) -> Result<Connection<FileStore<FileOf<F>>>, NotOpened>
    ensures opened { IfOk result (IsOpenedBy (image_at F.Start)) }
    ensures refused { IfErr result
        (λ why. (error : Error) × IsTrue (is_open_error error) × IsReasonFor error why) }
{
    let had_log = !matches!(exists(rt, log), Ok(false));
    match connect(rt, path, start) {
        Ok(conn) => Ok(conn),
        Err(error) => {
            if !had_log {
                remove_empty(rt, log);
            }
            Err(why(rt, path, log, error))
        }
    }
}

/// Closes a database, and gives its files back; if it can't be closed, they are closed.
fn close_files<D: Disk + Drop>(conn: Connection<FileStore<D>>) -> Result<Files<D>, Error>
    ensures { IfOk result (λ files. AreClean D.Disk files.log files.db → IsCopied conn files) }
{
    match conn.close_files() {
        Ok(files) => Ok(files),
        Err((error, store)) => {
            drop(store.close());
            Err(error)
        }
    }
}

impl<'a, F: Start> DiskFiles<'a, F> {
    /// The files of the machine.
    pub fn new(rt: &'a HostRuntime, start: F) -> DiskFiles<'a, F>
        ensures unused { IsUnused result }
        ensures unasked { IsUnasked result }
    {
        DiskFiles {
            rt,
            start: Some(start),
            name: None,
            may_make: false,
            wait: 0,
            asked: 0,
            refused: None,
            unclosed: None,
            closed: None,
        }
    }

    /// From now on it waits so many seconds, 3,600 at most, for a file that is in use; without this
    /// it doesn't wait.
    pub fn wait_for(&mut self, seconds: u32)
        ensures { self.new ≡ waiting seconds self.old }
    {
        self.wait = seconds;
    }

    /// Whether another program has a file open, also behind the wait.
    fn is_in_use(&mut self, path: &str) -> bool
        ensures asked { self.new.asked ≤ 10 * self.old.wait + 1 }
        ensures others { KeepsOthers self.old self.new }
    {
        let (still, asked) = is_in_use(self.rt, path, self.wait);
        self.asked = asked;
        still
    }

    /// Where the archive of this name is kept: in the file of that name, or, if it is a folder, in
    /// its newest part, or in the next one, where that has so many octets or more. If it can't be
    /// told, that is as with a file that isn't opened.
    pub fn place(&mut self, name: &str, may_make: bool, full: u64) -> Result<Place, NotOpened>
        ensures placed { IfOk result (IsPlaced name.now) }
        ensures named { result ≢ Err NotOpened.Memory → IsNamed name.now may_make self.new }
        ensures refused { IfErr result (λ why. IsUnopened why self.new × IsReason may_make why) }
        ensures kept { (self.new.closed ≡ self.old.closed)
            × (self.new.unclosed ≡ self.old.unclosed) }
    {
        match self.try_place(name, may_make, full) {
            Ok(place) => Ok(place),
            Err(why) => {
                self.refused = Some(why);
                Err(why)
            }
        }
    }

    /// The same; why it can't be told isn't noted yet.
    fn try_place(&mut self, name: &str, may_make: bool, full: u64) -> Result<Place, NotOpened>
        ensures placed { IfOk result (IsPlaced name.now) }
        ensures named { result ≢ Err NotOpened.Memory → IsNamed name.now may_make self.new }
        ensures refused { IfErr result (IsReason may_make) }
        ensures kept { (self.new.closed ≡ self.old.closed)
            × (self.new.unclosed ≡ self.old.unclosed) }
    {
        let Ok(text) = String::from_str(self.rt.alloc(), name) else {
            return Err(NotOpened::Memory);
        };
        self.name = Some(text);
        self.may_make = may_make;
        place_of(self.rt, name, full)
    }

    /// Opens the database of this name, unless it may not be made and isn't there.
    fn try_open(
        &mut self,
        path: &str,
        may_make: bool,
    ) -> Result<Connection<FileStore<FileOf<F>>>, NotOpened>
        ensures opened { IfOk result (IsOpenedBy (image_at F.Start)) }
        ensures refused { IfErr result (IsReason may_make) }
        ensures named { result ≢ Err NotOpened.Memory → IsNamed path.now may_make self.new }
        ensures asked { self.new.asked ≤ 10 * self.old.wait + 1 }
        ensures kept { (self.new.closed ≡ self.old.closed)
            × (self.new.unclosed ≡ self.old.unclosed) × (self.new.wait ≡ self.old.wait) }
    {
        self.asked = 0;
        let Ok(name) = String::from_str(self.rt.alloc(), path) else {
            return Err(NotOpened::Memory);
        };
        let Ok(log) = log_of(self.rt, path) else {
            return Err(NotOpened::Memory);
        };
        self.name = Some(name);
        self.may_make = may_make;
        if !may_make && matches!(exists(self.rt, path), Ok(false)) {
            return Err(NotOpened::Absent);
        }
        if !may_make && has_nothing(self.rt, path, log.as_str()) {
            return Err(NotOpened::Empty);
        }
        if self.is_in_use(path) {
            return Err(NotOpened::InUse);
        }
        match self.start.take() {
            Some(start) => open_from(self.rt, path, log.as_str(), start),
            None => Err(NotOpened::Database(Error::SqliteFailure(ErrorCode::CannotOpen))),
        }
    }

    /// Opens the database of this name. Where there is no file, or one that has nothing in it, it
    /// makes one if it may. A second one isn't opened. It waits for a file that is in use.
    pub fn open(
        &mut self,
        path: &str,
        may_make: bool,
    ) -> Result<Connection<FileStore<FileOf<F>>>, NotOpened>
        ensures opened { IfOk result (IsOpenedBy (image_at F.Start)) }
        ensures named { result ≢ Err NotOpened.Memory → IsNamed path.now may_make self.new }
        ensures refused { IfErr result (λ why. IsUnopened why self.new × IsReason may_make why) }
        ensures unrefused { OnOk result (self.new.refused ≡ None) }
        // It is asked once whether the file is in use, and ten times a second of the wait at most.
        ensures asked { self.new.asked ≤ 10 * self.old.wait + 1 }
        ensures kept { (self.new.closed ≡ self.old.closed)
            × (self.new.unclosed ≡ self.old.unclosed) × (self.new.wait ≡ self.old.wait) }
    {
        match self.try_open(path, may_make) {
            Ok(conn) => {
                self.refused = None;
                Ok(conn)
            }
            Err(why) => {
                self.refused = Some(why);
                Err(why)
            }
        }
    }

    /// Closes the database.
    pub fn close(&mut self, conn: Connection<FileStore<FileOf<F>>>) -> Result<(), Error>
        ensures closed { OnOk result (IsClosedBy conn self.new.closed) }
        ensures unclosed { OnErr result (self.new.closed ≡ self.old.closed) }
        ensures failed { IfErr result (λ error. IsUnclosed error self.new) }
        ensures unfailed { OnOk result (self.new.unclosed ≡ self.old.unclosed) }
        ensures refused { self.new.refused ≡ self.old.refused }
        ensures named { (path : _) (may : _) → IsNamed path may self.old
            → IsNamed path may self.new }
    {
        match close_files(conn) {
            Ok(files) => {
                self.closed = Some(files);
                Ok(())
            }
            Err(error) => {
                self.unclosed = Some(error);
                Err(error)
            }
        }
    }
}
