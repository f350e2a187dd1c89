//! Why the file of an archive is no use.

ghost use Rattle.std.specs.Prelude.{◌≡◌, Err, IfErr, IfOk, Ok};
ghost use Rattle.std.specs.String.{string_bytes};
ghost use Rattle.bac_parts.specs.Faults.{AreLinesOf, fault_status, known_reason, known_refusal};
ghost use Rattle.bac_parts.specs.Faults.{known_unopened, lines_of, obstacle_text};

use bac_archive::Refused;
use bac_files::{NotOpened, Obstacle};
use sqlite::{Error, ErrorCode};
use std::alloc::{AllocError, Global};
use std::fmt::Write;

/// Why the file of an archive is no use.
#[derive(Clone, Copy)]
pub enum FileFault {
    /// Its database isn't opened; or it is, and there is nothing in it.
    Unopened(NotOpened),
    /// Its database isn't taken as an archive.
    Refused(Refused),
    /// Its database fails, or can't be closed.
    Database(Error),
}

impl FileFault {
    /// The program's exit status: 7 if another program has the file open, else 6.
    pub fn status(self) -> u8
        ensures { result ≡ fault_status self }
    {
        match self {
            FileFault::Unopened(NotOpened::InUse) => 7,
            _ => 6,
        }
    }

    /// The lines that tell it of the file with this name.
    pub fn lines(self, alloc: Global, path: &str) -> Result<String, AllocError>
        ensures { IfOk result (λ text. AreLinesOf self path.now (string_bytes text)) }
    {
        match self.known() {
            Ok(reason) => told(alloc, self.status(), path, reason),
            Err(error) => told(alloc, self.status(), path, &said_by(alloc, error)?),
        }
    }

    /// The reason, unless it is the database's own.
    fn known<'a>(self) -> Result<&'a str, Error>
        ensures known { IfOk result (λ text. known_reason self ≡ Ok text.now) }
        ensures own { IfErr result (λ error. known_reason self ≡ Err error) }
    {
        match self {
            FileFault::Unopened(why) => known_unopened(why),
            FileFault::Refused(why) => known_refusal(why),
            FileFault::Database(error) => Err(error),
        }
    }
}

/// Why no database is opened, unless it says so itself.
fn known_unopened<'a>(why: NotOpened) -> Result<&'a str, Error>
    ensures known { IfOk result (λ text. known_unopened why ≡ Ok text.now) }
    ensures own { IfErr result (λ error. known_unopened why ≡ Err error) }
{
    match why {
        NotOpened::InUse => Ok("another program has it open"),
        NotOpened::Absent => Ok("there is no such file"),
        NotOpened::Empty => Ok("there is nothing in it"),
        NotOpened::Barred(obstacle) => Ok(obstacle_text(obstacle)),
        NotOpened::Memory => Ok("out of memory"),
        NotOpened::Database(Error::SqliteFailure(ErrorCode::NotADatabase)) => {
            Ok("it isn't a whole SQLite database")
        }
        NotOpened::Database(error) => Err(error),
    }
}

/// Why the machine doesn't open a file.
fn obstacle_text<'a>(obstacle: Obstacle) -> &'a str
    ensures { result.now ≡ obstacle_text obstacle }
{
    match obstacle {
        Obstacle::Folder => "it is a folder",
        Obstacle::NoFolder => "there is no such folder",
        Obstacle::NotPermitted => "permission denied",
        Obstacle::TooManyOpen => "too many files are open",
    }
}

/// Why a database isn't taken as an archive, unless it failed.
fn known_refusal<'a>(why: Refused) -> Result<&'a str, Error>
    ensures known { IfOk result (λ text. known_refusal why ≡ Ok text.now) }
    ensures own { IfErr result (λ error. known_refusal why ≡ Err error) }
{
    match why {
        Refused::Foreign => Ok(
            "it isn't a bac archive, or it has an added trigger, foreign key or UNIQUE index",
        ),
        Refused::Earlier => Ok(
            "it is an archive of format 1 or 2: examples/use/convert.sh converts format 2",
        ),
        Refused::Version => Ok("it is an archive of another version"),
        Refused::Range => Ok("an id in it is out of range"),
        Refused::NoDevice => Ok("it has a trend log whose device has no row"),
        Refused::Overlap => Ok("some of its records overlap"),
        Refused::Orphan => Ok("it has records of no trend log, or of an epoch without a beginning"),
        Refused::Database(error) => Err(error),
    }
}

/// What a database's error says of itself.
fn said_by(alloc: Global, error: Error) -> Result<String, AllocError> {
    let mut text = String::new(alloc);
    if write!(text, "{error}").is_err() {
        return Err(AllocError);
    }
    Ok(text)
}

/// A first line by the status, and one with the file's name and the reason.
fn told(alloc: Global, status: u8, path: &str, reason: &str) -> Result<String, AllocError>
    ensures { IfOk result (λ text. string_bytes text ≡ lines_of status path.now reason.now) }
{
    let mut text = String::new(alloc);
    match status {
        7 => text.push_str("file in use\n")?,
        _ => text.push_str("file fault\n")?,
    }
    text.push_str(path)?;
    text.push_str(": ")?;
    text.push_str(reason)?;
    text.push_str("\n")?;
    Ok(text)
}
