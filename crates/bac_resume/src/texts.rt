//! What the texts of rows say.

ghost use Rattle.std.specs.Prelude.{◌≡◌, IfOk};
ghost use Rattle.std.specs.Str.{bytes_eq};
ghost use Rattle.sqlite_value.specs.Order.{column};
ghost use Rattle.bac_archive.specs.Items.{text_at};
ghost use Rattle.bac_archive.specs.Put.{log_columns};
ghost use Rattle.bac_poll.specs.State.{told_as};
ghost use Rattle.bac_poll.specs.Stamps.{stamp_text};
ghost use Rattle.bac_resume.specs.Texts.{IsDated, IsRead, moment_in, word_of};

use bac_archive::LogRow;
use bac_poll::{DateTime, Told};
use bac_print::push_moment;
use hex::FromHexError;
use std::alloc::{AllocError, Global};

// Whether a date and time is written so.
fn is_written(alloc: Global, at: &DateTime, text: &[u8]) -> Result<bool, AllocError>
    ensures { IfOk result (λ is. is ≡ bytes_eq (stamp_text at.now.date at.now.time) text.now) }
{
    let mut written = Vec::new(alloc);
    push_moment(&mut written, at.date, at.time)?;
    Ok(written.as_slice() == text)
}

// The date and time that is read of a text; unknown, if none is.
fn read(text: &[u8]) -> DateTime
    ensures { IsRead text.now result }
{
    match str::from_utf8(text) {
        Ok(text) => match DateTime::read(text) {
            Some(at) => at,
            None => DateTime::unknown(),
        },
        Err(_) => DateTime::unknown(),
    }
}

/// The date and time that is written so; unknown, if none is.
pub(crate) fn date_of(alloc: Global, text: &[u8]) -> Result<DateTime, AllocError>
    ensures { IfOk result (IsDated text.now) }
{
    let at = read(text);
    if is_written(alloc, &at, text)? {
        return Ok(at);
    }
    Ok(DateTime::unknown())
}

// The moment of a restart as it is kept; unknown, if it is none.
fn moment_in(alloc: Global, restart: &[u8]) -> Result<DateTime, AllocError>
    ensures { IfOk result (λ at. at ≡ moment_in restart.now) }
{
    match hex::decode(alloc, restart) {
        Ok(values) => Ok(DateTime::stamped(values.as_slice())),
        Err(FromHexError::OutOfMemory) => Err(AllocError),
        Err(_) => Ok(DateTime::unknown()),
    }
}

// The restart in the row of a log, as it is kept; no octets, if there is none.
fn restart_of(alloc: Global, log: &LogRow) -> Result<Vec<u8>, AllocError>
    ensures { IfOk result (λ restart. restart.items ≡ text_at (column (log_columns log.now) 7)) }
{
    match &log.restart {
        Some(restart) => Vec::from_slice(alloc, restart.as_bytes()),
        None => Ok(Vec::new(alloc)),
    }
}

/// The word on record in the row of a log.
pub(crate) fn word_of(alloc: Global, log: &LogRow) -> Result<Told, AllocError>
    ensures { IfOk result (λ word. told_as word ≡ word_of (log_columns log.now)) }
{
    let restart = restart_of(alloc, log)?;
    let moment = moment_in(alloc, restart.as_slice())?;
    Ok(Told {
        restart,
        moment,
        revision: log.revision,
    })
}
