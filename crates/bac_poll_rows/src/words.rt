//! The words of a line. `-` stands for what isn't there.

use crate::fault::Fault;
use bac_poll::{DateTime, Kept, Told};
use std::alloc::Global;
use std::str::SplitWhitespace;

/// The next word.
pub(crate) fn word<'a>(words: &mut SplitWhitespace<'a>) -> Result<&'a str, Fault> {
    match words.next() {
        Some(word) => Ok(word),
        None => Err(Fault::BadLine),
    }
}

fn number_of(word: &str) -> Result<u32, Fault> {
    match word.parse::<u32>() {
        Ok(number) => Ok(number),
        Err(_) => Err(Fault::BadLine),
    }
}

/// The next word, which is a number.
pub(crate) fn number(words: &mut SplitWhitespace) -> Result<u32, Fault> {
    number_of(word(words)?)
}

/// A number, if there is one.
pub(crate) fn maybe_number(words: &mut SplitWhitespace) -> Result<Option<u32>, Fault> {
    let word = word(words)?;
    if word == "-" {
        return Ok(None);
    }
    Ok(Some(number_of(word)?))
}

fn octets(alloc: Global, word: &str) -> Result<Vec<u8>, Fault> {
    let mut octets = Vec::new(alloc);
    if word != "-" {
        octets.extend_from_slice(word.as_bytes())?;
    }
    Ok(octets)
}

fn date_time(word: &str) -> Result<DateTime, Fault> {
    match DateTime::read(word) {
        Some(at) => Ok(at),
        None => Err(Fault::BadLine),
    }
}

/// A date and time, if there is one.
pub(crate) fn stamp(words: &mut SplitWhitespace) -> Result<Option<DateTime>, Fault> {
    let word = word(words)?;
    if word == "-" {
        return Ok(None);
    }
    Ok(Some(date_time(word)?))
}

/// A restart as it is kept, and the same as a date and time where it is one: a sequence number has
/// no colon.
pub(crate) fn restart(
    alloc: Global,
    words: &mut SplitWhitespace,
) -> Result<(Vec<u8>, DateTime), Fault> {
    let word = word(words)?;
    let moment = if word.contains(':') {
        date_time(word)?
    } else {
        DateTime::unknown()
    };
    Ok((octets(alloc, word)?, moment))
}

/// What a device tells: its restart and its revision.
pub(crate) fn told(alloc: Global, words: &mut SplitWhitespace) -> Result<Told, Fault> {
    let (restart, moment) = restart(alloc, words)?;
    let revision = maybe_number(words)?;
    Ok(Told {
        restart,
        moment,
        revision,
    })
}

/// A known record, if there is one: `NUMBER;STAMP;DATUM;FLAGS`.
pub(crate) fn kept(alloc: Global, words: &mut SplitWhitespace) -> Result<Option<Kept>, Fault> {
    let word = word(words)?;
    if word == "-" {
        return Ok(None);
    }
    let (number, rest) = parted(word)?;
    let (stamp, rest) = parted(rest)?;
    let (datum, flags) = parted(rest)?;
    Ok(Some(Kept {
        number: number_of(number)?,
        stamp: date_time(stamp)?,
        datum: octets(alloc, datum)?,
        flags: octets(alloc, flags)?,
    }))
}

fn parted(text: &str) -> Result<(&str, &str), Fault> {
    match text.split_once(';') {
        Some(parts) => Ok(parts),
        None => Err(Fault::BadLine),
    }
}
