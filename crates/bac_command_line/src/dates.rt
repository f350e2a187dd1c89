//! How much of a trend log `bac kept` prints: the records of a period, or the newest one.

ghost use Rattle.std.specs.Prelude.{◌≡◌};
ghost use Rattle.clap.specs.Words.{rows_of, found_of};
ghost use Rattle.bac_command_line.specs.Dates.{extent_at, extent_of, fits, is_front};
ghost use Rattle.bac_command_line.specs.Dates.{is_stamp_front};
ghost use Rattle.bac_command_line.specs.Dates.{stamp_at};
ghost use Rattle.bac_command_line.specs.Steps.{Makes};

use crate::fault::WordsFault;
use crate::job::{Extent, Period};
use crate::name::Name;
use crate::rows::{is_said, name_of, text};
use crate::word::Word;
use clap::ArgMatches;
use std::alloc::Global;

/// Whether an octet fits one of a form, in which `0` is any digit.
fn fits(mark: u8, octet: u8) -> bool
    ensures { result ≡ fits mark octet }
{
    if mark == b'0' {
        octet.is_ascii_digit()
    } else {
        octet == mark
    }
}

/// Whether each octet of a text fits that of a form at its place.
fn is_front(form: &[u8], text: &[u8]) -> bool
    ensures { result ≡ is_front form.now text.now }
{
    let mut rest = form;
    for octet in text {
        let [mark, marks @ ..] = rest else {
            return false;
        };
        if !fits(*mark, *octet) {
            return false;
        }
        rest = marks;
    }
    true
}

/// Whether a text is the front of a stamp, with its year at least.
fn is_stamp_front(text: &[u8]) -> bool
    ensures { result ≡ is_stamp_front text.now }
{
    text.len() >= 4 && is_front(b"0000-00-00T00:00:00.00".as_slice(), text)
}

/// The front of a stamp that an option says, if it is there.
fn stamp_at(alloc: Global, matches: &ArgMatches, word: Word) -> Result<Option<Name>, WordsFault>
    ensures { Makes (stamp_at word (rows_of (found_of matches.now))) result }
{
    let Some(text) = text(matches, word) else {
        return Ok(None);
    };
    if !is_stamp_front(text.as_bytes()) {
        return Err(WordsFault::BadValue(word));
    }
    Ok(Some(name_of(alloc, text)?))
}

/// The newest record is that of any period, so `--last` is said without one.
fn extent_of(last: bool, since: Option<Name>, until: Option<Name>) -> Result<Extent, Word>
    ensures { result ≡ extent_of last since until }
{
    if !last {
        return Ok(Extent::Dated(Period { since, until }));
    }
    if since.is_some() || until.is_some() {
        return Err(Word::Last);
    }
    Ok(Extent::Newest)
}

/// How much of each log is printed.
pub(crate) fn extent_at(alloc: Global, matches: &ArgMatches) -> Result<Extent, WordsFault>
    ensures { Makes (extent_at (rows_of (found_of matches.now))) result }
{
    let since = stamp_at(alloc, matches, Word::Since)?;
    let until = stamp_at(alloc, matches, Word::Until)?;
    Ok(extent_of(is_said(matches, Word::Last), since, until)?)
}
