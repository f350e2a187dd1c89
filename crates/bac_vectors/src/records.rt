//! Records of trend logs.

use crate::fault::Fault;
use crate::moments::date_and_time;
use crate::text::{digits, moment, none, shown};
use crate::words::{number, octets, pair, word};
use bac_log::{Datum, Entry, entry_size, read_entry, write_entry};
use bac_wire::Datagram;
use hex::FromHex;
use std::alloc::Global;
use std::str::SplitWhitespace;

pub(crate) fn answer(
    alloc: Global,
    call: &str,
    words: &mut SplitWhitespace,
) -> Option<Result<String, Fault>> {
    Some(match call {
        "read_entry" => read(alloc, words),
        "write_entry" => write(alloc, words),
        "entry_is" => kind(alloc, words),
        _ => return None,
    })
}

/// How many octets are the record at the front, and the record.
fn read(alloc: Global, words: &mut SplitWhitespace) -> Result<String, Fault> {
    let octets = octets(alloc, words)?;
    match read_entry(&octets) {
        Some((entry, used)) => {
            let entry = entry_text(alloc, &entry)?;
            Ok(format!(in alloc; "{used} {entry}")?)
        }
        None => none(alloc),
    }
}

/// Date, time, datum and flags.
pub(crate) fn entry_text(alloc: Global, entry: &Entry) -> Result<String, Fault> {
    let moment = moment(alloc, entry.date, entry.time)?;
    Ok(format!(in alloc; "{moment} {:?} {:?}", entry.datum, entry.flags)?)
}

/// The size of a record that is writable, and its octets.
fn write(alloc: Global, words: &mut SplitWhitespace) -> Result<String, Fault> {
    let entry = entry(words)?;
    if !entry.writable() {
        return Err(Fault::BadLine);
    }
    let size = entry_size(&entry);
    let mut out = Datagram::new();
    if let Err(full) = write_entry(&mut out, &entry) {
        return shown(alloc, &full);
    }
    let octets = digits(alloc, out.octets())?;
    Ok(format!(in alloc; "{size} {octets}")?)
}

fn kind(alloc: Global, words: &mut SplitWhitespace) -> Result<String, Fault> {
    let entry = entry(words)?;
    let writable = if entry.writable() {
        "writable"
    } else {
        "not writable"
    };
    let loggable = if entry.loggable() {
        "loggable"
    } else {
        "not loggable"
    };
    Ok(format!(in alloc; "{writable}, {loggable}")?)
}

/// Date and time, flags in hexadecimal digits or `-`, and the datum by its name.
pub(crate) fn entry(words: &mut SplitWhitespace) -> Result<Entry, Fault> {
    let (date, time) = date_and_time(words)?;
    let flags = flags(words)?;
    let datum = datum(words)?;
    Ok(Entry {
        date,
        time,
        datum,
        flags,
    })
}

fn flags(words: &mut SplitWhitespace) -> Result<Option<u8>, Fault> {
    match word(words)? {
        "-" => Ok(None),
        word => octet(word).map(Some),
    }
}

fn octet(word: &str) -> Result<u8, Fault> {
    match <[u8; 1] as FromHex>::from_hex(word) {
        Ok(octets) => Ok(octets[0]),
        Err(_) => Err(Fault::BadLine),
    }
}

/// The next word, which is four octets in hexadecimal digits.
fn four(words: &mut SplitWhitespace) -> Result<[u8; 4], Fault> {
    match <[u8; 4] as FromHex>::from_hex(word(words)?) {
        Ok(octets) => Ok(octets),
        Err(_) => Err(Fault::BadLine),
    }
}

fn datum(words: &mut SplitWhitespace) -> Result<Datum, Fault> {
    match word(words)? {
        "LogStatus" => octet(word(words)?).map(Datum::LogStatus),
        "Boolean" => number::<u8>(words).map(|number| Datum::Boolean(number == 1)),
        "Real4" => four(words).map(Datum::Real4),
        "Enumerated" => number::<u32>(words).map(Datum::Enumerated),
        "Unsigned" => number::<u64>(words).map(Datum::Unsigned),
        "Signed" => number::<i64>(words).map(Datum::Signed),
        "Bits" => bits(words),
        "LongBits" => number::<u32>(words).map(Datum::LongBits),
        "Null" => Ok(Datum::Null),
        "Failure" => failure(words),
        "TimeChange" => four(words).map(Datum::TimeChange),
        "Any" => number::<u32>(words).map(Datum::Any),
        _ => Err(Fault::BadLine),
    }
}

fn bits(words: &mut SplitWhitespace) -> Result<Datum, Fault> {
    let count = number::<u8>(words)?;
    let bits = u32::from_be_bytes(four(words)?);
    Ok(Datum::Bits { count, bits })
}

fn failure(words: &mut SplitWhitespace) -> Result<Datum, Fault> {
    let (class, code) = pair::<u32>(words)?;
    Ok(Datum::Failure { class, code })
}
