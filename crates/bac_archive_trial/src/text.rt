//! Texts of what an archive tells.

use crate::why::Why;
use bac_archive::{ItemRow, Refused, Standing, read_item};
use sqlite::{Error, Row};
use std::alloc::{AllocError, Global};

/// How many ids a log has.
const IDS: i64 = 140_737_488_355_328;

/// A text behind another.
pub(crate) fn add(to: &mut String, text: &str) -> Result<(), Why> {
    to.push_str(text)?;
    Ok(())
}

/// What a database says.
pub(crate) fn failed(alloc: Global, error: Error) -> Result<String, Why> {
    Ok(format!(in alloc; "failed: {error}")?)
}

/// Why a database isn't taken as an archive.
pub(crate) fn refused(alloc: Global, why: Refused) -> Result<String, Why> {
    let text = match why {
        Refused::Foreign => "refused: it is no archive",
        Refused::Earlier => "refused: an earlier format",
        Refused::Version => "refused: another version",
        Refused::Range => "refused: an id is out of range",
        Refused::NoDevice => "refused: a log of no device",
        Refused::Overlap => "refused: items lie over one another",
        Refused::Orphan => "refused: an item of no log or of no beginning",
        Refused::Database(error) => return failed(alloc, error),
    };
    Ok(String::from_str(alloc, text)?)
}

fn shown(octets: &[u8]) -> &str {
    str::from_utf8(octets).unwrap_or("?")
}

fn octets(text: &Option<Vec<u8>>) -> &str {
    match text {
        Some(octets) => shown(octets.as_slice()),
        None => "-",
    }
}

fn newest(alloc: Global, row: &ItemRow) -> Result<String, AllocError> {
    format!(in alloc;
        "\n  newest {} {} {:?} {} {} {}",
        row.id / IDS,
        row.id % IDS,
        row.last,
        octets(&row.stamp),
        octets(&row.datum),
        octets(&row.flags)
    )
}

/// What stands in an archive, a line each.
pub(crate) fn standing(alloc: Global, told: &Standing) -> Result<String, Why> {
    let mut text = format!(in alloc;
        "made {}, next {} {}",
        told.made, told.next_device, told.next_log
    )?;
    for row in told.devices.iter() {
        add(&mut text, format!(in alloc; "\n  {row:?}")?.as_str())?;
    }
    for row in told.logs.iter() {
        add(&mut text, format!(in alloc; "\n  {row:?}")?.as_str())?;
    }
    for row in told.last.iter() {
        add(&mut text, format!(in alloc; "\n  {row:?}")?.as_str())?;
    }
    for row in told.newest.iter() {
        add(&mut text, newest(alloc, row)?.as_str())?;
    }
    Ok(text)
}

/// An item.
pub(crate) fn item(alloc: Global, row: &Row) -> Result<String, Error> {
    let log = row.get::<i64>(0)? / IDS;
    let item = read_item(row)?;
    Ok(format!(in alloc;
        "\n  item {log} {} {} {:?} {} {:?} {} {}",
        item.epoch,
        item.number,
        item.last,
        shown(item.stamp),
        item.value,
        shown(item.datum),
        shown(item.flags)
    )?)
}
