//! The row of a line.

use crate::why::Why;
use crate::words::{flag, maybe_number, maybe_octets, maybe_text, number, text};
use bac_archive::{BeginningRow, DeviceRow, ItemRow, LogRow, Put, id_of};
use std::alloc::Global;
use std::str::SplitWhitespace;

/// How many epochs a log has.
const EPOCHS: u32 = 32_768;

/// ID ADDRESS DNET DADR INSTANCE NAME REVISION WHOLE STOPPED ANSWERED OFFSET
fn device(alloc: Global, words: &mut SplitWhitespace) -> Result<DeviceRow, Why> {
    let id = number::<u16>(words)?;
    let address = text(alloc, words)?;
    let dnet = number::<u16>(words)?;
    let dadr = text(alloc, words)?;
    let instance = maybe_number::<u32>(words)?;
    let name = maybe_text(alloc, words)?;
    let revision = maybe_number::<u32>(words)?;
    let whole = flag(words)?;
    let stopped = flag(words)?;
    let answered = maybe_text(alloc, words)?;
    let offset = maybe_number::<i64>(words)?;
    Ok(DeviceRow {
        id,
        address,
        dnet,
        dadr,
        instance,
        name,
        revision,
        whole,
        stopped,
        answered,
        offset,
    })
}

/// ID DEVICE INSTANCE NAME SOURCE UNITS DESCRIPTION RESTART REVISION STOPPED
fn log(alloc: Global, words: &mut SplitWhitespace) -> Result<LogRow, Why> {
    let id = number::<u16>(words)?;
    let device = number::<u16>(words)?;
    let instance = number::<u32>(words)?;
    let name = maybe_text(alloc, words)?;
    let source = maybe_text(alloc, words)?;
    let units = maybe_text(alloc, words)?;
    let description = maybe_text(alloc, words)?;
    let restart = maybe_text(alloc, words)?;
    let revision = maybe_number::<u32>(words)?;
    let stopped = flag(words)?;
    Ok(LogRow {
        id,
        device,
        instance,
        name,
        source,
        units,
        description,
        restart,
        revision,
        stopped,
    })
}

/// LOG EPOCH NUMBER WHY; the log may be out of range.
fn beginning(alloc: Global, words: &mut SplitWhitespace) -> Result<BeginningRow, Why> {
    let log = number::<u32>(words)?;
    let epoch = number::<u32>(words)?;
    let number = number::<u32>(words)?;
    let why = maybe_text(alloc, words)?;
    let id = log.wrapping_mul(EPOCHS).wrapping_add(epoch);
    Ok(BeginningRow { id, number, why })
}

/// LOG EPOCH NUMBER
fn id(words: &mut SplitWhitespace) -> Result<i64, Why> {
    let log = number::<u16>(words)?;
    let epoch = number::<u16>(words)?;
    let number = number::<u32>(words)?;
    if epoch >= 32_768 {
        return Err(Why::Line);
    }
    Ok(id_of(log, epoch, number))
}

/// LOG EPOCH NUMBER STAMP VALUE DATUM FLAGS; a value is a whole number.
fn record(alloc: Global, words: &mut SplitWhitespace) -> Result<ItemRow, Why> {
    let id = id(words)?;
    let stamp = maybe_octets(alloc, words)?;
    let value = maybe_number::<i32>(words)?;
    let datum = maybe_octets(alloc, words)?;
    let flags = maybe_octets(alloc, words)?;
    Ok(ItemRow {
        id,
        last: None,
        stamp,
        value: value.map(|n| f64::from(n)),
        datum,
        flags,
    })
}

/// LOG EPOCH FIRST LAST DATUM
fn gap(alloc: Global, words: &mut SplitWhitespace) -> Result<ItemRow, Why> {
    let id = id(words)?;
    let last = number::<u32>(words)?;
    let datum = maybe_octets(alloc, words)?;
    Ok(ItemRow {
        id,
        last: Some(last),
        stamp: None,
        value: None,
        datum,
        flags: None,
    })
}

/// The row of a line, if it has one.
pub(crate) fn row_of(
    alloc: Global,
    call: &str,
    words: &mut SplitWhitespace,
) -> Result<Option<Put>, Why> {
    Ok(Some(match call {
        "device" => Put::NewDevice(device(alloc, words)?),
        "as-device" => Put::Device(device(alloc, words)?),
        "log" => Put::NewLog(log(alloc, words)?),
        "as-log" => Put::Log(log(alloc, words)?),
        "beginning" => Put::Beginning(beginning(alloc, words)?),
        "lowered" => Put::Lowered(beginning(alloc, words)?),
        "record" => Put::Item(record(alloc, words)?),
        "gap" => Put::Item(gap(alloc, words)?),
        _ => return Ok(None),
    }))
}
