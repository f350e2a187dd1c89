//! The rows of an answer are read.

ghost use Rattle.std.specs.Prelude.{◌≡◌, ◌⊎◌, ℕ, pos, ◌/◌, map, IfErr, IfOk};
ghost use Rattle.sqlite_value.specs.Order.{column};
ghost use Rattle.sqlite_value.specs.declared.value.Value.TheVariants.{Int, Real, Text};
ghost use Rattle.sqlite.specs.Values.{or_null};
ghost use Rattle.bac_archive.specs.Ask.{first};
ghost use Rattle.bac_archive.specs.Put.{beginning_columns, device_columns, flag, item_columns};
ghost use Rattle.bac_archive.specs.Put.{log_columns};
ghost use Rattle.bac_archive.specs.Read.{FailsToRead, FailsToReadOne, IsUnread, below, octets};
ghost use Rattle.bac_archive.specs.Read.{numbers, or_none, real};
ghost use Rattle.bac_archive.specs.Read.{beginning_kinds, device_kinds, item_kinds, log_kinds};

use crate::row::{BeginningRow, DeviceRow, ItemRow, LogRow};
use sqlite::types::Type;
use sqlite::{Error, ErrorCode, Row};
use sqlite_value::value::ValueRef;
use std::alloc::Global;

/// How many numbers an epoch has.
const NUMBERS: u64 = 4_294_967_296;

/// A number of 16 bits.
fn short_at(row: &Row, at: usize) -> Result<u16, Error>
    ensures read { IfOk result (λ n. Int (pos n) ≡ column row.now at) }
    ensures cause { IfErr result (λ e. (e ≡ Error.SqliteFailure ErrorCode.OutOfMemory)
        ⊎ IsUnread (below 65536) at row.now e) }
{
    let wide = row.get::<u32>(at)?;
    match u16::try_from(wide) {
        Ok(short) => Ok(short),
        Err(_) => Err(Error::IntegralValueOutOfRange(at)),
    }
}

/// Whether it is 1, and not 0.
fn flag_at(row: &Row, at: usize) -> Result<bool, Error>
    ensures read { IfOk result (λ is. Int (flag is) ≡ column row.now at) }
    ensures cause { IfErr result (λ e. (e ≡ Error.SqliteFailure ErrorCode.OutOfMemory)
        ⊎ IsUnread (below 2) at row.now e) }
{
    let number = row.get::<u32>(at)?;
    match number {
        0 => Ok(false),
        1 => Ok(true),
        _ => Err(Error::IntegralValueOutOfRange(at)),
    }
}

/// Octets of a text, or none.
fn octets_or_none(alloc: Global, row: &Row, at: usize) -> Result<Option<Vec<u8>>, Error>
    ensures read { IfOk result (λ text. column row.now at ≡ or_null (λ b. Text b.items) text) }
    ensures cause { IfErr result (λ e. (e ≡ Error.SqliteFailure ErrorCode.OutOfMemory)
        ⊎ IsUnread (or_none octets) at row.now e) }
{
    match row.get_ref(at)? {
        ValueRef::Text(text) => Ok(Some(Vec::from_slice(alloc, text)?)),
        ValueRef::Null => Ok(None),
        other => Err(Error::InvalidColumnType(at, Type::of(other))),
    }
}

/// A real number, or none.
fn real_or_none(row: &Row, at: usize) -> Result<Option<f64>, Error>
    ensures read { IfOk result (λ real. column row.now at ≡ or_null Real real) }
    ensures cause { IfErr result (λ e. (e ≡ Error.SqliteFailure ErrorCode.OutOfMemory)
        ⊎ IsUnread (or_none real) at row.now e) }
{
    match row.get_ref(at)? {
        ValueRef::Real(real) => Ok(Some(real)),
        ValueRef::Null => Ok(None),
        other => Err(Error::InvalidColumnType(at, Type::of(other))),
    }
}

/// The id of an item.
fn id_at(row: &Row) -> Result<i64, Error>
    ensures read { IfOk result (λ id. (n : ℕ) × (id ≡ pos n) × (column row.now 0 ≡ Int (pos n))) }
    ensures cause { IfErr result (λ e. (e ≡ Error.SqliteFailure ErrorCode.OutOfMemory)
        ⊎ IsUnread (below 9223372036854775808) 0 row.now e) }
{
    let id = row.get::<i64>(0)?;
    if id < 0 {
        return Err(Error::IntegralValueOutOfRange(0));
    }
    Ok(id)
}

/// The epoch that an item is of.
pub(crate) fn epoch_at(row: &Row) -> Result<u64, Error>
    ensures read { IfOk result (λ epoch. (n : ℕ) × (column row.now 0 ≡ Int (pos n))
        × (epoch ≡ n / numbers)) }
    ensures cause { IfErr result (FailsToRead item_kinds row.now) }
{
    let id = id_at(row)?;
    match u64::try_from(id) {
        Ok(id) => Ok(id / NUMBERS),
        Err(_) => Err(Error::IntegralValueOutOfRange(0)),
    }
}

/// A device.
fn device_of(row: &Row) -> Result<DeviceRow, Error>
    ensures read { IfOk result (λ d. device_columns d ≡ first 11 row.now) }
    ensures cause { IfErr result (FailsToRead device_kinds row.now) }
{
    let id = short_at(row, 0)?;
    let address = row.get::<String>(1)?;
    let dnet = short_at(row, 2)?;
    let dadr = row.get::<String>(3)?;
    let instance = row.get::<Option<u32>>(4)?;
    let name = row.get::<Option<String>>(5)?;
    let revision = row.get::<Option<u32>>(6)?;
    let whole = flag_at(row, 7)?;
    let stopped = flag_at(row, 8)?;
    let answered = row.get::<Option<String>>(9)?;
    let offset = row.get::<Option<i64>>(10)?;
    Ok(DeviceRow {
        id,
        address,
        dnet,
        dadr,
        instance,
        name,
        revision,
        whole,
        stopped,
        answered,
        offset,
    })
}

/// A log.
fn log_of(row: &Row) -> Result<LogRow, Error>
    ensures read { IfOk result (λ l. log_columns l ≡ first 10 row.now) }
    ensures cause { IfErr result (FailsToRead log_kinds row.now) }
{
    let id = short_at(row, 0)?;
    let device = short_at(row, 1)?;
    let instance = row.get::<u32>(2)?;
    let name = row.get::<Option<String>>(3)?;
    let source = row.get::<Option<String>>(4)?;
    let units = row.get::<Option<String>>(5)?;
    let description = row.get::<Option<String>>(6)?;
    let restart = row.get::<Option<String>>(7)?;
    let revision = row.get::<Option<u32>>(8)?;
    let stopped = flag_at(row, 9)?;
    Ok(LogRow {
        id,
        device,
        instance,
        name,
        source,
        units,
        description,
        restart,
        revision,
        stopped,
    })
}

/// A beginning.
pub(crate) fn beginning_of(row: &Row) -> Result<BeginningRow, Error>
    ensures read { IfOk result (λ b. beginning_columns b ≡ first 3 row.now) }
    ensures cause { IfErr result (FailsToRead beginning_kinds row.now) }
{
    let id = row.get::<u32>(0)?;
    let number = row.get::<u32>(1)?;
    let why = row.get::<Option<String>>(2)?;
    Ok(BeginningRow { id, number, why })
}

/// An item.
pub(crate) fn item_of(alloc: Global, row: &Row) -> Result<ItemRow, Error>
    ensures read { IfOk result (λ i. item_columns i ≡ first 6 row.now) }
    ensures id { IfOk result (λ i. (n : ℕ) × (i.id ≡ pos n)) }
    ensures cause { IfErr result (FailsToRead item_kinds row.now) }
{
    let id = id_at(row)?;
    let last = row.get::<Option<u32>>(1)?;
    let stamp = octets_or_none(alloc, row, 2)?;
    let value = real_or_none(row, 3)?;
    let datum = octets_or_none(alloc, row, 4)?;
    let flags = octets_or_none(alloc, row, 5)?;
    Ok(ItemRow {
        id,
        last,
        stamp,
        value,
        datum,
        flags,
    })
}

/// Devices, in the order of their rows.
pub(crate) fn devices_of(alloc: Global, rows: &[Row]) -> Result<Vec<DeviceRow>, Error>
    ensures read { IfOk result (λ all. map device_columns all.items ≡ map (first 11) rows.now) }
    ensures cause { IfErr result (FailsToReadOne device_kinds rows.now) }
{
    let mut all = Vec::new(alloc);
    for row in rows {
        all.push(device_of(row)?)?;
    }
    Ok(all)
}

/// Logs, in the order of their rows.
pub(crate) fn logs_of(alloc: Global, rows: &[Row]) -> Result<Vec<LogRow>, Error>
    ensures read { IfOk result (λ all. map log_columns all.items ≡ map (first 10) rows.now) }
    ensures cause { IfErr result (FailsToReadOne log_kinds rows.now) }
{
    let mut all = Vec::new(alloc);
    for row in rows {
        all.push(log_of(row)?)?;
    }
    Ok(all)
}

/// Beginnings, in the order of their rows.
pub(crate) fn beginnings_of(alloc: Global, rows: &[Row]) -> Result<Vec<BeginningRow>, Error>
    ensures read { IfOk result (λ all. map beginning_columns all.items ≡ map (first 3) rows.now) }
    ensures cause { IfErr result (FailsToReadOne beginning_kinds rows.now) }
{
    let mut all = Vec::new(alloc);
    for row in rows {
        all.push(beginning_of(row)?)?;
    }
    Ok(all)
}
