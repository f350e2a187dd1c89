//! The rows of records and gaps, as CSV (RFC 4180).

ghost use Rattle.std.specs.Prelude.{◌≡◌, ◌++◌, ◌∷◌, [], List, Some, map, IfOk, OnOk, decimal};
ghost use Rattle.csv.specs.Writing.{default_writer, row_text};
ghost use Rattle.bac_print.specs.Entries.{datum_text, flags_text};
ghost use Rattle.bac_values.specs.Numbers.{value_of};
ghost use Rattle.bac_query.specs.Rows.{AreFields, AreRows, IsRow, IsValueText, gap_text, names_row};
ghost use Rattle.bac_query.specs.Rows.{stamp_text};

use crate::items::number_before;
use bac_link::Item;
use bac_log::{Datum, Entry};
use bac_print::{push_datum, push_flags, push_moment, push_number};
use bac_values::{push_short, value_of};
use csv::Writer;
use std::alloc::{AllocError, Global};

/// The first row.
const NAMES: [&[u8]; 5] = [b"number", b"stamp", b"value", b"datum", b"flags"];

/// The texts of a row's fields.
#[derive(Drop)]
struct Fields {
    number: Vec<u8>,
    stamp: Vec<u8>,
    value: Vec<u8>,
    datum: Vec<u8>,
    flags: Vec<u8>,
}

impl Fields {
    /// Without an item.
    fn new(alloc: Global) -> Fields {
        Fields {
            number: Vec::new(alloc),
            stamp: Vec::new(alloc),
            value: Vec::new(alloc),
            datum: Vec::new(alloc),
            flags: Vec::new(alloc),
        }
    }

    fn clear(&mut self)
        ensures number { self.new.number.items ≡ [] }
        ensures stamp { self.new.stamp.items ≡ [] }
        ensures value { self.new.value.items ≡ [] }
        ensures datum { self.new.datum.items ≡ [] }
        ensures flags { self.new.flags.items ≡ [] }
    {
        self.number.clear();
        self.stamp.clear();
        self.value.clear();
        self.datum.clear();
        self.flags.clear();
    }

    /// Takes a gap: the first of the numbers that are missing, and the last.
    fn take_gap(&mut self, first: u32, last: u32) -> Result<(), AllocError>
        ensures number { OnOk result (self.new.number.items ≡ decimal first) }
        ensures stamp { OnOk result (self.new.stamp.items ≡ []) }
        ensures value { OnOk result (self.new.value.items ≡ []) }
        ensures datum { OnOk result (self.new.datum.items ≡ gap_text first last) }
        ensures flags { OnOk result (self.new.flags.items ≡ []) }
    {
        self.clear();
        push_number(&mut self.number, u64::from(first))?;
        self.datum.extend_from_slice(b"gap ")?;
        push_number(&mut self.datum, u64::from(first))?;
        self.datum.extend_from_slice(b" ")?;
        push_number(&mut self.datum, u64::from(last))
    }

    /// Takes a record.
    fn take_record(&mut self, number: u32, entry: &Entry) -> Result<(), AllocError>
        ensures number { OnOk result (self.new.number.items ≡ decimal number) }
        ensures stamp { OnOk result (self.new.stamp.items ≡ stamp_text entry.now) }
        ensures value { OnOk result (IsValueText (value_of entry.now.datum) self.new.value.items) }
        ensures datum { OnOk result (self.new.datum.items ≡ datum_text entry.now.datum) }
        ensures flags { OnOk result (self.new.flags.items ≡ flags_text entry.now.flags) }
    {
        self.clear();
        push_number(&mut self.number, u64::from(number))?;
        push_moment(&mut self.stamp, entry.date, entry.time)?;
        renew_value(&mut self.value, &entry.datum)?;
        push_datum(&mut self.datum, &entry.datum)?;
        push_flags(&mut self.flags, entry.flags)
    }

    /// Takes an item.
    fn take(&mut self, item: &Item) -> Result<(), AllocError>
        ensures { OnOk result (AreFields item.now
            (self.new.number.items ∷ self.new.stamp.items ∷ self.new.value.items
            ∷ self.new.datum.items ∷ self.new.flags.items ∷ [])) }
    {
        match item {
            Item::Gap { first, before } => self.take_gap(*first, number_before(*before)),
            Item::Logged { number, entry } => self.take_record(*number, entry),
        }
    }
}

/// The number that a datum is, in the place of a text.
fn renew_value(text: &mut Vec<u8>, datum: &Datum) -> Result<(), AllocError>
    ensures { OnOk result (IsValueText (value_of datum.now) text.new.items) }
{
    text.clear();
    match value_of(datum) {
        Some(value) => push_value(text, value),
        None => Ok(()),
    }
}

/// Appends a number to no text, unless it is no number.
fn push_value(text: &mut Vec<u8>, value: f64) -> Result<(), AllocError>
    requires { text.old.items ≡ [] }
    ensures { OnOk result (IsValueText (Some value) text.new.items) }
{
    if value.is_nan() {
        return Ok(());
    }
    push_short(text, value)
}

/// The text of a row of these fields, in the memory of another text.
fn row_of(mut text: Vec<u8>, fields: &[&[u8]]) -> Result<Vec<u8>, AllocError>
    ensures { IfOk result
        (λ text. text.items ≡ row_text default_writer (map (λ f. f.now) fields.now)) }
{
    text.clear();
    let mut writer = Writer::from_writer(text);
    if writer.write_fields(fields).is_err() {
        return Err(AllocError);
    }
    match writer.into_inner() {
        Ok(text) => Ok(text),
        Err(_error) => Err(AllocError),
    }
}

/// The row of an item, in the memory of another text.
fn item_row(row: Vec<u8>, fields: &mut Fields, item: &Item) -> Result<Vec<u8>, AllocError>
    ensures { IfOk result (λ row. IsRow item.now row.items) }
{
    fields.take(item)?;
    row_of(
        row,
        &[
            fields.number.as_slice(),
            fields.stamp.as_slice(),
            fields.value.as_slice(),
            fields.datum.as_slice(),
            fields.flags.as_slice(),
        ],
    )
}

/// The row of names.
pub(crate) fn names_row(alloc: Global) -> Result<Vec<u8>, AllocError>
    ensures { IfOk result (λ row. row.items ≡ names_row) }
{
    row_of(Vec::new(alloc), &NAMES)
}

/// Appends the rows of items, one after the other.
pub(crate) fn push_rows(alloc: Global, text: &mut Vec<u8>, items: &[Item]) -> Result<(), AllocError>
    ensures { OnOk result
        ((rows : List _) × AreRows items.now rows × (text.new.items ≡ text.old.items ++ rows)) }
{
    let mut fields = Fields::new(alloc);
    let mut row = Vec::new(alloc);
    for item in items {
        row = item_row(row, &mut fields, item)?;
        text.extend_from_slice(row.as_slice())?;
    }
    Ok(())
}
