//! Records and gaps as lines of JSON (RFC 8259).

ghost use Rattle.std.specs.Prelude.{◌≡◌, ◌++◌, IfOk, List, OnOk};
ghost use Rattle.json.specs.Json.{Json as AnyJson};
ghost use Rattle.bac_json.specs.Lines.{IsReal, fields_tokens, line_of};
ghost use Rattle.bac_print.specs.Entries.{datum_text, flags_text};
ghost use Rattle.bac_query.specs.Json.{AreJson, IsJson, gap_json, record_json};
ghost use Rattle.bac_query.specs.Rows.{stamp_text};
ghost use Rattle.bac_values.specs.Numbers.{value_of};

use crate::items::number_before;
use bac_json::Line;
use bac_link::Item;
use bac_log::Entry;
use bac_print::{push_datum, push_flags, push_moment};
use bac_values::value_of;
use std::alloc::{AllocError, Global};
use std::mem::replace;

/// The stamp of a record, as its line has it.
fn stamp_of(alloc: Global, entry: &Entry) -> Result<Vec<u8>, AllocError>
    ensures { IfOk result (λ text. text.items ≡ stamp_text entry.now) }
{
    let mut text = Vec::new(alloc);
    push_moment(&mut text, entry.date, entry.time)?;
    Ok(text)
}

/// Its datum.
fn datum_of(alloc: Global, entry: &Entry) -> Result<Vec<u8>, AllocError>
    ensures { IfOk result (λ text. text.items ≡ datum_text entry.now.datum) }
{
    let mut text = Vec::new(alloc);
    push_datum(&mut text, &entry.datum)?;
    Ok(text)
}

/// Its flags.
fn flags_of(alloc: Global, entry: &Entry) -> Result<Vec<u8>, AllocError>
    ensures { IfOk result (λ text. text.items ≡ flags_text entry.now.flags) }
{
    let mut text = Vec::new(alloc);
    push_flags(&mut text, entry.flags)?;
    Ok(text)
}

/// Writes a record.
fn write_record(
    alloc: Global,
    line: &mut Line,
    number: u32,
    entry: &Entry,
) -> Result<(), AllocError>
    ensures before { line.new.writer.before ≡ line.old.writer.before }
    ensures tokens { OnOk result ((value : AnyJson) × IsReal (value_of entry.now.datum) value
        × (line.new.writer.tokens
        ≡ line.old.writer.tokens ++ fields_tokens (record_json number entry.now value))) }
{
    let stamp = stamp_of(alloc, entry)?;
    let datum = datum_of(alloc, entry)?;
    let flags = flags_of(alloc, entry)?;
    line.whole("number", u64::from(number))?;
    line.text("stamp", stamp.as_slice())?;
    line.real("value", value_of(&entry.datum))?;
    line.text("datum", datum.as_slice())?;
    line.text("flags", flags.as_slice())
}

/// A text, and behind it the line of a record.
fn with_record(
    alloc: Global,
    text: Vec<u8>,
    number: u32,
    entry: &Entry,
) -> Result<Vec<u8>, AllocError>
    ensures { IfOk result (λ new. (value : AnyJson) × IsReal (value_of entry.now.datum) value
        × (new.items ≡ text.items ++ line_of (record_json number entry.now value))) }
{
    let mut line = Line::begin(alloc, text)?;
    write_record(alloc, &mut line, number, entry)?;
    line.end()
}

/// A text, and behind it the line of a gap, from the first of the numbers that are missing to the
/// last.
fn with_gap(alloc: Global, text: Vec<u8>, first: u32, last: u32) -> Result<Vec<u8>, AllocError>
    ensures { IfOk result (λ new. new.items ≡ text.items ++ line_of (gap_json first last)) }
{
    let mut line = Line::begin(alloc, text)?;
    line.whole("first", u64::from(first))?;
    line.whole("last", u64::from(last))?;
    line.end()
}

/// A text, and behind it the line of an item.
fn with_item(alloc: Global, text: Vec<u8>, item: &Item) -> Result<Vec<u8>, AllocError>
    ensures { IfOk result (λ new. (one : List _) × IsJson item.now one
        × (new.items ≡ text.items ++ one)) }
{
    match item {
        Item::Gap { first, before } => with_gap(alloc, text, *first, number_before(*before)),
        Item::Logged { number, entry } => with_record(alloc, text, *number, entry),
    }
}

/// Appends the line of an item.
fn push_object(alloc: Global, text: &mut Vec<u8>, item: &Item) -> Result<(), AllocError>
    ensures { OnOk result ((one : List _) × IsJson item.now one
        × (text.new.items ≡ text.old.items ++ one)) }
{
    let before = replace(text, Vec::new(alloc));
    *text = with_item(alloc, before, item)?;
    Ok(())
}

/// Appends the lines of items, one after the other.
pub(crate) fn push_objects(
    alloc: Global,
    text: &mut Vec<u8>,
    items: &[Item],
) -> Result<(), AllocError>
    ensures { OnOk result
        ((lines : List _) × AreJson items.now lines × (text.new.items ≡ text.old.items ++ lines)) }
{
    for item in items {
        push_object(alloc, text, item)?;
    }
    Ok(())
}
