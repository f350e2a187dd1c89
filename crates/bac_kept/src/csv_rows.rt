//! Items as rows of CSV (RFC 4180).

ghost use Rattle.std.specs.Prelude.{◌≡◌, ◌∷◌, [], ◌++◌, decimal, map, IfErr, IfOk, OnErr, OnOk};
ghost use Rattle.std.specs.Prelude.{List};
ghost use Rattle.std.specs.Io.KnownBytes.{Appends};
ghost use Rattle.csv.specs.Writing.{default_writer, row_text};
ghost use Rattle.bac_print.specs.Output.{AppendsPart};
ghost use Rattle.bac_kept.specs.Csv.{AreFieldsOf, AreItemFields, IsRow, IsValueText, datum_field};
ghost use Rattle.bac_kept.specs.Csv.{flags_field, has_names, letter, names, names_text};
ghost use Rattle.bac_kept.specs.Csv.{number_text, text_or_none};
ghost use Rattle.bac_kept.specs.Faults.{EndsText};
ghost use Rattle.bac_kept.specs.Lines.{doubt};
ghost use Rattle.bac_kept.specs.Shown.{told_of};

use crate::fault::Fault;
use crate::shown::{ShownLog, push_place};
use bac_archive::Item;
use bac_form::Form;
use bac_print::{push_number, write_text};
use bac_values::push_short;
use csv::Writer;
use std::alloc::{AllocError, Global};
use std::io::Write;

/// The first row.
const NAMES: [&[u8]; 12] = [
    b"address",
    b"device",
    b"trend_log",
    b"name",
    b"source",
    b"units",
    b"epoch",
    b"number",
    b"stamp",
    b"value",
    b"datum",
    b"flags",
];

/// The texts of a log that stand in each of its rows.
#[derive(Drop)]
pub(crate) struct LogFields<'a> {
    pub(crate) address: Vec<u8>,
    pub(crate) device: Vec<u8>,
    pub(crate) instance: Vec<u8>,
    pub(crate) name: &'a [u8],
    pub(crate) source: &'a [u8],
    pub(crate) units: &'a [u8],
}

/// The texts of an item that aren't kept so.
#[derive(Drop)]
pub(crate) struct ItemFields {
    pub(crate) epoch: Vec<u8>,
    pub(crate) number: Vec<u8>,
    pub(crate) value: Vec<u8>,
    pub(crate) datum: Vec<u8>,
    pub(crate) flags: Vec<u8>,
}

/// A number as a text.
fn number_text(alloc: Global, number: u64) -> Result<Vec<u8>, AllocError>
    ensures { IfOk result (λ text. text.items ≡ decimal number) }
{
    let mut text = Vec::new(alloc);
    push_number(&mut text, number)?;
    Ok(text)
}

/// One that there may be.
fn maybe_number(alloc: Global, number: Option<u32>) -> Result<Vec<u8>, AllocError>
    ensures { IfOk result (λ text. text.items ≡ number_text number) }
{
    match number {
        Some(number) => number_text(alloc, u64::from(number)),
        None => Ok(Vec::new(alloc)),
    }
}

/// A text that there may be.
fn maybe_text(text: &Option<String>) -> &[u8]
    ensures { result.now ≡ text_or_none text.now }
{
    match text {
        Some(text) => text.as_bytes(),
        None => b"",
    }
}

impl<'a> LogFields<'a> {
    /// Those of a log.
    pub(crate) fn of(alloc: Global, shown: &ShownLog<'a>) -> Result<LogFields<'a>, AllocError>
        ensures { IfOk result (AreFieldsOf (told_of shown.now)) }
    {
        let mut address = Vec::new(alloc);
        push_place(&mut address, shown.device)?;
        let device = maybe_number(alloc, shown.device.instance)?;
        let instance = number_text(alloc, u64::from(shown.log.instance))?;
        Ok(LogFields {
            address,
            device,
            instance,
            name: maybe_text(&shown.log.name),
            source: maybe_text(&shown.log.source),
            units: maybe_text(&shown.log.units),
        })
    }
}

/// The number of a record, if it has one, as the shortest text that reads back as it.
fn value_text(alloc: Global, value: Option<f64>) -> Result<Vec<u8>, AllocError>
    ensures { IfOk result (λ text. IsValueText value text.items) }
{
    let mut text = Vec::new(alloc);
    if let Some(value) = value {
        push_short(&mut text, value)?;
    }
    Ok(text)
}

/// Appends what the datum of a gap says, behind its numbers.
fn push_doubt(text: &mut Vec<u8>, datum: &[u8]) -> Result<(), AllocError>
    ensures { OnOk result (text.new.items ≡ text.old.items ++ doubt datum.now) }
{
    if datum.is_empty() {
        return Ok(());
    }
    text.push(b' ')?;
    text.extend_from_slice(datum)
}

/// The datum of a record, or the numbers of a gap.
fn datum_text(alloc: Global, item: &Item<'_>) -> Result<Vec<u8>, AllocError>
    ensures { IfOk result (λ text. text.items
        ≡ datum_field item.now.number item.now.last item.now.datum.now) }
{
    let mut text = Vec::new(alloc);
    if let Some(last) = item.last {
        text.extend_from_slice(b"gap ")?;
        push_number(&mut text, u64::from(item.number))?;
        text.push(b' ')?;
        push_number(&mut text, u64::from(last))?;
        push_doubt(&mut text, item.datum)?;
    } else {
        text.extend_from_slice(item.datum)?;
    }
    Ok(text)
}

/// A flag as a letter.
fn letter(c: u8) -> u8
    ensures { result ≡ letter c }
{
    match c {
        b'0' => b'F',
        b'1' => b'T',
        other => other,
    }
}

/// Flags as letters.
pub(crate) fn flags_text(alloc: Global, flags: &[u8]) -> Result<Vec<u8>, AllocError>
    ensures { IfOk result (λ text. text.items ≡ flags_field flags.now) }
{
    let mut text = Vec::new(alloc);
    for flag in flags {
        text.push(letter(*flag))?;
    }
    Ok(text)
}

impl ItemFields {
    /// Those of an item.
    pub(crate) fn of(alloc: Global, item: &Item<'_>) -> Result<ItemFields, AllocError>
        ensures { IfOk result (AreItemFields item.now) }
    {
        let epoch = number_text(alloc, u64::from(item.epoch))?;
        let number = number_text(alloc, u64::from(item.number))?;
        let value = value_text(alloc, item.value)?;
        let datum = datum_text(alloc, item)?;
        let flags = flags_text(alloc, item.flags)?;
        Ok(ItemFields {
            epoch,
            number,
            value,
            datum,
            flags,
        })
    }
}

/// The text of a row of these fields.
pub(crate) fn row_of(alloc: Global, fields: &[&[u8]]) -> Result<Vec<u8>, AllocError>
    ensures { IfOk result
        (λ text. text.items ≡ row_text default_writer (map (λ f. f.now) fields.now)) }
{
    let mut writer = Writer::from_writer(Vec::new(alloc));
    if writer.write_fields(fields).is_err() {
        return Err(AllocError);
    }
    match writer.into_inner() {
        Ok(text) => Ok(text),
        Err(_error) => Err(AllocError),
    }
}

/// The row of an item, of its texts and those of its log.
fn fields_row<'a>(
    alloc: Global,
    log: &'a LogFields<'a>,
    fields: &'a ItemFields,
    stamp: &'a [u8],
) -> Result<Vec<u8>, AllocError>
    ensures { IfOk result (λ text. text.items ≡ row_text default_writer
        (log.now.address.items ∷ log.now.device.items ∷ log.now.instance.items
        ∷ log.now.name.now ∷ log.now.source.now ∷ log.now.units.now
        ∷ fields.now.epoch.items ∷ fields.now.number.items ∷ stamp.now
        ∷ fields.now.value.items ∷ fields.now.datum.items ∷ fields.now.flags.items ∷ [])) }
{
    row_of(
        alloc,
        &[
            log.address.as_slice(),
            log.device.as_slice(),
            log.instance.as_slice(),
            log.name,
            log.source,
            log.units,
            fields.epoch.as_slice(),
            fields.number.as_slice(),
            stamp,
            fields.value.as_slice(),
            fields.datum.as_slice(),
            fields.flags.as_slice(),
        ],
    )
}

/// Appends the row of an item.
pub(crate) fn push_row(
    alloc: Global,
    text: &mut Vec<u8>,
    item: &Item<'_>,
    log: &LogFields<'_>,
) -> Result<(), AllocError>
    ensures { OnOk result ((told : _) → AreFieldsOf told log.now
        → (row : List _) × IsRow told item.now row × (text.new.items ≡ text.old.items ++ row)) }
{
    let fields = ItemFields::of(alloc, item)?;
    let row = fields_row(alloc, log, &fields, item.stamp)?;
    text.extend_from_slice(row.as_slice())
}

/// Whether a row of names stands before the logs: as CSV alone.
pub fn has_names(form: Form) -> bool
    ensures { result ≡ has_names form }
{
    match form {
        Form::Csv => true,
        Form::Lines | Form::Json => false,
    }
}

/// Writes the row of names, if it is wanted.
pub fn print_names<O: Write>(alloc: Global, wanted: bool, output: &mut O) -> Result<(), Fault>
    ensures ok { OnOk result
        (Appends (O.contents output.old) (O.contents output.new) (names_text wanted)) }
    ensures err { OnErr result
        (AppendsPart (O.contents output.old) (O.contents output.new) (names_text wanted)) }
    ensures fault { IfErr result EndsText }
{
    if !wanted {
        return Ok(());
    }
    let Ok(text) = row_of(alloc, &NAMES) else {
        return Err(Fault::Memory);
    };
    match write_text(output, text.as_slice()) {
        Ok(()) => Ok(()),
        Err(_) => Err(Fault::Write),
    }
}
