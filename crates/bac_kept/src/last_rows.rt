//! The newest records of logs, as lines, as CSV or as JSON.

ghost use Rattle.std.specs.Prelude.{◌≡◌, ◌⊎◌, ◌∷◌, [], ◌++◌, IfErr, IfOk, List, None, OnOk};
ghost use Rattle.std.specs.Prelude.{map, option_copied};
ghost use Rattle.std.specs.Io.KnownBytes.{Appends};
ghost use Rattle.csv.specs.Writing.{default_writer, row_text};
ghost use Rattle.bac_print.specs.Output.{AppendsPart};
ghost use Rattle.bac_kept.specs.Csv.{AreFieldsOf};
ghost use Rattle.bac_kept.specs.LastRows.{AreLastTexts, IsLastJson, IsLastRow, IsLastText};
ghost use Rattle.bac_kept.specs.LastRows.{IsRecordJson, IsRecordRow, PrintsLasts, last_line};
ghost use Rattle.bac_kept.specs.LastRows.{last_names_text, none_fields, record_text};
ghost use Rattle.bac_kept.specs.Shown.{told_of};

use crate::csv_rows::{ItemFields, LogFields, row_of};
use crate::fault::Fault;
use crate::json_lines::{write_log, write_none, write_record};
use crate::lasts::{Found, Lasts, found_of, last_logs};
use crate::record::Record;
use crate::shown::{ShownLog, push_place};
use crate::silence::{last_answer, push_silence, silence};
use crate::words::Words;
use bac_form::Form;
use bac_json::Line;
use bac_print::{push_number, write_text};
use std::alloc::{AllocError, Global};
use std::io::Write;
use std::mem::replace;

/// The first row.
const NAMES: [&[u8]; 13] = [
    b"address",
    b"device",
    b"trend_log",
    b"name",
    b"source",
    b"units",
    b"epoch",
    b"number",
    b"stamp",
    b"value",
    b"datum",
    b"flags",
    b"silent_since",
];

/// Appends what is told of the newest record of a log: its number, its stamp and its datum.
fn push_record(text: &mut Vec<u8>, record: Option<&Record>) -> Result<(), AllocError>
    ensures { OnOk result
        (text.new.items ≡ text.old.items ++ record_text (option_copied record.entry)) }
{
    let Some(record) = record else {
        return text.extend_from_slice(b"no record");
    };
    push_number(text, u64::from(record.number))?;
    text.push(b' ')?;
    text.extend_from_slice(record.stamp.as_slice())?;
    text.push(b' ')?;
    text.extend_from_slice(record.datum.as_slice())
}

/// Appends the line of a log.
#[tactic(auto, unfolding(crate::specs::LastRows::last_line))]
fn push_line(
    text: &mut Vec<u8>,
    shown: &ShownLog<'_>,
    record: Option<&Record>,
    silence: &[u8],
) -> Result<(), AllocError>
    ensures { OnOk result (text.new.items ≡ text.old.items
        ++ last_line (told_of shown.now) (option_copied record.entry) silence.now) }
{
    push_place(text, shown.device)?;
    text.push(b' ')?;
    push_number(text, u64::from(shown.log.instance))?;
    text.push(b' ')?;
    push_record(text, record)?;
    push_silence(text, shown.device, silence)?;
    text.push(b'\n')?;
    Ok(())
}

/// The row of an item, of its texts, those of its log, and since when the device is silent.
fn last_fields_row<'a>(
    alloc: Global,
    log: &'a LogFields<'a>,
    fields: &'a ItemFields,
    stamp: &'a [u8],
    silence: &'a [u8],
) -> Result<Vec<u8>, AllocError>
    ensures { IfOk result (λ text. text.items ≡ row_text default_writer
        (log.now.address.items ∷ log.now.device.items ∷ log.now.instance.items
        ∷ log.now.name.now ∷ log.now.source.now ∷ log.now.units.now
        ∷ fields.now.epoch.items ∷ fields.now.number.items ∷ stamp.now
        ∷ fields.now.value.items ∷ fields.now.datum.items ∷ fields.now.flags.items
        ∷ silence.now ∷ [])) }
{
    row_of(
        alloc,
        &[
            log.address.as_slice(),
            log.device.as_slice(),
            log.instance.as_slice(),
            log.name,
            log.source,
            log.units,
            fields.epoch.as_slice(),
            fields.number.as_slice(),
            stamp,
            fields.value.as_slice(),
            fields.datum.as_slice(),
            fields.flags.as_slice(),
            silence,
        ],
    )
}

/// The row of a log and its newest record.
fn record_row(
    alloc: Global,
    log: &LogFields<'_>,
    record: &Record,
    silence: &[u8],
) -> Result<Vec<u8>, AllocError>
    ensures { IfOk result (λ text. (told : _) → AreFieldsOf told log.now
        → IsRecordRow told record.now silence.now text.items) }
{
    let item = record.item();
    let fields = ItemFields::of(alloc, &item)?;
    last_fields_row(alloc, log, &fields, item.stamp, silence)
}

/// The row of a log without a record.
fn none_row<'a>(
    alloc: Global,
    log: &'a LogFields<'a>,
    silence: &'a [u8],
) -> Result<Vec<u8>, AllocError>
    ensures { IfOk result (λ text. (told : _) → AreFieldsOf told log.now
        → text.items ≡ row_text default_writer (none_fields told silence.now)) }
{
    let none: &[u8] = b"";
    row_of(
        alloc,
        &[
            log.address.as_slice(),
            log.device.as_slice(),
            log.instance.as_slice(),
            log.name,
            log.source,
            log.units,
            none,
            none,
            none,
            none,
            none,
            none,
            silence,
        ],
    )
}

/// The row of a log, with its newest record.
fn last_row(
    alloc: Global,
    log: &LogFields<'_>,
    record: Option<&Record>,
    silence: &[u8],
) -> Result<Vec<u8>, AllocError>
    ensures { IfOk result (λ text. (told : _) → AreFieldsOf told log.now
        → IsLastRow told (option_copied record.entry) silence.now text.items) }
{
    match record {
        Some(record) => record_row(alloc, log, record, silence),
        None => none_row(alloc, log, silence),
    }
}

/// Appends it.
fn push_row(
    alloc: Global,
    text: &mut Vec<u8>,
    shown: &ShownLog<'_>,
    record: Option<&Record>,
    silence: &[u8],
) -> Result<(), AllocError>
    ensures { OnOk result ((row : List _)
        × IsLastRow (told_of shown.now) (option_copied record.entry) silence.now row
        × (text.new.items ≡ text.old.items ++ row)) }
{
    let log = LogFields::of(alloc, shown)?;
    let row = last_row(alloc, &log, record, silence)?;
    text.extend_from_slice(row.as_slice())
}

/// A text, and behind it the line of a log and its newest record.
fn with_record(
    alloc: Global,
    text: Vec<u8>,
    shown: &ShownLog<'_>,
    log: &LogFields<'_>,
    record: &Record,
    silence: &[u8],
) -> Result<Vec<u8>, AllocError>
    requires { AreFieldsOf (told_of shown.now) log.now }
    ensures { IfOk result (λ new. (one : List _)
        × IsRecordJson (told_of shown.now) record.now silence.now one
        × (new.items ≡ text.items ++ one)) }
{
    let item = record.item();
    let mut line = Line::begin(alloc, text)?;
    write_log(&mut line, shown, log)?;
    write_record(alloc, &mut line, &item)?;
    line.text_or_null("silent_since", silence)?;
    line.end()
}

/// A text, and behind it the line of a log without a record.
fn with_none(
    alloc: Global,
    text: Vec<u8>,
    shown: &ShownLog<'_>,
    log: &LogFields<'_>,
    silence: &[u8],
) -> Result<Vec<u8>, AllocError>
    requires { AreFieldsOf (told_of shown.now) log.now }
    ensures { IfOk result (λ new. (one : List _)
        × IsLastJson (told_of shown.now) None silence.now one
        × (new.items ≡ text.items ++ one)) }
{
    let mut line = Line::begin(alloc, text)?;
    write_log(&mut line, shown, log)?;
    write_none(&mut line)?;
    line.text_or_null("silent_since", silence)?;
    line.end()
}

/// The same of a log, with its newest record.
fn with_last(
    alloc: Global,
    text: Vec<u8>,
    shown: &ShownLog<'_>,
    record: Option<&Record>,
    silence: &[u8],
) -> Result<Vec<u8>, AllocError>
    ensures { IfOk result (λ new. (one : List _)
        × IsLastJson (told_of shown.now) (option_copied record.entry) silence.now one
        × (new.items ≡ text.items ++ one)) }
{
    let log = LogFields::of(alloc, shown)?;
    match record {
        Some(record) => with_record(alloc, text, shown, &log, record, silence),
        None => with_none(alloc, text, shown, &log, silence),
    }
}

/// Appends it.
fn push_json(
    alloc: Global,
    text: &mut Vec<u8>,
    shown: &ShownLog<'_>,
    record: Option<&Record>,
    silence: &[u8],
) -> Result<(), AllocError>
    ensures { OnOk result ((one : List _)
        × IsLastJson (told_of shown.now) (option_copied record.entry) silence.now one
        × (text.new.items ≡ text.old.items ++ one)) }
{
    let before = replace(text, Vec::new(alloc));
    *text = with_last(alloc, before, shown, record, silence)?;
    Ok(())
}

/// Appends the text of a log.
fn push_last(
    alloc: Global,
    text: &mut Vec<u8>,
    shown: &ShownLog<'_>,
    record: Option<&Record>,
    silence: &[u8],
    form: Form,
) -> Result<(), AllocError>
    ensures { OnOk result ((one : List _) × IsLastText form (told_of shown.now)
        (option_copied record.entry) silence.now one
        × (text.new.items ≡ text.old.items ++ one)) }
{
    match form {
        Form::Lines => push_line(text, shown, record, silence),
        Form::Csv => push_row(alloc, text, shown, record, silence),
        Form::Json => push_json(alloc, text, shown, record, silence),
    }
}

/// Appends the text of each log, where devices answered last at this moment.
fn push_lasts(
    alloc: Global,
    text: &mut Vec<u8>,
    logs: &[ShownLog<'_>],
    found: &[Found],
    last: Option<&str>,
    form: Form,
) -> Result<(), AllocError>
    ensures { OnOk result ((rows : List _) × AreLastTexts form found.now (option_copied last.entry)
        (map told_of logs.now) rows × (text.new.items ≡ text.old.items ++ rows)) }
{
    for shown in logs {
        let record = found_of(found, shown.log.id);
        let silence = silence(shown.device, last);
        push_last(alloc, text, shown, record, silence, form)?;
    }
    Ok(())
}

/// The row of names, where logs are written as CSV.
fn names(alloc: Global, form: Form) -> Result<Vec<u8>, AllocError>
    ensures { IfOk result (λ text. text.items ≡ last_names_text form) }
{
    match form {
        Form::Csv => row_of(alloc, &NAMES),
        Form::Lines | Form::Json => Ok(Vec::new(alloc)),
    }
}

impl Lasts {
    /// The text of all: as CSV behind the row of names.
    fn text(&self, alloc: Global, words: &Words<'_>) -> Result<Vec<u8>, AllocError>
        ensures { IfOk result (λ text. PrintsLasts words.now self.now text.items) }
    {
        let mut text = names(alloc, words.form)?;
        let logs = last_logs(alloc, &self.known, words.choice)?;
        let last = last_answer(self.known.devices.as_slice());
        let found = self.found.as_slice();
        push_lasts(alloc, &mut text, logs.as_slice(), found, last, words.form)?;
        Ok(text)
    }

    /// Prints of each log that is chosen and isn't stopped the newest record that was found, and
    /// since when its device is silent: a line, a row of CSV, or a line of JSON.
    pub fn print<O: Write>(
        &self,
        alloc: Global,
        words: &Words<'_>,
        output: &mut O,
    ) -> Result<(), Fault>
        ensures ok { OnOk result ((text : List _) × PrintsLasts words.now self.now text
            × Appends (O.contents output.old) (O.contents output.new) text) }
        // Without memory for it nothing is printed; the output may refuse it in its midst.
        ensures err { IfErr result (λ why. ((why ≡ Fault.Memory)
            × (O.contents output.new ≡ O.contents output.old)) ⊎ ((why ≡ Fault.Write)
            × (text : List _) × PrintsLasts words.now self.now text
            × AppendsPart (O.contents output.old) (O.contents output.new) text)) }
    {
        let Ok(text) = self.text(alloc, words) else {
            return Err(Fault::Memory);
        };
        match write_text(output, text.as_slice()) {
            Ok(()) => Ok(()),
            Err(_) => Err(Fault::Write),
        }
    }
}
