//! Items as lines of JSON (RFC 8259).

ghost use Rattle.std.specs.Prelude.{◌≡◌, ◌++◌, IfOk, List, OnOk};
ghost use Rattle.json.specs.Json.{Json as AnyJson};
ghost use Rattle.bac_json.specs.Lines.{Field, IsReal, fields_tokens};
ghost use Rattle.bac_kept.specs.Csv.{AreFieldsOf};
ghost use Rattle.bac_kept.specs.Json.{AreOfItem, IsJson, gap_json, is_doubtful, log_json};
ghost use Rattle.bac_kept.specs.Json.{none_json, record_json};
ghost use Rattle.bac_kept.specs.Shown.{told_of};

use crate::csv_rows::{LogFields, flags_text};
use crate::shown::ShownLog;
use bac_archive::Item;
use bac_json::Line;
use std::alloc::{AllocError, Global};
use std::mem::replace;

/// Writes what each line of a log has.
pub(crate) fn write_log(
    line: &mut Line,
    shown: &ShownLog<'_>,
    log: &LogFields<'_>,
) -> Result<(), AllocError>
    requires { AreFieldsOf (told_of shown.now) log.now }
    ensures before { line.new.writer.before ≡ line.old.writer.before }
    ensures tokens { OnOk result (line.new.writer.tokens
        ≡ line.old.writer.tokens ++ fields_tokens (log_json (told_of shown.now))) }
{
    line.text("address", log.address.as_slice())?;
    line.whole_or_null("device", shown.device.instance)?;
    line.whole("trend_log", u64::from(shown.log.instance))?;
    line.text_or_null("name", log.name)?;
    line.text_or_null("source", log.source)?;
    line.text_or_null("units", log.units)
}

/// Writes a record.
pub(crate) fn write_record(
    alloc: Global,
    line: &mut Line,
    item: &Item<'_>,
) -> Result<(), AllocError>
    ensures before { line.new.writer.before ≡ line.old.writer.before }
    ensures tokens { OnOk result ((value : AnyJson) × IsReal item.now.value value
        × (line.new.writer.tokens
        ≡ line.old.writer.tokens ++ fields_tokens (record_json item.now value))) }
{
    let flags = flags_text(alloc, item.flags)?;
    line.whole("epoch", u64::from(item.epoch))?;
    line.whole("number", u64::from(item.number))?;
    line.text_or_null("stamp", item.stamp)?;
    line.real("value", item.value)?;
    line.text_or_null("datum", item.datum)?;
    line.text_or_null("flags", flags.as_slice())
}

/// Whether the datum of a gap tells that it may be none.
fn is_doubtful(datum: &[u8]) -> bool
    ensures { result ≡ is_doubtful datum.now }
{
    match datum {
        [] => false,
        _ => true,
    }
}

/// Writes a gap.
fn write_gap(line: &mut Line, item: &Item<'_>, last: u32) -> Result<(), AllocError>
    ensures before { line.new.writer.before ≡ line.old.writer.before }
    ensures tokens { OnOk result (line.new.writer.tokens
        ≡ line.old.writer.tokens ++ fields_tokens (gap_json item.now last)) }
{
    line.whole("epoch", u64::from(item.epoch))?;
    line.whole("first", u64::from(item.number))?;
    line.whole("last", u64::from(last))?;
    line.flag("doubtful", is_doubtful(item.datum))
}

/// Writes an item.
fn write_item(alloc: Global, line: &mut Line, item: &Item<'_>) -> Result<(), AllocError>
    ensures before { line.new.writer.before ≡ line.old.writer.before }
    ensures tokens { OnOk result ((fields : List Field) × AreOfItem item.now item.now.last fields
        × (line.new.writer.tokens ≡ line.old.writer.tokens ++ fields_tokens fields)) }
{
    match item.last {
        Some(last) => write_gap(line, item, last),
        None => write_record(alloc, line, item),
    }
}

/// Writes that there is no record.
pub(crate) fn write_none(line: &mut Line) -> Result<(), AllocError>
    ensures before { line.new.writer.before ≡ line.old.writer.before }
    ensures tokens { OnOk result
        (line.new.writer.tokens ≡ line.old.writer.tokens ++ fields_tokens none_json) }
{
    line.none("epoch")?;
    line.none("number")?;
    line.none("stamp")?;
    line.none("value")?;
    line.none("datum")?;
    line.none("flags")
}

/// A text, and behind it the line of an item.
fn with_line(
    alloc: Global,
    text: Vec<u8>,
    item: &Item<'_>,
    shown: &ShownLog<'_>,
    log: &LogFields<'_>,
) -> Result<Vec<u8>, AllocError>
    requires { AreFieldsOf (told_of shown.now) log.now }
    ensures { IfOk result (λ new. (one : List _) × IsJson (told_of shown.now) item.now one
        × (new.items ≡ text.items ++ one)) }
{
    let mut line = Line::begin(alloc, text)?;
    write_log(&mut line, shown, log)?;
    write_item(alloc, &mut line, item)?;
    line.end()
}

/// Appends the line of an item.
pub(crate) fn push_json(
    alloc: Global,
    text: &mut Vec<u8>,
    item: &Item<'_>,
    shown: &ShownLog<'_>,
    log: &LogFields<'_>,
) -> Result<(), AllocError>
    requires { AreFieldsOf (told_of shown.now) log.now }
    ensures { OnOk result ((one : List _) × IsJson (told_of shown.now) item.now one
        × (text.new.items ≡ text.old.items ++ one)) }
{
    let before = replace(text, Vec::new(alloc));
    *text = with_line(alloc, before, item, shown, log)?;
    Ok(())
}
