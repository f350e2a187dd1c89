//! The items of a log are printed.

ghost use Rattle.std.specs.Prelude.{◌≡◌, ◌≢◌, ◌&&◌, is_none, is_some, [], ◌∷◌, ◌++◌, Some};
ghost use Rattle.std.specs.Prelude.{List, IfErr, IfOk, OnErr, OnOk};
ghost use Rattle.std.specs.Io.KnownBytes.{Appends};
ghost use Rattle.sqlite.specs.State.{HasCleanDisk, IsUnchanged, Survives};
ghost use Rattle.sqlite.specs.Held.{state};
ghost use Rattle.bac_archive.specs.Ask.{IsLeft};
ghost use Rattle.bac_archive.specs.Schema.{HasArchive, OverArchive};
ghost use Rattle.bac_print.specs.Output.{AppendsPart};
ghost use Rattle.bac_kept.specs.Csv.{AreFieldsOf};
ghost use Rattle.bac_kept.specs.Faults.{EndsBy, EndsText, FailsOnItems, IsLeftAs};
ghost use Rattle.bac_kept.specs.Items.{HasPrinted, IsItemText, PrintsFirst, PrintsItems};
ghost use Rattle.bac_kept.specs.Items.{PrintsItemsFront, PrintsRows};
ghost use Rattle.bac_kept.specs.Seen.{epoch_of};
ghost use Rattle.bac_kept.specs.Items.{PrintsLess, manner_of, range_of};
ghost use Rattle.bac_kept.specs.Shown.{told_of};
ghost use Rattle.bac_archive.specs.Items.{IsReadable};

use crate::csv_rows::{LogFields, push_row};
use crate::fault::Fault;
use crate::json_lines::push_json;
use crate::lines::push_lines;
use crate::seen::{Newest, is_newer};
use crate::shown::ShownLog;
use crate::words::{Dates, Words};
use bac_archive::{Item, Range, id_of, items_in, read_item};
use bac_form::Form;
use bac_print::write_text;
use sqlite::{Alter, Connection, Error, ErrorCode, Row};
use std::alloc::{AllocError, Global};
use std::io::Write;

/// How the items of a log are written.
#[derive(Clone, Copy)]
pub(crate) struct Style<'a> {
    shown: ShownLog<'a>,
    fields: &'a LogFields<'a>,
    form: Form,
    /// Dates were named: a gap waits for a record behind it.
    dated: bool,
}

/// How far they are printed.
#[derive(Drop)]
struct Progress {
    /// The texts of gaps that wait.
    held: Vec<u8>,
    /// The epoch of the last item whose text was made.
    epoch: Option<u16>,
    /// The newest item that was printed.
    newest: Option<Newest>,
}

/// The items of a log, or those of dates.
pub(crate) fn range_of<'a>(log: u16, dates: Option<Dates<'a>>) -> Range<'a>
    ensures { result ≡ range_of log dates.entry }
{
    let first = id_of(log, 0, 0);
    let last = id_of(log, 32_767, 4_294_967_295);
    match dates {
        None => Range::Oldest { first, last },
        Some(dates) => Range::Dated {
            first,
            last,
            since: dates.since,
            before: dates.before,
        },
    }
}

/// Appends the text of an item, behind one of an epoch.
fn push_text(
    alloc: Global,
    text: &mut Vec<u8>,
    item: &Item<'_>,
    before: Option<u16>,
    style: &Style<'_>,
) -> Result<(), AllocError>
    requires { AreFieldsOf (told_of style.now.shown) style.now.fields.now }
    ensures { OnOk result ((one : List _)
        × IsItemText style.now.form (told_of style.now.shown) before item.now one
        × (text.new.items ≡ text.old.items ++ one)) }
{
    match style.form {
        Form::Lines => push_lines(text, item, before, &style.shown),
        Form::Csv => push_row(alloc, text, item, style.fields),
        Form::Json => push_json(alloc, text, item, &style.shown, style.fields),
    }
}

/// Prints the texts that waited, of which the last is that of this item.
fn print_held<O: Write>(held: Vec<u8>, item: &Item<'_>, output: &mut O) -> Result<Progress, Fault>
    ensures ok { OnOk result
        (Appends (O.contents output.old) (O.contents output.new) held.items) }
    ensures progress { IfOk result (λ now. (now.held.items ≡ [])
        × (now.epoch ≡ Some item.now.epoch)
        × (now.newest ≡ Some (record { epoch = item.now.epoch; number = item.now.number }))) }
    ensures err { OnErr result
        (AppendsPart (O.contents output.old) (O.contents output.new) held.items) }
    ensures fault { IfErr result EndsText }
{
    let mut held = held;
    match write_text(output, held.as_slice()) {
        Ok(()) => {}
        Err(_) => return Err(Fault::Write),
    }
    held.clear();
    Ok(Progress {
        held,
        epoch: Some(item.epoch),
        newest: Some(Newest {
            epoch: item.epoch,
            number: item.number,
        }),
    })
}

/// Whether an item waits for a record behind it: a gap, where dates are named.
fn is_waiting(style: &Style<'_>, item: &Item<'_>) -> bool
    ensures { result ≡ (style.now.dated && is_some item.now.last) }
{
    style.dated && item.last.is_some()
}

/// Whether one that waits is left out, since nothing is printed before it.
fn is_left_out(waits: bool, newest: Option<Newest>) -> bool
    ensures { result ≡ (waits && is_none newest) }
{
    waits && newest.is_none()
}

/// Prints the item of a row, if it lies behind this one, with the texts that waited; or holds it
/// back, or leaves it out, where it is a gap.
fn print_row<O: Write>(
    alloc: Global,
    row: &Row,
    progress: Progress,
    style: &Style<'_>,
    behind: Option<Newest>,
    output: &mut O,
) -> Result<Progress, Fault>
    requires { AreFieldsOf (told_of style.now.shown) style.now.fields.now }
    ensures ok { (rows : List _) (text : List _) → HasPrinted style.now behind rows text progress
        → IfOk result (λ now. (more : List _)
        × Appends (O.contents output.old) (O.contents output.new) more
        × HasPrinted style.now behind (rows ++ row.now ∷ []) (text ++ more) now) }
    ensures err { (rows : List _) (text : List _) → HasPrinted style.now behind rows text progress
        → OnErr result (PrintsLess style.now behind rows row.now text (O.contents output.old)
        (O.contents output.new)) }
    ensures fault { IfErr result (EndsBy (λ e.
        e ≢ Error.SqliteFailure ErrorCode.OutOfMemory → IsReadable row.now → ⊥)) }
{
    let item = match read_item(row) {
        Ok(item) => item,
        Err(error) => return Err(Fault::Database(error)),
    };
    if !is_newer(behind, &item) {
        return Ok(progress);
    }
    let waits = is_waiting(style, &item);
    if is_left_out(waits, progress.newest) {
        return Ok(progress);
    }
    let Progress {
        mut held,
        epoch,
        newest,
    } = progress;
    if push_text(alloc, &mut held, &item, epoch, style).is_err() {
        return Err(Fault::Memory);
    }
    if waits {
        return Ok(Progress {
            held,
            epoch: Some(item.epoch),
            newest,
        });
    }
    print_held(held, &item, output)
}

/// What is printed before the first item.
fn begun(alloc: Global, behind: Option<Newest>) -> Progress
    ensures { (result.held.items ≡ []) × (result.epoch ≡ epoch_of behind)
        × (result.newest ≡ behind) }
{
    let epoch = match behind {
        Some(before) => Some(before.epoch),
        None => None,
    };
    Progress {
        held: Vec::new(alloc),
        epoch,
        newest: behind,
    }
}

/// Prints each item of a range that lies behind one, if there is such; answers the newest that was
/// printed, or that one.
fn print_rows<A: Alter, O: Write>(
    alloc: Global,
    conn: &mut Connection<A>,
    style: &Style<'_>,
    range: Range<'_>,
    behind: Option<Newest>,
    output: &mut O,
) -> Result<Option<Newest>, Fault>
    requires { AreFieldsOf (told_of style.now.shown) style.now.fields.now }
    ensures ok { OverArchive (state A.Store conn.old) (state A.Store conn.new)
        (IfOk result (λ newest. (text : List _)
        × PrintsRows (manner_of style.now) range.entry behind
        ((state A.Store conn.old).now.trees 5) text newest
        × Appends (O.contents output.old) (O.contents output.new) text)) }
    ensures err { OverArchive (state A.Store conn.old) (state A.Store conn.new)
        (OnErr result ((text : List _)
        × PrintsFirst (manner_of style.now) range.entry behind
        ((state A.Store conn.old).now.trees 5) text
        × AppendsPart (O.contents output.old) (O.contents output.new) text)) }
    ensures same { OverArchive (state A.Store conn.old) (state A.Store conn.new)
        (OnOk result (IsUnchanged (state A.Store conn.old) (state A.Store conn.new))) }
    ensures left { OverArchive (state A.Store conn.old) (state A.Store conn.new)
        (IsLeft (state A.Store conn.old) (state A.Store conn.new)) }
    ensures crash { HasArchive (state A.Store conn.old).now.schema
        → Survives (state A.Store conn.old) (state A.Store conn.new) (λ _. ⊥) }
    ensures clean { HasCleanDisk (state A.Store conn.new) → HasCleanDisk (state A.Store conn.old) }
    ensures fault { OverArchive (state A.Store conn.old) (state A.Store conn.new)
        (IfErr result (EndsBy (FailsOnItems A.Store range.entry conn.old conn.new))) }
{
    let mut progress = begun(alloc, behind);
    let mut rows = match items_in(conn, range) {
        Ok(rows) => rows,
        Err(error) => return Err(Fault::Database(error)),
    };
    'rows: for read in 0..u64::MAX {
        let row = match rows.next() {
            Ok(Some(row)) => row,
            Ok(None) => return Ok(progress.newest),
            Err(error) => return Err(Fault::Database(error)),
        };
        progress = print_row(alloc, row, progress, style, behind, output)?;
    }
    Err(Fault::Database(Error::SqliteFailure(ErrorCode::OperationInterrupted)))
}

/// Prints each item of a log that lies behind one, if there is such, or those of dates; answers the
/// newest that was printed, or that one.
pub(crate) fn print_items<A: Alter, O: Write>(
    alloc: Global,
    conn: &mut Connection<A>,
    shown: &ShownLog<'_>,
    words: &Words<'_>,
    behind: Option<Newest>,
    output: &mut O,
) -> Result<Option<Newest>, Fault>
    // The text of its items, in the order of their ids.
    ensures ok { OverArchive (state A.Store conn.old) (state A.Store conn.new)
        (IfOk result (λ newest. (text : List _)
        × PrintsItems words.now (told_of shown.now) behind
        ((state A.Store conn.old).now.trees 5) text newest
        × Appends (O.contents output.old) (O.contents output.new) text)) }
    // After a fault a front of it.
    ensures err { OverArchive (state A.Store conn.old) (state A.Store conn.new)
        (OnErr result ((text : List _)
        × PrintsItemsFront words.now (told_of shown.now) behind
        ((state A.Store conn.old).now.trees 5) text
        × AppendsPart (O.contents output.old) (O.contents output.new) text)) }
    ensures same { OverArchive (state A.Store conn.old) (state A.Store conn.new)
        (OnOk result (IsUnchanged (state A.Store conn.old) (state A.Store conn.new))) }
    // Whatever comes of it, nothing is committed; an error may take back what wasn't.
    ensures left { OverArchive (state A.Store conn.old) (state A.Store conn.new)
        (IsLeftAs A.Store conn.old conn.new) }
    ensures crash { HasArchive (state A.Store conn.old).now.schema
        → Survives (state A.Store conn.old) (state A.Store conn.new) (λ _. ⊥) }
    ensures clean { HasCleanDisk (state A.Store conn.new) → HasCleanDisk (state A.Store conn.old) }
    ensures fault { OverArchive (state A.Store conn.old) (state A.Store conn.new)
        (IfErr result (EndsBy (FailsOnItems A.Store
        (range_of shown.now.log.now.id words.now.dates) conn.old conn.new))) }
{
    let Ok(fields) = LogFields::of(alloc, shown) else {
        return Err(Fault::Memory);
    };
    let style = Style {
        shown: *shown,
        fields: &fields,
        form: words.form,
        dated: words.dates.is_some(),
    };
    let range = range_of(shown.log.id, words.dates);
    print_rows(alloc, conn, &style, range, behind, output)
}
