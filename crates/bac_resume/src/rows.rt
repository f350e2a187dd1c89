//! What an archive tells of each log.

ghost use Rattle.std.specs.Prelude.{◌≡◌, ℕ, ◌/◌, ◌<◌, ◌++◌, ◌∷◌, [], length, map, OnOk};
ghost use Rattle.std.specs.Prelude.{IfOk, Some, true, slice_get};
ghost use Rattle.std.specs.Option.{option_map};
ghost use Rattle.sqlite_value.specs.Order.{column};
ghost use Rattle.bac_archive.specs.Items.{number_at};
ghost use Rattle.bac_archive.specs.Put.{beginning_columns, item_columns};
ghost use Rattle.bac_archive.specs.Read.{numbers};
ghost use Rattle.bac_archive.specs.Stands.{epochs, is_in};
ghost use Rattle.bac_resume.specs.Rows.{told_of, untold};
ghost use Rattle.bac_resume.specs.Met.{began, began_at, log_in, with_item, with_item_at};

use bac_archive::{BeginningRow, ItemRow};
use std::alloc::{AllocError, Global};
use std::marker::Model;

/// How many numbers an epoch has.
const NUMBERS: u64 = 4_294_967_296;

/// How many epochs a log has.
const EPOCHS: u32 = 32_768;

/// What an archive tells of a log: its last beginning, and the newest items of the epoch that
/// begins there, the newest first.
#[derive(Drop)]
pub struct LogRows {
    pub begins: Option<BeginningRow>,
    pub newest: Vec<ItemRow>,
}

impl Model for LogRows {
    ghost use Rattle.std.specs.Prelude.{map};
    ghost use Rattle.std.specs.Option.{option_map};
    ghost use Rattle.bac_archive.specs.Put.{beginning_columns, item_columns};
    ghost use Rattle.bac_resume.specs.Rows.{LogTold};

    ghost Value = { LogTold };

    ghost view = { λ rows. record {
      begins = option_map beginning_columns rows.begins;
      newest = map item_columns rows.newest.items;
    } };
}

// The id of an item; 0, if it were negative.
pub(crate) fn id_of(item: &ItemRow) -> u64
    ensures { result ≡ number_at (column (item_columns item.now) 0) }
{
    if item.id < 0 {
        0
    } else {
        item.id.unsigned_abs()
    }
}

// Whether an item is of an epoch.
fn is_in(item: &ItemRow, epoch: u64) -> bool
    ensures { result ≡ is_in numbers epoch (item_columns item.now) }
{
    0 <= item.id && item.id.unsigned_abs() / NUMBERS == epoch
}

// The log of an item.
fn log_of(item: &ItemRow) -> u64
    ensures { result ≡ log_in (item_columns item.now) }
{
    id_of(item) / NUMBERS / u64::from(EPOCHS)
}

impl LogRows {
    fn new(alloc: Global) -> LogRows
        ensures { result ≡ untold }
    {
        LogRows {
            begins: None,
            newest: Vec::new(alloc),
        }
    }

    // A beginning of the log is met: the first one is its last.
    fn begin(&mut self, row: BeginningRow)
        ensures { self.new ≡ began self.old (beginning_columns row) }
    {
        if self.begins.is_none() {
            self.begins = Some(row);
        }
    }

    // An item is met.
    fn push(&mut self, item: ItemRow) -> Result<(), AllocError>
        ensures { OnOk result (self.new ≡ with_item self.old (item_columns item)) }
    {
        if let Some(begins) = &self.begins {
            if is_in(&item, u64::from(begins.id)) {
                self.newest.push(item)?;
            }
        }
        Ok(())
    }
}

// So many logs of which nothing is told.
fn untold(alloc: Global, logs: u32) -> Result<Vec<LogRows>, AllocError>
    ensures { IfOk result (λ all. (log : ℕ) → log < logs
        → slice_get all.items log ≡ Some untold) }
{
    let mut all = Vec::new(alloc);
    for _ in 0..logs {
        all.push(LogRows::new(alloc))?;
    }
    Ok(all)
}

// A beginning is met.
fn begin_at(all: &mut [LogRows], row: BeginningRow)
    ensures { (log : ℕ) → slice_get all.new log
        ≡ option_map (began_at log (beginning_columns row)) (slice_get all.old log) }
{
    let at = (row.id / EPOCHS) as usize;
    if at < all.len() {
        all[at].begin(row);
    }
}

// An item is met.
fn push_at(all: &mut [LogRows], item: ItemRow) -> Result<(), AllocError>
    ensures { OnOk result ((log : ℕ) → slice_get all.new log
        ≡ option_map (with_item_at log (item_columns item)) (slice_get all.old log)) }
{
    let at = log_of(&item) as usize;
    if at < all.len() {
        all[at].push(item)?;
    }
    Ok(())
}

/// What these beginnings, by falling ids, and these items, by falling ids, tell of the logs with
/// ids below this one, by their ids. Each row is looked at once.
pub fn by_log(
    alloc: Global,
    last: Vec<BeginningRow>,
    newest: Vec<ItemRow>,
    logs: u32,
) -> Result<Vec<LogRows>, AllocError>
    ensures { IfOk result (λ all. (log : ℕ) → log < logs → slice_get all.items log
        ≡ Some (told_of (map beginning_columns last.items) (map item_columns newest.items) log)) }
{
    let mut all = untold(alloc, logs)?;
    for row in last {
        begin_at(all.as_mut_slice(), row);
    }
    for item in newest {
        push_at(all.as_mut_slice(), item)?;
    }
    Ok(all)
}
