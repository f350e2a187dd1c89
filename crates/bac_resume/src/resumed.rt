//! Where the poll of a log goes on.

ghost use Rattle.std.specs.Prelude.{◌≡◌, IfOk, map};
ghost use Rattle.bac_archive.specs.Put.{beginning_columns, item_columns, log_columns};
ghost use Rattle.bac_poll.specs.State.{standing_as};
ghost use Rattle.bac_resume.specs.Resumed.{GoesOn, IsPlaceOf, SaysOf, is_counted};

use crate::items::{is_full, kept_at, newest_stamp, next_of};
use crate::rows::LogRows;
use crate::texts::word_of;
use bac_archive::{BeginningRow, ItemRow, LogRow};
use bac_poll::{Standing, Told};
use bac_row_ids::Place;
use std::alloc::{AllocError, Global};

/// How many epochs a log has.
const EPOCHS: u32 = 32_768;

/// Where the poll of a log goes on.
#[derive(Drop)]
pub enum Resumed {
    /// Nothing of it has begun.
    Unbegun,
    /// Its first epoch begins at this number by the count alone, with this word on record.
    Counted(Place, u32, Told),
    /// The items of its last epoch stand there.
    Stands(Place, Standing),
}

// Whether a beginning is known by the count alone.
fn is_counted(begins: &BeginningRow) -> bool
    ensures { result ≡ is_counted (beginning_columns begins.now) }
{
    match &begins.why {
        Some(why) => why.as_str() == "counted",
        None => false,
    }
}

// Where the next row of a log stands, behind the items of the epoch that begins there.
fn place_of(log: &LogRow, begins: &BeginningRow, items: &[ItemRow]) -> Place
    ensures { IsPlaceOf (log_columns log.now) (beginning_columns begins.now)
        (map item_columns items.now) result }
{
    match Place::new(log.id, (begins.id % EPOCHS) as u16) {
        Some(place) => place.filled(is_full(items)),
        None => unreachable!(),
    }
}

// What the items of an epoch that begins there say.
fn standing_of(
    alloc: Global,
    log: &LogRow,
    begins: &BeginningRow,
    items: &[ItemRow],
) -> Result<Standing, AllocError>
    ensures { IfOk result (λ at. SaysOf (log_columns log.now) (beginning_columns begins.now)
        (map item_columns items.now) (standing_as at)) }
{
    let next = next_of(begins.number, items);
    let newest = kept_at(alloc, next, items, 0)?;
    let earlier = kept_at(alloc, next, items, 1)?;
    let earliest = kept_at(alloc, next, items, 2)?;
    let stamp = newest_stamp(alloc, items)?;
    let word = word_of(alloc, log)?;
    Ok(Standing {
        next,
        newest,
        earlier,
        earliest,
        stamp,
        word,
    })
}

/// Where the poll of the log of this row goes on, by what an archive tells of it.
pub fn go_on(alloc: Global, log: &LogRow, told: &LogRows) -> Result<Resumed, AllocError>
    ensures { IfOk result (GoesOn (log_columns log.now) told.now) }
{
    let Some(begins) = &told.begins else {
        return Ok(Resumed::Unbegun);
    };
    let items = told.newest.as_slice();
    let place = place_of(log, begins, items);
    if is_counted(begins) {
        let word = word_of(alloc, log)?;
        return Ok(Resumed::Counted(place, begins.number, word));
    }
    let at = standing_of(alloc, log, begins, items)?;
    Ok(Resumed::Stands(place, at))
}
