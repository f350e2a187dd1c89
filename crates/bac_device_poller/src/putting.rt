//! What is put of a turn.

ghost use Rattle.std.specs.Prelude.{◌≡◌, IfOk, OnOk, None, Some, true, false, map};
ghost use Rattle.bac_archive.specs.Put.{item_columns};
ghost use Rattle.bac_row_ids.specs.Rows.{era};
ghost use Rattle.bac_poll.specs.State.{PollState};
ghost use Rattle.bac_poll.specs.Turns.{turned};
ghost use Rattle.bac_walk.specs.Walks.{gap_items};
ghost use Rattle.bac_device_poller.specs.Puts.{IsPut, place_as, gap_columns, none_from, put_as};
ghost use Rattle.bac_device_poller.specs.Puts.{record_columns, why_anew, why_first};
ghost use Rattle.bac_device_poller.specs.Puts.{with_anew, with_beginning, with_epoch, with_first};
ghost use Rattle.bac_device_poller.specs.Puts.{with_gap, with_gap_in, with_item};
ghost use Rattle.bac_device_poller.specs.Puts.{with_gap_row, with_gaps, with_put, with_record};
ghost use Rattle.bac_device_poller.specs.Puts.{with_record_in, with_records, with_rest};
ghost use Rattle.bac_device_poller.specs.Puts.{with_round, with_turn};

use crate::datum::value_of;
use bac_archive::{BeginningRow, ItemRow, Put};
use bac_poll::{Beginning, Line, Turn};
use bac_print::{push_datum, push_flags, push_moment};
use bac_row_ids::Place;
use bac_walk::{Gap, Numbered};
use std::alloc::{AllocError, Global};
use std::marker::Model;

/// The last sequence number.
const LAST: u32 = 4_294_967_295;

/// Why a turn isn't put.
pub enum NotPut {
    /// There is no memory.
    Memory,
    /// It begins one epoch more than a log can have.
    Epochs,
}

/// Where the next row of a log stands, and what is put up to there.
#[derive(Drop)]
pub(crate) struct Putting {
    place: Place,
    puts: Vec<Put>,
}

impl Model for Putting {
    ghost use Rattle.std.specs.Prelude.{map};
    ghost use Rattle.bac_device_poller.specs.Puts.{Puts, put_as};

    ghost Value = { Puts };

    ghost view = { λ p. record {
      log = p.place.log;
      epoch = p.place.epoch;
      full = p.place.full;
      puts = map put_as p.puts.items;
    } };
}

/// The row of a record.
fn record_row(alloc: Global, place: Place, held: Numbered) -> Result<ItemRow, AllocError>
    ensures { IfOk result (λ row. item_columns row ≡ record_columns (era place) held) }
{
    let mut stamp = Vec::new(alloc);
    push_moment(&mut stamp, held.entry.date, held.entry.time)?;
    let mut datum = Vec::new(alloc);
    push_datum(&mut datum, &held.entry.datum)?;
    let mut flags = Vec::new(alloc);
    push_flags(&mut flags, held.entry.flags)?;
    Ok(ItemRow {
        id: place.key(held.number),
        last: None,
        stamp: Some(stamp),
        value: value_of(held.entry.datum),
        datum: Some(datum),
        flags: Some(flags),
    })
}

/// The row of a gap, from one number up to another.
fn gap_row(
    alloc: Global,
    place: Place,
    first: u32,
    last: u32,
    doubtful: bool,
) -> Result<ItemRow, AllocError>
    ensures { IfOk result (λ row. item_columns row ≡ gap_columns (era place) first last doubtful) }
{
    let id = place.key(first);
    if doubtful {
        let mut datum = Vec::new(alloc);
        datum.extend_from_slice(b"or began anew")?;
        return Ok(ItemRow {
            id,
            last: Some(last),
            stamp: None,
            value: None,
            datum: Some(datum),
            flags: None,
        });
    }
    Ok(ItemRow {
        id,
        last: Some(last),
        stamp: None,
        value: None,
        datum: None,
        flags: None,
    })
}

/// Why an epoch begins, by what is told of it.
fn why_anew(line: Option<Line>) -> &'static str
    ensures { result.now ≡ why_anew line }
{
    match line {
        Some(Line::BeganOrDropped) => "began anew, or dropped records",
        Some(Line::BeganAnew) => "began anew",
        Some(Line::AtHour(_)) => "began anew",
        Some(Line::AtHourOrBegan(_)) => "began anew",
        Some(Line::DroppedOrBegan(_, _)) => "began anew",
        None => "began anew",
    }
}

impl Putting {
    /// Nothing, from a place on.
    fn from(alloc: Global, place: Place) -> Putting
        ensures { result ≡ none_from place }
    {
        Putting {
            place,
            puts: Vec::new(alloc),
        }
    }

    fn push(&mut self, put: Put) -> Result<(), NotPut>
        ensures { OnOk result (self.new ≡ with_put self.old (put_as put)) }
    {
        match self.puts.push(put) {
            Ok(()) => Ok(()),
            Err(_) => Err(NotPut::Memory),
        }
    }

    /// The first epoch begins there, and not where the count had it begin.
    fn lower(&mut self, number: u32) -> Result<(), NotPut>
        ensures { OnOk result (self.new ≡ with_beginning self.old false number None) }
    {
        let id = u32::from(self.place.log) * 32768 + u32::from(self.place.epoch);
        self.push(Put::Lowered(BeginningRow {
            id,
            number,
            why: None,
        }))
    }

    /// An epoch begins where the log stands, for a reason.
    fn begin_for(&mut self, alloc: Global, number: u32, why: &str) -> Result<(), NotPut>
        ensures { OnOk result (self.new ≡ with_beginning self.old true number (Some why.now)) }
    {
        let id = u32::from(self.place.log) * 32768 + u32::from(self.place.epoch);
        let Ok(why) = String::from_str(alloc, why) else {
            return Err(NotPut::Memory);
        };
        self.push(Put::Beginning(BeginningRow {
            id,
            number,
            why: Some(why),
        }))
    }

    /// The next epoch begins, from 1 on.
    fn begin_next(&mut self, alloc: Global, why: &str) -> Result<(), NotPut>
        ensures { OnOk result (self.new ≡ with_epoch self.old why.now) }
    {
        let Some(place) = self.place.next() else {
            return Err(NotPut::Epochs);
        };
        self.place = place;
        self.begin_for(alloc, 1, why)
    }

    /// Its numbers come round, if the last one is put.
    fn come_round(&mut self, alloc: Global) -> Result<(), NotPut>
        ensures { OnOk result (self.new ≡ with_round self.old) }
    {
        if self.place.full {
            return self.begin_next(alloc, "numbers came round");
        }
        Ok(())
    }

    /// An item of the epoch, up to a last number.
    fn push_item(&mut self, row: ItemRow, last: u32) -> Result<(), NotPut>
        ensures { OnOk result (self.new ≡ with_item self.old (item_columns row) last) }
    {
        self.push(Put::Item(row))?;
        self.place = self.place.filled(last == LAST);
        Ok(())
    }

    /// A gap in the epoch, from one number up to another.
    fn push_gap_in(
        &mut self,
        alloc: Global,
        doubtful: bool,
        first: u32,
        last: u32,
    ) -> Result<(), NotPut>
        ensures { OnOk result (self.new ≡ with_gap_in doubtful self.old first last) }
    {
        let Ok(row) = gap_row(alloc, self.place, first, last, doubtful) else {
            return Err(NotPut::Memory);
        };
        self.push_item(row, last)
    }

    /// The same where the next row stands.
    fn push_gap_row(
        &mut self,
        alloc: Global,
        doubtful: bool,
        first: u32,
        last: u32,
    ) -> Result<(), NotPut>
        ensures { OnOk result (self.new ≡ with_gap_row doubtful self.old first last) }
    {
        self.come_round(alloc)?;
        self.push_gap_in(alloc, doubtful, first, last)
    }

    /// What of a gap lies behind the last number.
    fn push_rest(&mut self, alloc: Global, doubtful: bool, before: u32) -> Result<(), NotPut>
        ensures { OnOk result (self.new ≡ with_rest doubtful self.old before) }
    {
        if before <= 1 {
            return Ok(());
        }
        self.push_gap_row(alloc, doubtful, 1, before - 1)
    }

    /// A gap.
    fn push_gap(&mut self, alloc: Global, doubtful: bool, gap: Gap) -> Result<(), NotPut>
        ensures { OnOk result (self.new ≡ with_gap doubtful self.old gap.first gap.before) }
    {
        if gap.before <= gap.first {
            self.push_gap_row(alloc, doubtful, gap.first, LAST)?;
            return self.push_rest(alloc, doubtful, gap.before);
        }
        self.push_gap_row(alloc, doubtful, gap.first, gap.before - 1)
    }

    /// One that there may be.
    fn push_gaps(&mut self, alloc: Global, doubtful: bool, gap: Option<Gap>) -> Result<(), NotPut>
        ensures { OnOk result (self.new ≡ with_gaps doubtful self.old (gap_items gap)) }
    {
        match gap {
            Some(gap) => self.push_gap(alloc, doubtful, gap),
            None => Ok(()),
        }
    }

    /// A record in the epoch.
    fn push_record_in(&mut self, alloc: Global, held: Numbered) -> Result<(), NotPut>
        ensures { OnOk result (self.new ≡ with_record_in self.old held) }
    {
        let Ok(row) = record_row(alloc, self.place, held) else {
            return Err(NotPut::Memory);
        };
        self.push_item(row, held.number)
    }

    /// The same where the next row stands.
    fn push_record(&mut self, alloc: Global, held: Numbered) -> Result<(), NotPut>
        ensures { OnOk result (self.new ≡ with_record self.old held) }
    {
        self.come_round(alloc)?;
        self.push_record_in(alloc, held)
    }

    /// Records.
    fn push_records(&mut self, alloc: Global, records: &[Numbered]) -> Result<(), NotPut>
        ensures { OnOk result (self.new ≡ with_records self.old records.now) }
    {
        for held in records {
            self.push_record(alloc, *held)?;
        }
        Ok(())
    }

    /// The beginning of the first epoch.
    fn push_beginning(&mut self, alloc: Global, begins: Beginning) -> Result<(), NotPut>
        ensures { OnOk result (self.new ≡ with_beginning self.old begins.counted begins.number
            (why_first begins.counted)) }
    {
        if begins.counted {
            return self.begin_for(alloc, begins.number, "counted");
        }
        self.lower(begins.number)
    }

    /// The same where the next row stands, if there is one.
    fn push_first(&mut self, alloc: Global, begins: Option<Beginning>) -> Result<(), NotPut>
        ensures { OnOk result (self.new ≡ with_first self.old begins) }
    {
        match begins {
            Some(begins) => {
                self.come_round(alloc)?;
                self.push_beginning(alloc, begins)
            }
            None => Ok(()),
        }
    }

    /// The log began anew, if it did.
    fn push_anew(&mut self, alloc: Global, anew: bool, line: Option<Line>) -> Result<(), NotPut>
        ensures { OnOk result (self.new ≡ with_anew self.old anew line) }
    {
        if anew {
            return self.begin_next(alloc, why_anew(line));
        }
        Ok(())
    }

    /// All that a turn brings.
    fn push_turn(&mut self, alloc: Global, turn: &Turn) -> Result<(), NotPut>
        ensures { OnOk result ((p : PollState) → self.new
            ≡ with_turn self.old (turned p turn.now)) }
    {
        self.push_first(alloc, turn.begins)?;
        self.push_gaps(alloc, turn.doubtful, turn.missing)?;
        self.push_anew(alloc, turn.anew, turn.line)?;
        self.push_gaps(alloc, false, turn.gap)?;
        self.push_records(alloc, turn.entries.as_slice())
    }
}

/// The rows of a turn, from a place on, and where the next row stands then.
pub fn put_turn(alloc: Global, place: Place, turn: &Turn) -> Result<(Place, Vec<Put>), NotPut>
    ensures { IfOk result (λ placed. (p : PollState) → IsPut (place_as place) (turned p turn.now)
        (place_as placed.0) (map put_as placed.1.items)) }
{
    let mut putting = Putting::from(alloc, place);
    putting.push_turn(alloc, turn)?;
    Ok((putting.place, putting.puts))
}
