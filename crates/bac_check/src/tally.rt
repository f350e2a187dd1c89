//! The rows of an epoch, counted in the order of their numbers, and the numbers that are in none.

ghost use Rattle.std.specs.Prelude.{◌≡◌, ◌<◌, ◌≤◌, ◌+◌, ◌∷◌, ◌++◌, []};
ghost use Rattle.std.specs.Prelude.{IfErr, List, OnOk, Some, if◌then◌else◌, is_none};
ghost use Rattle.bac_check.specs.Holes.{NoneIsMissing, end_of, front_of, if_any, stretch};
ghost use Rattle.bac_check.specs.Tallies.{AllAreCounted, IsTally, IsTallied, doubted_numbers};
ghost use Rattle.bac_check.specs.Tallies.{is_doubted, is_sure, last_in, newest_of};
ghost use Rattle.bac_check.specs.Tallies.{sure_numbers};
ghost use Rattle.bac_check.specs.declared.tally.Span.{Span as SpanOf};
ghost use Rattle.bac_check.specs.Uncounts.{IsNotTaken};

use sqlite::Error;
use std::alloc::{AllocError, AllocFailed, Global};

/// The numbers that a row has: that of a record, or of a gap those up to its last.
#[derive(Clone, Copy)]
pub struct Span {
    pub number: u32,
    /// The last number of a gap.
    pub last: Option<u32>,
    /// Of a gap: it may be none, since the log may have begun anew.
    pub doubtful: bool,
}

/// Numbers that are in no row, from one up to another.
#[derive(Clone, Copy)]
pub struct Hole {
    pub first: u32,
    pub last: u32,
}

/// What is counted of the rows of an epoch, of which there is at least one.
#[derive(Drop)]
pub struct Tally {
    /// The least number that is in a row.
    pub first: u32,
    /// The last row, which has the greatest.
    pub newest: Span,
    pub records: u64,
    /// The gaps that aren't doubtful.
    pub gaps: u64,
    /// How many numbers these have.
    pub gone: u64,
    /// The gaps that are doubtful.
    pub doubtful: u64,
    /// How many numbers these have.
    pub doubted: u64,
    /// The numbers between those two that are in no row.
    pub holes: Vec<Hole>,
}

/// Why rows aren't counted.
#[derive(Clone, Copy)]
pub enum Uncounted {
    /// In the epoch with this id a row doesn't lie behind the row before it.
    Overlap { epoch: u32, before: Span, row: Span },
    /// In the epoch with this id a gap ends before its first number.
    Backward { epoch: u32, row: Span },
    /// Out of memory.
    Memory,
    /// The database failed, or a row can't be read.
    Database(Error),
}

impl From<Error> for Uncounted {
    ghost use Rattle.bac_check.specs.declared.tally.Uncounted.TheVariants.{Database};

    ghost from_gives = { λ error why. why ≡ Database error };

    fn from(error: Error) -> Uncounted {
        Uncounted::Database(error)
    }
}

impl From<AllocError> for Uncounted {
    ghost use Rattle.bac_check.specs.declared.tally.Uncounted.TheVariants.{Memory};

    ghost from_gives = { λ _ why. why ≡ Memory };

    fn from(_error: AllocError) -> Uncounted {
        Uncounted::Memory
    }
}

impl<T: Drop> From<AllocFailed<T>> for Uncounted {
    ghost use Rattle.bac_check.specs.declared.tally.Uncounted.TheVariants.{Memory};

    ghost from_gives = { λ _ why. why ≡ Memory };

    fn from(_error: AllocFailed<T>) -> Uncounted {
        Uncounted::Memory
    }
}

impl Span {
    /// Its last number.
    pub(crate) fn end(self) -> u32
        ensures { result ≡ end_of self }
    {
        self.last.unwrap_or(self.number)
    }
}

impl Tally {
    /// The first row.
    fn of(alloc: Global, span: Span) -> Tally
        ensures counted { span.number ≤ end_of span → IsTally (span ∷ []) result }
        ensures newest { result.newest ≡ span }
    {
        let mut tally = Tally {
            first: span.number,
            newest: span,
            records: 0,
            gaps: 0,
            gone: 0,
            doubtful: 0,
            doubted: 0,
            holes: Vec::new(alloc),
        };
        tally.count(span);
        tally
    }

    /// The numbers up to this one are in no row.
    fn leave(&mut self, number: u32) -> Result<(), AllocError>
        ensures same { (self.new.first ≡ self.old.first) × (self.new.newest ≡ self.old.newest)
            × (self.new.records ≡ self.old.records) × (self.new.gaps ≡ self.old.gaps)
            × (self.new.gone ≡ self.old.gone) × (self.new.doubtful ≡ self.old.doubtful)
            × (self.new.doubted ≡ self.old.doubted) }
        ensures holes { last_in self.old < number → OnOk result
            (self.new.holes.items
            ≡ self.old.holes.items ++ stretch (last_in self.old + 1) number) }
    {
        let first = self.newest.end().saturating_add(1);
        if first < number {
            self.holes.push(Hole {
                first,
                last: number - 1,
            })?;
        }
        Ok(())
    }

    /// Counts it as a record or as a gap.
    fn count(&mut self, span: Span)
        ensures same { (self.new.first ≡ self.old.first) × (self.new.newest ≡ self.old.newest)
            × (self.new.holes ≡ self.old.holes) }
        ensures records { self.old.records < 4294967297
            → self.new.records ≡ self.old.records + (if is_none span.last then 1 else 0) }
        ensures gaps { self.old.gaps < 4294967297
            → self.new.gaps ≡ self.old.gaps + (if is_sure span then 1 else 0) }
        ensures gone { self.old.gone < 4294967297 → span.number ≤ end_of span
            → self.new.gone ≡ self.old.gone + sure_numbers span }
        ensures doubtful { self.old.doubtful < 4294967297
            → self.new.doubtful ≡ self.old.doubtful + (if is_doubted span then 1 else 0) }
        ensures doubted { self.old.doubted < 4294967297 → span.number ≤ end_of span
            → self.new.doubted ≡ self.old.doubted + doubted_numbers span }
    {
        let Some(last) = span.last else {
            self.records = self.records.saturating_add(1);
            return;
        };
        let more = u64::from(last.saturating_sub(span.number)) + 1;
        if span.doubtful {
            self.doubtful = self.doubtful.saturating_add(1);
            self.doubted = self.doubted.saturating_add(more);
        } else {
            self.gaps = self.gaps.saturating_add(1);
            self.gone = self.gone.saturating_add(more);
        }
    }

    /// One row more.
    fn extend(&mut self, span: Span) -> Result<(), AllocError>
        ensures counted { (spans : List SpanOf) → IsTally spans self.old
            → last_in self.old < span.number → span.number ≤ end_of span
            → OnOk result (IsTally (spans ++ span ∷ []) self.new) }
        ensures newest { OnOk result (self.new.newest ≡ span) }
    {
        self.leave(span.number)?;
        self.count(span);
        self.newest = span;
        Ok(())
    }
}

/// Counts a row of the epoch with this id, which has to lie behind those that were counted: one
/// that doesn't is refused, and nothing is counted.
pub fn take(
    alloc: Global,
    epoch: u32,
    tally: &mut Option<Tally>,
    span: Span,
) -> Result<(), Uncounted>
    ensures counted { (spans : List SpanOf) → IsTallied spans tally.old
        → OnOk result (IsTallied (spans ++ span ∷ []) tally.new) }
    ensures newest { OnOk result (newest_of tally.new ≡ Some span) }
    ensures uncounted { IfErr result (IsNotTaken epoch tally.old span) }
{
    if span.end() < span.number {
        return Err(Uncounted::Backward { epoch, row: span });
    }
    match tally {
        None => {
            *tally = Some(Tally::of(alloc, span));
            Ok(())
        }
        Some(counted) => {
            let before = counted.newest;
            if span.number <= before.end() {
                return Err(Uncounted::Overlap {
                    epoch,
                    before,
                    row: span,
                });
            }
            match counted.extend(span) {
                Ok(()) => Ok(()),
                Err(_) => Err(Uncounted::Memory),
            }
        }
    }
}

/// The numbers from the beginning of an epoch up to the first that is in a row, if there are any.
pub fn front_hole(from: u32, first: u32) -> Option<Hole>
    ensures { front_of (Some from) first ≡ if_any result }
{
    if from < first {
        return Some(Hole {
            first: from,
            last: first - 1,
        });
    }
    None
}

/// No number is missing just if each, up to the last that is in a row, is in one row.
pub fn none_is_missing()
    ensures { NoneIsMissing }
{}

/// Each number from the beginning of an epoch up to its last row's is counted once: as a record, as
/// missed by a gap or by a doubtful one, or as missing.
pub fn all_are_counted()
    ensures { AllAreCounted }
{}
