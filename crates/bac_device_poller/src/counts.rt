//! How much was kept of a log in a run.

ghost use Rattle.std.specs.Prelude.{◌≡◌, ◌+◌, count_by, length, min};
ghost use Rattle.bac_poll.specs.State.{PollState};
ghost use Rattle.bac_poll.specs.Turns.{turned};
ghost use Rattle.bac_walk.specs.Walks.{gap_items};
ghost use Rattle.bac_device_poller.specs.Turns.{counts_with_turn};
ghost use Rattle.bac_device_poller.specs.Counts.{counts_with, is_gap, is_record, no_counts};

use bac_archive::Put;
use bac_drive::Next;
use bac_poll::Turn;
use bac_walk::Gap;

/// How many records, and how many gaps.
#[derive(Clone, Copy, Debug, PartialEq, Eq)]
pub struct Counts {
    pub records: u64,
    pub gaps: u64,
}

impl Counts {
    pub fn none() -> Counts
        ensures { result ≡ no_counts }
    {
        Counts {
            records: 0,
            gaps: 0,
        }
    }

    /// With what is put, if that is wanted. At the greatest number a count stays.
    pub fn with(self, next: &Next) -> Counts
        ensures { result ≡ counts_with next.now self }
    {
        match next {
            Next::Keep(puts) => self.with_puts(puts.as_slice()),
            Next::Send(_, _) => self,
            Next::Wait(_) => self,
            Next::Read => self,
            Next::Print(_) => self,
            Next::Warn(_) => self,
            Next::End => self,
        }
    }

    /// With what a turn of a log brings.
    pub(crate) fn with_turn(self, turn: &Turn) -> Counts
        ensures { (p : PollState) → result ≡ counts_with_turn (turned p turn.now) self }
    {
        Counts {
            records: self.records.saturating_add(turn.entries.len() as u64),
            gaps: self
                .gaps
                .saturating_add(count_gap(turn.missing) + count_gap(turn.gap)),
        }
    }

    fn with_puts(self, puts: &[Put]) -> Counts
        ensures records { result.records
            ≡ min (self.records + count_by is_record puts.now) 18446744073709551615 }
        ensures gaps { result.gaps
            ≡ min (self.gaps + count_by is_gap puts.now) 18446744073709551615 }
    {
        Counts {
            records: self.records.saturating_add(count_records(puts) as u64),
            gaps: self.gaps.saturating_add(count_gaps(puts) as u64),
        }
    }
}

/// Whether a put is a record.
fn is_record(put: &Put) -> bool
    ensures { result ≡ is_record put.now }
{
    match put {
        Put::Item(row) => row.last.is_none(),
        _ => false,
    }
}

/// Whether it is a gap.
fn is_gap(put: &Put) -> bool
    ensures { result ≡ is_gap put.now }
{
    match put {
        Put::Item(row) => row.last.is_some(),
        _ => false,
    }
}

/// How many of these are records.
fn count_records(puts: &[Put]) -> usize
    ensures { result ≡ count_by is_record puts.now }
{
    let mut count = 0;
    for put in puts {
        if is_record(put) {
            count += 1;
        }
    }
    count
}

/// How many are gaps.
fn count_gaps(puts: &[Put]) -> usize
    ensures { result ≡ count_by is_gap puts.now }
{
    let mut count = 0;
    for put in puts {
        if is_gap(put) {
            count += 1;
        }
    }
    count
}

/// How many gaps there are: one at most.
fn count_gap(gap: Option<Gap>) -> u64
    ensures { result ≡ length (gap_items gap) }
{
    match gap {
        Some(_) => 1,
        None => 0,
    }
}
