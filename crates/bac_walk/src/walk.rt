//! A walk of a log: which question comes next, and what an answer brings.
ghost use Rattle.std.specs.Prelude.{◌≡◌, ◌+◌, ◌<◌, ◌↔◌, true, false, IfSome, IsSome};
ghost use Rattle.bac_link.specs.Heard.{heard_at};
ghost use Rattle.bac_link.specs.Links.{AsksFor};
ghost use Rattle.bac_link.specs.Requests.{IsTooLong};
ghost use Rattle.bac_link.specs.Ordinals.{distance, number_after, is_ahead};
ghost use Rattle.bac_link.specs.Standard.{IsCount};
ghost use Rattle.bac_walk.specs.Place.{WalkPlace, IsWalk, asking, resumed, walk_at};
ghost use Rattle.bac_walk.specs.Place.{walk_from_oldest};
ghost use Rattle.bac_walk.specs.Walks.{asks_oldest_now, question_of, is_past, fits, gap_items};
ghost use Rattle.bac_walk.specs.Walks.{gap_of, IsTakenFrom};
ghost use Rattle.bac_walk.specs.Replied.{IsJudged};
ghost use Rattle.bac_walk.specs.Spelled.{IsWhole, records_from};

use crate::batch::{Batch, Gap, Numbered};
use crate::count::Count;
use crate::outcome::{BadReply, Progress};
use crate::read::{next_record, said_of};
use crate::reply::Verdict;
use arrayvec::ArrayVec;
use bac_apdu::object_type::TREND_LOG;
use bac_apdu::property_id::LOG_BUFFER;
use bac_apdu::{Extent, ReadRange};
use bac_link::Request;
use bac_wire::{Date4, ObjectId, Time4};
use std::marker::Model;

/// A place in a trend log, from which its records are asked for: so many at a time, 100 if nothing
/// else is said, by their numbers, and if none of these is held, the oldest.
#[derive(Drop)]
pub struct Walk {
    log: ObjectId,
    next: u32,
    // It begins at the oldest record, and had no batch yet.
    fresh: bool,
    // The oldest records are asked for in place of the next.
    asks_oldest: bool,
    // How many records a question asks for.
    count: Count,
}

impl Model for Walk {
    ghost Value = { WalkPlace };

    ghost view = { λ w. record {
      log = w.log;
      next = w.next;
      fresh = w.fresh;
      asks_oldest = w.asks_oldest;
      count = w.count;
    } };

    ghost invariant = { λ w. IsWalk w.log w.next w.fresh w.count };
}

impl Walk {
    /// A walk from this number on; `None` if it is 0, or the object isn't a trend log.
    pub fn from_number(log: ObjectId, s: u32) -> Option<Walk>
        ensures some { IfSome result (λ w. w ≡ walk_at log s) }
        ensures is_some { IsSome result ↔ (0 < s) × (log.kind ≡ 20) }
    {
        if s == 0 || log.kind() != TREND_LOG {
            return None;
        }
        Some(Walk {
            log,
            next: s,
            fresh: false,
            asks_oldest: false,
            count: Count::most(),
        })
    }

    /// A walk from the oldest record on; `None` if the object isn't a trend log.
    pub fn oldest(log: ObjectId) -> Option<Walk>
        ensures some { IfSome result (λ w. w ≡ walk_from_oldest log) }
        ensures is_some { IsSome result ↔ log.kind ≡ 20 }
    {
        if log.kind() != TREND_LOG {
            return None;
        }
        Some(Walk {
            log,
            next: 1,
            fresh: true,
            asks_oldest: false,
            count: Count::most(),
        })
    }

    /// The same walk, whose questions ask for so many records.
    pub fn asking_for(self, count: Count) -> Walk
        ensures { result ≡ asking count self }
    {
        Walk {
            log: self.log,
            next: self.next,
            fresh: self.fresh,
            asks_oldest: self.asks_oldest,
            count,
        }
    }

    /// The same walk again.
    pub fn copy(&self) -> Walk
        ensures { result ≡ self.now }
    {
        Walk {
            log: self.log,
            next: self.next,
            fresh: self.fresh,
            asks_oldest: self.asks_oldest,
            count: self.count,
        }
    }

    /// A new walk from the next number on, which asks for as many records.
    pub fn resumed(&self) -> Walk
        ensures { result ≡ resumed self.now }
    {
        Walk {
            log: self.log,
            next: self.next,
            fresh: false,
            asks_oldest: false,
            count: self.count,
        }
    }

    /// The number that the walk asks for next; 1 if it begins at the oldest record and had no
    /// batch yet.
    pub fn next_number(&self) -> u32
        ensures next { result ≡ self.now.next }
        ensures some { 0 < result }
        ensures first { self.now.fresh ≡ true → result ≡ 1 }
    {
        self.next
    }

    /// What to ask next: so many records from the next number on, or from the oldest. It always
    /// fits a request.
    pub fn question(&self) -> Request
        ensures asks { AsksFor self.now.log (question_of self.now) result }
        ensures fits { IsTooLong result → ⊥ }
    {
        let object = self.log();
        // For the prover alone, all four: their numbers are small enough for a request.
        let _kind = object.kind();
        let _instance = object.instance();
        let _next = self.next_number();
        let _count = self.count();
        let extent = self.extent();
        Request::ReadRange(ReadRange {
            object,
            property: LOG_BUFFER,
            index: None,
            extent,
        })
    }

    // The records that are asked for: from the next number on, or from the oldest held on, as those
    // newer than 1900-01-01T00:00:00.00.
    fn extent(&self) -> Extent
        ensures { result ≡ question_of self.now }
    {
        let count = i32::from(self.count.number());
        if self.asks_oldest_now() {
            Extent::ByTime {
                date: Date4 {
                    year: 0,
                    month: 1,
                    day: 1,
                    weekday: 1,
                },
                time: Time4 {
                    hour: 0,
                    minute: 0,
                    second: 0,
                    hundredth: 0,
                },
                count,
            }
        } else {
            Extent::ByNumber {
                reference: self.next,
                count,
            }
        }
    }

    /// Back to the question by number, or for a walk from the oldest record without a batch to the
    /// one by time.
    pub fn restart(&mut self)
        ensures { self.new ≡ record self.old { asks_oldest = false } }
    {
        self.asks_oldest = false;
    }

    /// Takes the service parameters of the ACK that answers the question (clause 15.8). Records
    /// that were asked for are a batch, with a gap before them if they begin after the next number;
    /// numbers come round, and half of them lie ahead. Without records, the oldest are asked for
    /// next; if none newer than the walk is there either, it is caught up. `BadReply`, with the
    /// walk as it was, if the ACK is that of another object or property or has an index, an item is
    /// no record, records have no first number, or count, records and what was asked for don't
    /// agree. The flags aren't looked at.
    pub fn take(&mut self, ack: &[u8]) -> Result<Progress, BadReply>
        ensures { IsTakenFrom self.old (heard_at self.old.log ack.now) result self.new }
    {
        match self.judge(ack) {
            Ok(Verdict::Records { gap, first, items }) => {
                let entries = numbered_from(first, items);
                Ok(Progress::Batch(Batch { gap, entries }))
            }
            Ok(Verdict::AskOldest) => Ok(Progress::AskOldest),
            Ok(Verdict::CaughtUp) => Ok(Progress::CaughtUp),
            Err(BadReply) => Err(BadReply),
        }
    }

    /// What `take` makes of the parameters of an ACK. Each of its records is read, and none is
    /// kept.
    pub(crate) fn judge<'a>(&mut self, ack: &'a [u8]) -> Result<Verdict<'a>, BadReply>
        ensures { IsJudged self.old ack.now result self.new }
    {
        let Some(said) = said_of(self.log(), ack) else {
            return Err(BadReply);
        };
        let total = said.total;
        if total == 0 {
            if self.asks_oldest_now() {
                return Ok(Verdict::CaughtUp);
            }
            self.ask_oldest();
            return Ok(Verdict::AskOldest);
        }
        let Some(first) = said.first else {
            return Err(BadReply);
        };
        if self.is_past(first) {
            return Ok(Verdict::CaughtUp);
        }
        if said.count != total as u64 || !self.fits(first, total) {
            return Err(BadReply);
        }
        // For the prover alone: no more than 100 are asked for.
        let _most = self.asked_count();
        let gap = self.gap_up_to(first);
        self.go_on_at(number_after(first, total as u32));
        let items = said.items;
        Ok(Verdict::Records { gap, first, items })
    }

    /// The trend log.
    pub fn log(&self) -> ObjectId
        ensures log { result ≡ self.now.log }
        ensures kind { result.kind ≡ 20 }
    {
        self.log
    }

    // It goes on at this number.
    pub(crate) fn go_on_at(&mut self, next: u32)
        requires { 0 < next }
        ensures { self.new ≡ record self.old { next = next; fresh = false; asks_oldest = false } }
    {
        self.next = next;
        self.fresh = false;
        self.asks_oldest = false;
    }

    // It asks for the oldest records next.
    fn ask_oldest(&mut self)
        ensures { self.new ≡ record self.old { asks_oldest = true } }
    {
        self.asks_oldest = true;
    }

    fn asks_oldest_now(&self) -> bool
        ensures { result ≡ asks_oldest_now self.now }
    {
        self.fresh || self.asks_oldest
    }

    // Whether the oldest entries were asked for, and those that came begin before the next number.
    pub(crate) fn is_past(&self, first: u32) -> bool
        ensures { result ≡ is_past self.now first }
    {
        self.asks_oldest_now() && !self.fresh && !is_ahead(self.next, first)
    }

    /// How many records a question asks for.
    pub fn count(&self) -> Count
        ensures count { result ≡ self.now.count }
        ensures bounds { IsCount result }
    {
        self.count
    }

    // The same as a number of records.
    pub(crate) fn asked_count(&self) -> usize
        ensures count { result ≡ self.now.count }
        ensures bounds { IsCount result }
    {
        usize::from(self.count.number())
    }

    // Whether so many entries from this number on were asked for.
    pub(crate) fn fits(&self, first: u32, count: usize) -> bool
        ensures { result ≡ fits self.now first count }
    {
        let most = self.asked_count();
        count <= most
            && 0 < first
            && (self.asks_oldest_now()
                || u64::from(distance(self.next, first)) + count as u64 <= most as u64)
    }

    // The gap before this number.
    fn gap_up_to(&self, first: u32) -> Option<Gap>
        ensures { gap_items result ≡ gap_of self.now first }
    {
        if !self.fresh && distance(self.next, first) > 0 {
            Some(Gap {
                first: self.next,
                before: first,
            })
        } else {
            None
        }
    }
}

// Whether a number is that of the next entry, or of a later one: half of the numbers lie ahead.
fn is_ahead(next: u32, first: u32) -> bool
    ensures { result ≡ is_ahead next first }
{
    distance(next, first) < 2147483648
}

// How many numbers lie from one up to another, round the count.
fn distance(first: u32, before: u32) -> u32
    ensures { result ≡ distance first before }
{
    ((u64::from(before) + 4294967295 - u64::from(first)) % 4294967295) as u32
}

// The number so many places after another: after 4294967295 comes 1.
pub(crate) fn number_after(first: u32, count: u32) -> u32
    ensures { result ≡ number_after first count }
{
    ((u64::from(first) + u64::from(count) + 4294967294) % 4294967295 + 1) as u32
}

/// The records of octets that are right as a whole, each with its number.
pub(crate) fn numbered_from(first: u32, octets: &[u8]) -> ArrayVec<Numbered, 100>
    requires { IsWhole first octets.now }
    ensures { result.items ≡ records_from first octets.now }
{
    let mut numbered = ArrayVec::new();
    let mut number = first;
    let mut rest = octets;
    for taken in 0..octets.len() {
        let Some((entry, after)) = next_record(rest) else {
            return numbered;
        };
        numbered.push(Numbered { number, entry });
        number = number_after(number, 1);
        rest = after;
    }
    numbered
}
