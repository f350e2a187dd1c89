//! What is known of a trend log that is polled.

ghost use Rattle.std.specs.Prelude.{◌≡◌, ◌↔◌, IfSome, IsSome};
ghost use Rattle.bac_poll_steps.specs.Asked.{after_too_many};
ghost use Rattle.bac_poll_steps.specs.Begins.{first_reference, first_stage, joining, kept_number};
ghost use Rattle.bac_poll_steps.specs.Begins.{starting};
ghost use Rattle.bac_poll_steps.specs.State.{PollState, maybe_kept, standing_as, told_as};

use crate::stage::{Aim, Stage};
use bac_apdu::object_type::TREND_LOG;
use bac_known::{DateTime, Kept, Told, number_before};
use bac_walk::{Count, Numbered};
use bac_wire::ObjectId;
use std::alloc::Global;
use std::marker::Model;

/// Where a log stands by its rows: the number that comes next, up to three records right before it
/// in the same epoch, the date and time of the newest record of the epoch, if it has one, and the
/// word of its device on record.
#[derive(Drop)]
pub struct Standing {
    pub next: u32,
    pub newest: Option<Kept>,
    pub earlier: Option<Kept>,
    pub earliest: Option<Kept>,
    pub stamp: Option<DateTime>,
    pub word: Told,
}

/// What is known of a trend log that is polled.
#[derive(Drop)]
pub struct LogState {
    /// The log.
    pub log: ObjectId,
    /// How many records a question asks for.
    pub count: Count,
    /// The Device object of its device.
    pub device: ObjectId,
    /// What the next answer is for.
    pub stage: Stage,
    /// The number from which that asks, or up to which.
    pub reference: u32,
    /// The sequence number that comes next.
    pub next: u32,
    /// The record right before that, if it is known.
    pub newest: Option<Kept>,
    /// The one before it.
    pub earlier: Option<Kept>,
    /// And the one before that.
    pub earliest: Option<Kept>,
    /// The newest was asked for by its own number, not behind an earlier one.
    pub alone: bool,
    /// The date and time of the newest record of the epoch, if it has one.
    pub stamp: Option<DateTime>,
    /// What its device told when the log was last found at its place.
    pub word: Told,
    /// What it told before its records were asked for.
    pub told: Told,
    /// The same told again.
    pub again: Told,
    /// How many epochs the poll began, two at most.
    pub lives: u32,
    /// The last reply with records said that more is there.
    pub more: bool,
    /// Where the first epoch begins by the count of a run before that ended behind it.
    pub begins: Option<u32>,
    /// The same, or by the count of this run.
    pub counted: Option<u32>,
    /// Total_Record_Count.
    pub total: u32,
    /// That was refused.
    pub refused: bool,
    /// How many numbers the poll went back, before the first of records.
    pub back: u64,
    /// Records that came and aren't kept yet.
    pub held: Vec<Numbered>,
}

impl Model for LogState {
    ghost use Rattle.bac_walk.specs.Place.{asking, walk_from_oldest};
    ghost use Rattle.bac_poll_steps.specs.State.{PollState, maybe_kept, told_as};

    ghost Value = { PollState };

    ghost view = { λ p. record {
      walk = asking p.count (walk_from_oldest p.log);
      device = p.device;
      stage = p.stage;
      reference = p.reference;
      next = p.next;
      newest = maybe_kept p.newest;
      earlier = maybe_kept p.earlier;
      earliest = maybe_kept p.earliest;
      alone = p.alone;
      stamp = p.stamp;
      word = told_as p.word;
      told = told_as p.told;
      again = told_as p.again;
      lives = p.lives;
      more = p.more;
      begins = p.begins;
      counted = p.counted;
      total = p.total;
      refused = p.refused;
      back = p.back;
      held = p.held.items;
    } };
}

impl LogState {
    /// What is known of a log whose rows stand there, before it is asked for so many records at a
    /// time. Its device told this before. `None` if the object isn't a trend log.
    pub fn behind(
        alloc: Global,
        log: ObjectId,
        device: ObjectId,
        many: Count,
        at: Standing,
        told: Told,
    ) -> Option<LogState>
        ensures some { IfSome result (λ p. p
            ≡ joining log device many (standing_as at) (told_as told)) }
        ensures is_some { IsSome result ↔ log.kind ≡ 20 }
    {
        if log.kind() != TREND_LOG {
            return None;
        }
        let stage = first_stage(&at.newest, at.next);
        let reference = first_reference(&at);
        let alone = at.earlier.is_none();
        let Standing {
            next,
            newest,
            earlier,
            earliest,
            stamp,
            word,
        } = at;
        Some(LogState {
            log,
            count: many,
            device,
            stage,
            reference,
            next,
            newest,
            earlier,
            earliest,
            alone,
            stamp,
            word,
            told,
            again: Told::nothing(alloc),
            lives: 0,
            more: false,
            begins: None,
            counted: None,
            total: 0,
            refused: false,
            back: 0,
            held: Vec::new(alloc),
        })
    }

    /// A first run of a log. Of one before that ended behind its count, the beginning by that count
    /// and the word on record. `None` if the object isn't a trend log.
    pub fn starting(
        alloc: Global,
        log: ObjectId,
        device: ObjectId,
        many: Count,
        begins: Option<u32>,
        word: Told,
        told: Told,
    ) -> Option<LogState>
        ensures some { IfSome result (λ p. p
            ≡ starting log device many begins (told_as word) (told_as told)) }
        ensures is_some { IsSome result ↔ log.kind ≡ 20 }
    {
        if log.kind() != TREND_LOG {
            return None;
        }
        Some(LogState {
            log,
            count: many,
            device,
            stage: Stage::Counts(Aim::Starts),
            reference: 1,
            next: 1,
            newest: None,
            earlier: None,
            earliest: None,
            alone: false,
            stamp: None,
            word,
            told,
            again: Told::nothing(alloc),
            lives: 0,
            more: false,
            begins,
            counted: begins,
            total: 0,
            refused: false,
            back: 0,
            held: Vec::new(alloc),
        })
    }

    /// What the next answer is for.
    pub fn stage(&self) -> Stage
        ensures { result ≡ self.now.stage }
    {
        self.stage
    }

    /// The sequence number that comes next.
    pub fn next(&self) -> u32
        ensures { result ≡ self.now.next }
    {
        self.next
    }

    /// The word of its device that is on record for this log from now on.
    pub fn word(&self) -> &Told
        ensures { told_as result.now ≡ self.now.word }
    {
        &self.word
    }

    /// The device can't send so many records at once (Abort 1, 4 or 11, clause 18.10): half as many
    /// are asked for from now on, one at least. The question is asked again, if it asked for more
    /// than one.
    pub fn too_many(&mut self)
        ensures { self.new ≡ after_too_many self.old }
    {
        let number = self.count.number();
        let half = if number <= 1 { 1 } else { number / 2 };
        match Count::new(half) {
            Some(count) => self.count = count,
            None => unreachable!(),
        }
    }

    /// How many records a question asks for: of the next log of its device, too.
    pub fn count(&self) -> Count
        ensures { result ≡ self.now.walk.count }
    {
        self.count
    }
}

// What is asked first of a log that stands there.
fn first_stage(newest: &Option<Kept>, next: u32) -> Stage
    ensures { result ≡ first_stage (maybe_kept newest.now) next }
{
    match newest {
        Some(_) => Stage::Joins,
        None => {
            if next == 1 {
                Stage::Oldest(Aim::Finds)
            } else {
                Stage::Prior
            }
        }
    }
}

// The number of a known record, or that one.
fn kept_number(kept: &Option<Kept>, number: u32) -> u32
    ensures { result ≡ kept_number (maybe_kept kept.now) number }
{
    match kept {
        Some(kept) => kept.number,
        None => number,
    }
}

// From which number.
fn first_reference(at: &Standing) -> u32
    ensures { result ≡ first_reference (standing_as at.now) }
{
    let before = number_before(at.next);
    let newest = kept_number(&at.newest, before);
    let earlier = kept_number(&at.earlier, newest);
    kept_number(&at.earliest, earlier)
}
