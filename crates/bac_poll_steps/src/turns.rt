//! The steps of which the rule is made.

ghost use Rattle.std.specs.Prelude.{◌≡◌, ◌+◌, ◌<◌, IfOk, Some};
ghost use Rattle.bac_walk.specs.Walks.{gap_items};
ghost use Rattle.bac_poll_steps.specs.State.{kept_as, kept_of, maybe_kept, told_as};
ghost use Rattle.bac_poll_steps.specs.Turns.{asking_from, asks, asks_at, before_last, behind};
ghost use Rattle.bac_poll_steps.specs.Turns.{brings};
ghost use Rattle.bac_poll_steps.specs.Turns.{confirmed};
ghost use Rattle.bac_poll_steps.specs.Turns.{end_of, ends, kept_or, knowing};
ghost use Rattle.bac_poll_steps.specs.Turns.{last_in};
ghost use Rattle.bac_poll_steps.specs.Turns.{third_known};
ghost use Rattle.bac_poll_steps.specs.Turns.{next_life, renewed, standing_at};
ghost use Rattle.bac_poll_steps.specs.Turns.{standing_alone, standing_on, turned};
ghost use Rattle.bac_poll_steps.specs.Known.{heeding, is_steady, means_in};

use crate::stage::Stage;
use crate::state::LogState;
use crate::turn::{PollEnd, Turn};
use bac_known::{
    DateTime, Kept, Means, Told, before_last, is_known, is_other_word, is_steady_with, kept_of,
    kept_or, last_in, means_of, number_behind, shown_in,
};
use bac_walk::Numbered;
use std::alloc::{AllocError, Global};
use std::mem::replace;

impl LogState {
    /// The next question is asked for this, from a number or up to it.
    pub fn ask_at(&mut self, alloc: Global, stage: Stage, reference: u32) -> Turn
        ensures { turned self.new result ≡ asks_at self.old stage reference }
    {
        self.stage = stage;
        self.reference = reference;
        self.asks(alloc)
    }

    /// The next question is asked.
    pub fn asks(&self, alloc: Global) -> Turn
        ensures { turned self.now result ≡ asks self.now }
    {
        Turn::asks(alloc)
    }

    /// Nothing more is asked.
    pub fn ends(&self, alloc: Global, why: PollEnd) -> Turn
        ensures { turned self.now result ≡ ends self.now why }
    {
        Turn::ends(alloc, why)
    }

    /// Nothing is newer.
    pub fn end(&self) -> PollEnd
        ensures { result ≡ end_of self.now }
    {
        if self.more {
            PollEnd::SaysMore
        } else {
            PollEnd::CaughtUp
        }
    }

    /// What follows the newest known record is asked for, from that one on.
    pub fn ask_from(&mut self, number: u32)
        ensures { self.new ≡ asking_from self.old number }
    {
        self.stage = Stage::Joins;
        self.reference = number;
        self.alone = true;
    }

    /// The newest known record is known as it is shown now.
    pub fn stand_on(&mut self, kept: Kept)
        ensures { self.new ≡ standing_on self.old (kept_as kept) }
    {
        let number = kept.number;
        self.newest = Some(kept);
        self.ask_from(number);
    }

    /// The same, and none before it is known.
    pub fn stand_alone(&mut self, kept: Kept)
        ensures { self.new ≡ standing_alone self.old (kept_as kept) }
    {
        self.stand_on(kept);
        self.earlier = None;
        self.earliest = None;
    }

    /// No record right before this number is known.
    pub fn stand_at(&mut self, next: u32)
        ensures { self.new ≡ standing_at self.old next }
    {
        self.next = next;
        self.newest = None;
        self.earlier = None;
        self.earliest = None;
    }

    // These are the newest that are known, and before them those that were.
    fn know(&mut self, newest: Kept, earlier: Option<Kept>, earliest: Option<Kept>)
        ensures { self.new ≡ record self.old {
          newest = Some (kept_as newest);
          earlier = kept_or (maybe_kept earlier) self.old.newest;
          earliest = third_known self.old (maybe_kept earlier) (maybe_kept earliest);
        } }
    {
        let was = replace(&mut self.newest, Some(newest));
        match earlier {
            Some(earlier) => {
                self.earlier = Some(earlier);
                self.earliest = kept_or(earliest, was);
            }
            None => self.earliest = replace(&mut self.earlier, was),
        }
    }

    // The last three of records are known.
    fn know_last(
        &mut self,
        alloc: Global,
        records: &Vec<Numbered>,
        last: Numbered,
    ) -> Result<(), AllocError>
        ensures { IfOk result (λ _. self.new ≡ knowing self.old records.now.items last) }
    {
        let newest = Kept::of(alloc, last)?;
        let earlier = kept_of(alloc, before_last(records, 1))?;
        let earliest = kept_of(alloc, before_last(records, 2))?;
        self.know(newest, earlier, earliest);
        Ok(())
    }

    /// Records are kept, the last of which is this.
    pub fn stand_behind(
        &mut self,
        alloc: Global,
        records: &Vec<Numbered>,
        last: Numbered,
    ) -> Result<(), AllocError>
        ensures { IfOk result (λ _. self.new ≡ behind self.old records.now.items last) }
    {
        self.know_last(alloc, records, last)?;
        self.stamp = Some(DateTime::of(&last.entry));
        self.next = number_behind(last.number);
        self.ask_from(last.number);
        Ok(())
    }

    /// Records are kept.
    pub fn bring(&mut self, alloc: Global, records: Vec<Numbered>) -> Result<Turn, AllocError>
        ensures { IfOk result (λ turn. turned self.new turn ≡ brings self.old records.items) }
    {
        match last_in(&records) {
            Some(last) => {
                self.stand_behind(alloc, &records, last)?;
                let mut turn = self.asks(alloc);
                turn.entries = records;
                Ok(turn)
            }
            None => Ok(self.ends(alloc, self.end())),
        }
    }

    /// The log was found at its place.
    pub fn confirm(&mut self, alloc: Global) -> Result<(), AllocError>
        ensures { IfOk result (λ _. self.new ≡ confirmed self.old) }
    {
        self.word = self.word.with(alloc, &self.told)?;
        Ok(())
    }

    /// An epoch begins, with this word on record.
    pub fn stand_anew(&mut self, word: Told)
        ensures { self.new ≡ renewed self.old (told_as word) }
    {
        self.stand_at(1);
        self.stamp = None;
        self.word = word;
        self.more = false;
        self.lives = next_life(self.lives);
    }

    /// Whether the known records have one value.
    pub fn is_steady(&self) -> bool
        ensures { result ≡ is_steady self.now }
    {
        is_steady_with(&self.newest, &self.earlier) && is_steady_with(&self.newest, &self.earliest)
    }

    // A shift counts only where the word isn't another one.
    fn heed(&self, means: Means) -> Means
        ensures { result ≡ heeding self.now means }
    {
        match means {
            Means::Shifted(by) => {
                if self.is_steady() && is_other_word(&self.word, &self.told) {
                    Means::Another
                } else {
                    Means::Shifted(by)
                }
            }
            Means::Unshown => Means::Unshown,
            Means::Same => Means::Same,
            Means::Partly => Means::Partly,
            Means::Another => Means::Another,
        }
    }

    /// What records say of the known ones.
    pub fn means_in(&self, alloc: Global, records: &[Numbered]) -> Result<Means, AllocError>
        ensures { IfOk result (λ means. means ≡ means_in self.now records.now) }
    {
        let newest = shown_in(alloc, &self.newest, records)?;
        let earlier = shown_in(alloc, &self.earlier, records)?;
        let earliest = shown_in(alloc, &self.earliest, records)?;
        Ok(self.heed(means_of(is_known(&self.earliest), newest, earlier, earliest)))
    }
}

// One more epoch.
fn next_life(lives: u32) -> u32
    ensures { result ≡ next_life lives }
{
    if lives < 2 { lives + 1 } else { 2 }
}
