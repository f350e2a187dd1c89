//! New epochs: where another life of the log is told.

ghost use Rattle.std.specs.Prelude.{◌≡◌, IfOk};
ghost use Rattle.bac_poll_steps.specs.Turns.{anew, turned};
ghost use Rattle.bac_poll_steps.specs.Epochs.{another, another_by, another_of, asks_back};
ghost use Rattle.bac_poll_steps.specs.Epochs.{asks_oldest};
ghost use Rattle.bac_poll_steps.specs.Epochs.{brings_behind, renews, renews_none, renews_of};

use crate::stage::{Aim, Stage};
use crate::state::LogState;
use crate::turn::{Line, PollEnd, Turn, gap_up_to};
use bac_known::{first_in, first_number, number_behind, number_or};
use bac_walk::Numbered;
use std::alloc::{AllocError, Global};

impl LogState {
    /// A turn with which an epoch begins.
    pub fn begun(&self, turn: Turn, line: Line) -> Turn
        ensures { turned self.now result ≡ anew (turned self.now turn) line }
    {
        let mut turn = turn;
        turn.anew = true;
        turn.line = Some(line);
        turn
    }

    /// The oldest are asked for.
    pub fn ask_oldest(&mut self, alloc: Global, aim: Aim) -> Turn
        ensures { turned self.new result ≡ asks_oldest self.old aim }
    {
        self.ask_at(alloc, Stage::Oldest(aim), self.reference)
    }

    /// Those before the first of these are asked for.
    pub fn ask_back(&mut self, alloc: Global, aim: Aim, records: Vec<Numbered>) -> Turn
        ensures { turned self.new result ≡ asks_back self.old aim records.items }
    {
        let reference = first_number(&records);
        self.held = records;
        self.ask_at(alloc, Stage::Back(aim), reference)
    }

    /// They are kept, behind a gap from where the log stands.
    pub fn bring_behind(
        &mut self,
        alloc: Global,
        records: Vec<Numbered>,
    ) -> Result<Turn, AllocError>
        ensures { IfOk result (λ turn. turned self.new turn
            ≡ brings_behind self.old records.items) }
    {
        let missing = gap_up_to(self.next, number_or(self.next, first_in(&records)));
        let mut turn = self.bring(alloc, records)?;
        turn.missing = missing;
        Ok(turn)
    }

    /// An epoch has begun, and these are the oldest that are held.
    pub fn renew(&mut self, alloc: Global, records: Vec<Numbered>) -> Result<Turn, AllocError>
        ensures { IfOk result (λ turn. turned self.new turn ≡ renews self.old records.items) }
    {
        if first_number(&records) == 1 {
            self.bring(alloc, records)
        } else {
            Ok(self.ask_back(alloc, Aim::Renews, records))
        }
    }

    /// An epoch has begun and holds nothing.
    pub fn renew_none(&mut self, alloc: Global) -> Turn
        ensures { turned self.new result ≡ renews_none self.old self.old.total }
    {
        let next = number_behind(self.total);
        let missing = gap_up_to(self.next, next);
        self.stand_at(next);
        let mut turn = self.ends(alloc, PollEnd::CaughtUp);
        turn.missing = missing;
        turn
    }

    /// Another life.
    pub fn tell_another(&mut self, alloc: Global) -> Result<Turn, AllocError>
        ensures { IfOk result (λ turn. turned self.new turn ≡ another self.old) }
    {
        if self.lives == 2 {
            return Ok(self.ends(alloc, PollEnd::Contradicts));
        }
        let word = self.told.copied(alloc)?;
        self.stand_anew(word);
        let turn = self.ask_oldest(alloc, Aim::Renews);
        Ok(self.begun(turn, Line::BeganAnew))
    }

    /// The same, told by its oldest records.
    pub fn tell_another_by(
        &mut self,
        alloc: Global,
        records: Vec<Numbered>,
    ) -> Result<Turn, AllocError>
        ensures { IfOk result (λ turn. turned self.new turn ≡ another_by self.old records.items) }
    {
        if self.lives == 2 {
            return Ok(self.ends(alloc, PollEnd::Contradicts));
        }
        let word = self.told.copied(alloc)?;
        self.stand_anew(word);
        let turn = self.renew(alloc, records)?;
        Ok(self.begun(turn, Line::BeganAnew))
    }

    /// An epoch has begun and shows no record by time.
    pub fn renew_of(&mut self, alloc: Global, total: u32) -> Turn
        ensures { turned self.new result ≡ renews_of self.old total }
    {
        if total == 0 {
            return self.ends(alloc, self.end());
        }
        self.total = total;
        self.ask_at(alloc, Stage::UpTo(Aim::Renews), total)
    }

    /// Another life, told by its count.
    pub fn tell_another_of(&mut self, alloc: Global, total: u32) -> Result<Turn, AllocError>
        ensures { IfOk result (λ turn. turned self.new turn ≡ another_of self.old total) }
    {
        if self.lives == 2 {
            return Ok(self.ends(alloc, PollEnd::Contradicts));
        }
        let word = self.told.copied(alloc)?;
        self.stand_anew(word);
        let turn = self.renew_of(alloc, total);
        Ok(self.begun(turn, Line::BeganAnew))
    }
}
