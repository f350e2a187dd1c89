//! Dropped, or another life: what became of numbers that aren't held.

ghost use Rattle.std.specs.Prelude.{◌≡◌, IfOk};
ghost use Rattle.bac_poll_steps.specs.State.{told_as};
ghost use Rattle.bac_poll_steps.specs.Turns.{turned};
ghost use Rattle.bac_poll_steps.specs.Gone.{asks_restart, asks_revision, asks_word, brings_both};
ghost use Rattle.bac_poll_steps.specs.Gone.{brings_doubtful, brings_gone, by_gone, by_word};
ghost use Rattle.bac_poll_steps.specs.Gone.{gone_behind, gone_by, gone_of, gone_of_none};
ghost use Rattle.bac_poll_steps.specs.Gone.{has_logged, is_behind, is_earlier, is_outlived};
ghost use Rattle.bac_poll_steps.specs.Gone.{retold};

use crate::stage::Stage;
use crate::state::LogState;
use crate::turn::{Line, Turn, gap_up_to};
use bac_known::{DateTime, Told, Word, first_in, is_known, number_behind, number_or, word_of};
use bac_walk::Numbered;
use std::alloc::{AllocError, Global};

/// What the evidence says of the numbers up to the oldest that is held.
#[derive(Clone, Copy, Debug, PartialEq, Eq)]
pub enum Gone {
    /// They were dropped.
    Dropped,
    /// They were dropped, or the log began anew: the gap is doubtful.
    Doubtful,
    /// Both are told: they were dropped, and the log began anew.
    Both,
}

// By the word alone.
fn gone_of_none(word: Word) -> Gone
    ensures { result ≡ gone_of_none word }
{
    match word {
        Word::Same => Gone::Dropped,
        Word::Untold => Gone::Doubtful,
        Word::Changed => Gone::Both,
    }
}

// Whether the newest that is kept of the epoch, if there is one, is dated before the oldest.
fn is_behind(newest: Option<DateTime>, stamp: &DateTime) -> bool
    ensures { result ≡ is_behind newest stamp.now }
{
    match newest {
        Some(kept) => kept.is_before(stamp),
        None => true,
    }
}

// Whether there is one, and the oldest is dated before it.
fn is_earlier(stamp: &DateTime, newest: Option<DateTime>) -> bool
    ensures { result ≡ is_earlier stamp.now newest }
{
    match newest {
        Some(kept) => stamp.is_before(&kept),
        None => false,
    }
}

impl LogState {
    // Whether the log outlived the restart that is told.
    fn is_outlived(&self, stamp: &DateTime) -> bool
        ensures { result ≡ is_outlived self.now stamp.now }
    {
        is_behind(self.stamp, stamp) && stamp.is_before(&self.again.moment)
    }

    // By the word, where the oldest isn't dated before the newest that is kept.
    fn gone_by(&self, stamp: &DateTime, word: Word) -> Gone
        ensures { result ≡ gone_by self.now stamp.now word }
    {
        match word {
            Word::Same => Gone::Dropped,
            Word::Untold => Gone::Doubtful,
            Word::Changed => {
                if self.is_outlived(stamp) {
                    Gone::Doubtful
                } else {
                    Gone::Both
                }
            }
        }
    }

    // What the evidence says where something was logged in the epoch.
    fn gone_behind(&self, oldest: Option<Numbered>, word: Word) -> Gone
        ensures { result ≡ gone_behind self.now oldest word }
    {
        match oldest {
            Some(held) => {
                let stamp = DateTime::of(&held.entry);
                if is_earlier(&stamp, self.stamp) {
                    return Gone::Both;
                }
                self.gone_by(&stamp, word)
            }
            None => gone_of_none(word),
        }
    }

    /// Whether something was logged before the number that comes next.
    pub fn has_logged(&self) -> bool
        ensures { result ≡ has_logged self.now }
    {
        is_known(&self.newest) || self.stamp.is_some() || 1 < self.next
    }

    // What the evidence says, of the oldest that is held.
    fn gone_of(&self, oldest: Option<Numbered>, word: Word) -> Gone
        ensures { result ≡ gone_of self.now oldest word }
    {
        if self.has_logged() {
            self.gone_behind(oldest, word)
        } else {
            Gone::Dropped
        }
    }

    // The gap ends where these are kept.
    fn bring_gone(
        &mut self,
        alloc: Global,
        first: u32,
        held: Vec<Numbered>,
    ) -> Result<Turn, AllocError>
        ensures { IfOk result (λ turn. turned self.new turn
            ≡ brings_gone self.old first held.items) }
    {
        let missing = gap_up_to(self.next, first);
        self.stand_at(first);
        let mut turn = self.bring(alloc, held)?;
        turn.missing = missing;
        Ok(turn)
    }

    // Nobody can tell whether there is any.
    fn bring_doubtful(
        &mut self,
        alloc: Global,
        first: u32,
        held: Vec<Numbered>,
    ) -> Result<Turn, AllocError>
        ensures { IfOk result (λ turn. turned self.new turn
            ≡ brings_doubtful self.old first held.items) }
    {
        let next = self.next;
        let mut turn = self.bring_gone(alloc, first, held)?;
        turn.doubtful = true;
        turn.line = Some(Line::DroppedOrBegan(next, first));
        Ok(turn)
    }

    // The gap in the old epoch, and one in a new one.
    fn bring_both(
        &mut self,
        alloc: Global,
        told: Told,
        first: u32,
        held: Vec<Numbered>,
    ) -> Result<Turn, AllocError>
        ensures { IfOk result (λ turn. turned self.new turn
            ≡ brings_both self.old (told_as told) first held.items) }
    {
        let missing = gap_up_to(self.next, first);
        self.stand_anew(told);
        self.stand_at(first);
        let turn = self.bring(alloc, held)?;
        let mut turn = self.begun(turn, Line::BeganOrDropped);
        turn.missing = missing;
        turn.gap = gap_up_to(1, first);
        Ok(turn)
    }

    // The word that was told again is the one that is told.
    fn retell(&mut self, alloc: Global) -> Result<(), AllocError>
        ensures { IfOk result (λ _. self.new ≡ retold self.old) }
    {
        self.told = self.again.copied(alloc)?;
        Ok(())
    }

    // By the evidence.
    fn go_by_gone(
        &mut self,
        alloc: Global,
        first: u32,
        held: Vec<Numbered>,
        gone: Gone,
    ) -> Result<Turn, AllocError>
        ensures { IfOk result (λ turn. turned self.new turn
            ≡ by_gone self.old first held.items gone) }
    {
        match gone {
            Gone::Dropped => {
                self.retell(alloc)?;
                self.confirm(alloc)?;
                self.bring_gone(alloc, first, held)
            }
            Gone::Doubtful => {
                self.retell(alloc)?;
                self.confirm(alloc)?;
                self.bring_doubtful(alloc, first, held)
            }
            Gone::Both => {
                let told = self.told.copied(alloc)?;
                self.retell(alloc)?;
                self.bring_both(alloc, told, first, held)
            }
        }
    }

    /// The word was told again.
    pub fn go_by_word(&mut self, alloc: Global, held: Vec<Numbered>) -> Result<Turn, AllocError>
        ensures { IfOk result (λ turn. turned self.new turn ≡ by_word self.old held.items) }
    {
        let oldest = first_in(&held);
        let first = number_or(number_behind(self.total), oldest);
        let word = word_of(&self.word, &self.again);
        let gone = self.gone_of(oldest, word);
        self.go_by_gone(alloc, first, held, gone)
    }

    /// The restart is asked for again, if one is on record.
    pub fn ask_restart(&mut self, alloc: Global, held: Vec<Numbered>) -> Result<Turn, AllocError>
        ensures { IfOk result (λ turn. turned self.new turn
            ≡ asks_restart self.old held.items self.old.word.restart) }
    {
        if self.word.restart.as_slice().is_empty() {
            return self.go_by_word(alloc, held);
        }
        self.held = held;
        Ok(self.ask_at(alloc, Stage::Restart, self.reference))
    }

    // The revision, if one is on record, and then the restart.
    fn ask_revision(&mut self, alloc: Global, held: Vec<Numbered>) -> Result<Turn, AllocError>
        ensures { IfOk result (λ turn. turned self.new turn
            ≡ asks_revision self.old held.items self.old.word.revision) }
    {
        match self.word.revision {
            Some(_) => {
                self.held = held;
                Ok(self.ask_at(alloc, Stage::Revision, self.reference))
            }
            None => self.ask_restart(alloc, held),
        }
    }

    /// Each part of the word on record is asked for again.
    pub fn ask_word(&mut self, alloc: Global, held: Vec<Numbered>) -> Result<Turn, AllocError>
        ensures { IfOk result (λ turn. turned self.new turn ≡ asks_word self.old held.items) }
    {
        self.again = self.told.copied(alloc)?;
        self.ask_revision(alloc, held)
    }
}
