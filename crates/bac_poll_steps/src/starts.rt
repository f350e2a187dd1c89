//! A first run.

ghost use Rattle.std.specs.Prelude.{◌≡◌, IfOk};
ghost use Rattle.bac_poll_steps.specs.Turns.{turned};
ghost use Rattle.bac_poll_steps.specs.Starts.{beginning, is_doubted, is_first, is_since};
ghost use Rattle.bac_poll_steps.specs.Starts.{stands_from, starts, starts_at};
ghost use Rattle.bac_poll_steps.specs.Starts.{starts_at_count};
ghost use Rattle.bac_poll_steps.specs.Starts.{starts_behind, starts_by, starts_from, starts_here};
ghost use Rattle.bac_poll_steps.specs.Starts.{starts_none};
ghost use Rattle.bac_poll_steps.specs.Starts.{starts_refused, starts_told};

use crate::stage::Aim;
use crate::state::LogState;
use crate::turn::{Beginning, PollEnd, Turn, gap_up_to};
use bac_known::{Word, first_in, first_number, is_ahead, number_behind, number_or, word_of};
use bac_walk::Numbered;
use std::alloc::{AllocError, Global};

impl LogState {
    /// Whether no gap is put in front of this number.
    pub fn is_first(&self, number: u32) -> bool
        ensures { result ≡ is_first self.now number }
    {
        number == 1 && self.next == 1 && !is_since(self.counted)
    }

    // Whether the log may have begun anew since the count of a run before.
    fn is_doubted(&self, word: Word) -> bool
        ensures { result ≡ is_doubted self.now word }
    {
        match word {
            Word::Same => false,
            Word::Untold => self.begins.is_some(),
            Word::Changed => self.begins.is_some(),
        }
    }

    // These are kept from this number on.
    fn stand_from(
        &mut self,
        alloc: Global,
        first: u32,
        held: Vec<Numbered>,
    ) -> Result<Turn, AllocError>
        ensures { IfOk result (λ turn. turned self.new turn
            ≡ stands_from self.old first held.items) }
    {
        self.confirm(alloc)?;
        self.stand_at(first);
        self.bring(alloc, held)
    }

    // The first epoch begins at the oldest that is held.
    fn start_here(
        &mut self,
        alloc: Global,
        first: u32,
        held: Vec<Numbered>,
    ) -> Result<Turn, AllocError>
        ensures { IfOk result (λ turn. turned self.new turn
            ≡ starts_here self.old first held.items) }
    {
        let mut turn = self.stand_from(alloc, first, held)?;
        turn.begins = beginning(first, false);
        Ok(turn)
    }

    // Or behind the count.
    fn start_behind(
        &mut self,
        alloc: Global,
        counted: u32,
        first: u32,
        held: Vec<Numbered>,
    ) -> Result<Turn, AllocError>
        ensures { IfOk result (λ turn. turned self.new turn
            ≡ starts_behind self.old counted first held.items) }
    {
        let doubtful = self.is_doubted(word_of(&self.word, &self.told));
        let mut turn = self.stand_from(alloc, first, held)?;
        turn.begins = beginning(counted, false);
        turn.missing = gap_up_to(counted, first);
        turn.doubtful = doubtful;
        Ok(turn)
    }

    // By the count, if it is told.
    fn start_at(
        &mut self,
        alloc: Global,
        first: u32,
        held: Vec<Numbered>,
    ) -> Result<Turn, AllocError>
        ensures { IfOk result (λ turn. turned self.new turn
            ≡ starts_at self.old first held.items self.old.counted) }
    {
        match self.counted {
            Some(counted) => {
                if is_ahead(counted, first) {
                    self.start_behind(alloc, counted, first, held)
                } else {
                    self.start_here(alloc, first, held)
                }
            }
            None => self.start_here(alloc, first, held),
        }
    }

    /// These are the oldest that are held.
    pub fn start(&mut self, alloc: Global, held: Vec<Numbered>) -> Result<Turn, AllocError>
        ensures { IfOk result (λ turn. turned self.new turn ≡ starts self.old held.items) }
    {
        let first = number_or(number_behind(self.total), first_in(&held));
        self.start_at(alloc, first, held)
    }

    /// Records came first.
    pub fn start_by(&mut self, alloc: Global, records: Vec<Numbered>) -> Result<Turn, AllocError>
        ensures { IfOk result (λ turn. turned self.new turn ≡ starts_by self.old records.items) }
    {
        self.stand_at(1);
        if self.is_first(first_number(&records)) {
            self.start(alloc, records)
        } else {
            Ok(self.ask_back(alloc, Aim::Starts, records))
        }
    }

    /// No record is shown.
    pub fn start_none(&mut self, alloc: Global) -> Result<Turn, AllocError>
        ensures { IfOk result (λ turn. turned self.new turn ≡ starts_none self.old) }
    {
        if self.refused && self.counted.is_some() {
            Ok(self.ends(alloc, PollEnd::ShowsNone))
        } else {
            self.start(alloc, Vec::new(alloc))
        }
    }

    // The first epoch begins there by the count alone.
    fn start_at_count(&mut self, alloc: Global, number: u32) -> Result<Turn, AllocError>
        ensures { IfOk result (λ turn. turned self.new turn ≡ starts_at_count self.old number) }
    {
        self.confirm(alloc)?;
        let mut turn = self.ask_oldest(alloc, Aim::Starts);
        turn.begins = beginning(number, true);
        Ok(turn)
    }

    // So many were logged as are before this number.
    fn start_told(&mut self, alloc: Global, next: u32) -> Result<Turn, AllocError>
        ensures { IfOk result (λ turn. turned self.new turn
            ≡ starts_told self.old self.old.begins next) }
    {
        match self.begins {
            Some(_) => Ok(self.ask_oldest(alloc, Aim::Starts)),
            None => {
                self.counted = Some(next);
                self.start_at_count(alloc, next)
            }
        }
    }

    // The count is refused.
    fn start_refused(&mut self, alloc: Global) -> Result<Turn, AllocError>
        ensures { IfOk result (λ turn. turned self.new turn
            ≡ starts_refused self.old self.old.counted) }
    {
        match self.counted {
            Some(_) => Ok(self.ask_oldest(alloc, Aim::Starts)),
            None => self.start_at_count(alloc, 1),
        }
    }

    /// The count of a first run.
    pub fn start_from(&mut self, alloc: Global, count: Option<u32>) -> Result<Turn, AllocError>
        ensures { IfOk result (λ turn. turned self.new turn ≡ starts_from self.old count) }
    {
        match count {
            Some(total) => {
                self.total = total;
                self.refused = false;
                self.start_told(alloc, number_behind(total))
            }
            None => {
                self.total = 0;
                self.refused = true;
                self.start_refused(alloc)
            }
        }
    }
}

// Where the first epoch begins, and whether that is known by the count alone.
fn beginning(number: u32, counted: bool) -> Option<Beginning>
    ensures { result ≡ beginning number counted }
{
    Some(Beginning { number, counted })
}

// Whether numbers are missing from the one behind the count up to 1.
fn is_since(counted: Option<u32>) -> bool
    ensures { result ≡ is_since counted }
{
    match counted {
        Some(counted) => is_ahead(counted, 1),
        None => false,
    }
}
