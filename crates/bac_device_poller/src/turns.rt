//! What a turn of a log brings is put and told.

ghost use Rattle.std.specs.Prelude.{◌≡◌, IfOk, OnOk, Some, map, option_copied, option_map};
ghost use Rattle.bac_poll.specs.State.{PollState, told_as};
ghost use Rattle.bac_poll.specs.Turns.{turned};
ghost use Rattle.bac_device_poll.specs.Turns.{of_log};
ghost use Rattle.bac_device_poller.specs.Entries.{log_in, without};
ghost use Rattle.bac_device_poller.specs.Puts.{place_as, put_as};
ghost use Rattle.bac_device_poller.specs.Turns.{IsPlaced, TakesLog, TakesOf, counts_behind};
ghost use Rattle.bac_device_poller.specs.Turns.{ended_by, ending_of, keeping};
ghost use Rattle.bac_device_poller.specs.Turns.{limit_end, next_behind, retelling};
ghost use Rattle.bac_device_poller.specs.Turns.{telling_any_end, telling_end, telling_ending};
ghost use Rattle.bac_device_poller.specs.Turns.{telling_line, telling_turn};

use crate::counts::Counts;
use crate::ending::{Ending, ended_line, is_caught_up, told_line};
use crate::log_record::LogRecord;
use crate::putting::{NotPut, put_turn};
use crate::reason::reason_line;
use crate::rows::Rows;
use crate::status::status_of;
use bac_archive::Put;
use bac_device_poll::Polled;
use bac_poll::{Line, PollEnd, Told, Turn};
use bac_row_ids::Place;
use std::alloc::{AllocError, Global};

// What a turn puts, from a place on, and where the next row stands then.
fn placed(
    alloc: Global,
    place: Option<Place>,
    turn: &Turn,
) -> Result<(Option<Place>, Vec<Put>), AllocError>
    ensures { IfOk result (λ placed. (p : PollState) → IsPlaced (option_map place_as place)
        (turned p turn.now) (option_map place_as placed.0) (map put_as placed.1.items)) }
{
    let Some(place) = place else {
        return Ok((None, Vec::new(alloc)));
    };
    match put_turn(alloc, place, turn) {
        Ok((behind, puts)) => Ok((Some(behind), puts)),
        Err(NotPut::Memory) => Err(AllocError),
        Err(NotPut::Epochs) => Ok((None, Vec::new(alloc))),
    }
}

impl LogRecord {
    // What a turn of it puts, and where its next row stands then.
    fn placed(&self, alloc: Global, turn: &Turn) -> Result<(Option<Place>, Vec<Put>), AllocError>
        ensures { IfOk result (λ placed. (p : PollState) → IsPlaced self.now.place
            (turned p turn.now) (option_map place_as placed.0) (map put_as placed.1.items)) }
    {
        placed(alloc, self.place, turn)
    }

    // Its next row stands there, and this number comes next.
    fn stand(&mut self, place: Option<Place>, next: u32)
        ensures { self.new
            ≡ record self.old { place = option_map place_as place; next = next } }
    {
        self.place = place;
        self.next = next;
    }

    // The number that comes next behind its rows, with a turn.
    fn next_behind(&self, behind: Option<Place>, now: u32) -> u32
        ensures { result ≡ next_behind (option_map place_as behind) self.now.next now }
    {
        match behind {
            Some(_) => now,
            None => self.next,
        }
    }

    // How its lines call it.
    fn called(&self) -> &[u8]
        ensures { result.now ≡ self.now.called }
    {
        self.called.as_slice()
    }
}

// The end at the limit, if a log may have no more replies with records.
fn limit_end(left: Option<u32>) -> Option<Ending>
    ensures { result ≡ limit_end left }
{
    match left {
        Some(0) => Some(Ending::StepLimit),
        Some(_) => None,
        None => None,
    }
}

// How the poll of a log ended, if it has.
fn ended_by(end: Option<PollEnd>, left: Option<u32>) -> Option<Ending>
    ensures { result ≡ ended_by end left }
{
    match end {
        Some(why) => Some(Ending::Poll(why)),
        None => limit_end(left),
    }
}

// The same of one with this place.
fn ending_of(behind: Option<Place>, why: Ending) -> Ending
    ensures { result ≡ ending_of (option_map place_as behind) why }
{
    match behind {
        Some(_) => why,
        None => Ending::Epochs,
    }
}

// What was kept of a log with a turn.
fn counts_behind(kept: Counts, behind: Option<Place>, turn: &Turn) -> Counts
    ensures { (p : PollState) → result
        ≡ counts_behind (option_map place_as behind) (turned p turn.now) kept }
{
    match behind {
        Some(_) => kept.with_turn(turn),
        None => kept,
    }
}

impl Rows {
    // Rows of a turn are to be put.
    fn keep(&mut self, behind: Option<Place>, puts: Vec<Put>, turn: &Turn) -> Result<(), AllocError>
        ensures { OnOk result ((p : PollState) → self.new
            ≡ keeping self.old (option_map place_as behind) (map put_as puts.items)
            (turned p turn.now)) }
    {
        self.kept = counts_behind(self.kept, behind, turn);
        let mut puts = puts;
        self.puts.append(&mut puts)?;
        Ok(())
    }

    // A log stands on record so, and its word is this.
    fn retell(&mut self, alloc: Global, held: LogRecord, word: &Told) -> Result<(), AllocError>
        ensures { OnOk result (self.new ≡ retelling self.old held (told_as word.now)) }
    {
        if held.has_word(word) {
            return self.add(held);
        }
        let mut held = held;
        held.set_word(alloc, word)?;
        self.put_log(alloc, held)
    }

    // What is told while a log is polled.
    fn tell_line(
        &mut self,
        alloc: Global,
        called: &[u8],
        line: Option<Line>,
    ) -> Result<(), AllocError>
        ensures { OnOk result (self.new ≡ telling_line self.old called.now line) }
    {
        match line {
            Some(line) => {
                let text = told_line(alloc, called, line)?;
                self.tell(false, text)
            }
            None => Ok(()),
        }
    }

    // How that ended.
    fn tell_end(
        &mut self,
        alloc: Global,
        called: &[u8],
        why: Ending,
        next: u32,
    ) -> Result<(), AllocError>
        ensures { OnOk result (self.new ≡ telling_end self.old called.now why next) }
    {
        let text = ended_line(alloc, called, self.kept, why, next)?;
        self.kept = Counts::none();
        self.raise(status_of(why));
        self.tell(is_caught_up(why), text)
    }

    // How that ended, and why it failed.
    fn tell_ending(
        &mut self,
        alloc: Global,
        called: &[u8],
        why: Ending,
        next: u32,
    ) -> Result<(), AllocError>
        ensures { OnOk result (self.new ≡ telling_ending self.old called.now why next) }
    {
        self.tell_end(alloc, called, why, next)?;
        let reason = reason_line(alloc, called, why)?;
        self.tell_any(reason)
    }

    // If it has.
    fn tell_any_end(
        &mut self,
        alloc: Global,
        called: &[u8],
        behind: Option<Place>,
        end: Option<Ending>,
        next: u32,
    ) -> Result<(), AllocError>
        ensures { OnOk result (self.new
            ≡ telling_any_end self.old called.now (option_map place_as behind) end next) }
    {
        match end {
            Some(why) => self.tell_ending(alloc, called, ending_of(behind, why), next),
            None => Ok(()),
        }
    }

    // The lines of a turn.
    fn tell_turn(
        &mut self,
        alloc: Global,
        called: &[u8],
        behind: Option<Place>,
        left: Option<u32>,
        next: u32,
        turn: &Turn,
    ) -> Result<(), AllocError>
        ensures { OnOk result ((p : PollState) → self.new
            ≡ telling_turn self.old called.now (option_map place_as behind) left next
            (turned p turn.now)) }
    {
        self.tell_line(alloc, called, turn.line)?;
        let end = ended_by(turn.end, left);
        self.tell_any_end(alloc, called, behind, end, next)
    }

    // A log that is on record has a turn.
    fn take_turn(
        &mut self,
        alloc: Global,
        held: LogRecord,
        polled: &Polled,
        turn: &Turn,
    ) -> Result<(), AllocError>
        ensures { OnOk result (TakesOf (Some held) polled.now.left self.old
            (turned polled.now.poll turn.now) self.new) }
    {
        let (behind, puts) = held.placed(alloc, turn)?;
        let next = held.next_behind(behind, polled.poll.next());
        self.keep(behind, puts, turn)?;
        self.tell_turn(alloc, held.called(), behind, polled.left, next, turn)?;
        let mut held = held;
        held.stand(behind, next);
        self.retell(alloc, held, polled.poll.word())?;
        Ok(())
    }

    // A log has one, if it is on record.
    fn turn_of(&mut self, alloc: Global, polled: &Polled, turn: &Turn) -> Result<(), AllocError>
        ensures { OnOk result (TakesOf (log_in polled.now.log self.old.logs) polled.now.left
            (without polled.now.log self.old) (turned polled.now.poll turn.now) self.new) }
    {
        match self.take(polled.log) {
            Some(held) => {
                self.take_turn(alloc, held, polled, turn)?;
                Ok(())
            }
            None => Ok(()),
        }
    }

    /// The log that is polled has a turn, if there is one.
    pub(crate) fn take_log(
        &mut self,
        alloc: Global,
        polled: Option<&Polled>,
        turn: &Option<Turn>,
    ) -> Result<(), AllocError>
        ensures { OnOk result (TakesLog (of_log turn.now (option_copied polled.entry))
            (option_copied polled.entry) self.old self.new) }
    {
        match (polled, turn) {
            (Some(polled), Some(turn)) => self.turn_of(alloc, polled, turn),
            (Some(_), None) => Ok(()),
            (None, Some(_)) => Ok(()),
            (None, None) => Ok(()),
        }
    }
}
