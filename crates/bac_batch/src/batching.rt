//! A machine whose rows are put in batches.

ghost use Rattle.std.specs.Prelude.{◌≡◌, ◌++◌, ◌∷◌, [], IfNone, IfOk, IfSome, OnOk};
ghost use Rattle.std.specs.Bool.{OnFalse, OnTrue};
ghost use Rattle.bac_batch.specs.Batch.{Answers, Asks, Ends, Gathers, GivesBatched, HearsBatched};
ghost use Rattle.bac_batch.specs.Batch.{HoldsRows, IsBatch, IsBatchBefore, IsFreed, IsHeld};
ghost use Rattle.bac_batch.specs.Batch.{IsKeep, NoneFreed, ReadsBatched, Tells, Waits};
ghost use Rattle.bac_batch.specs.Batch.{cut_short, fresh_batch, is_due, is_nearly_full, left};

use bac_archive::Put;
use bac_drive::{Machine, Next};
use bac_ports::{Heard, SocketFault};
use std::alloc::{AllocError, Global};
use std::collections::VecDeque;
use std::marker::Model;
use std::mem::replace;

/// How many replies a batch has at most.
const MOST_REPLIES: u32 = 64;

/// From 48 replies on it is put as soon as nothing is there to be heard: so it is written while
/// answers are on their way, and not while they wait.
const ROOM_AT_REST: u32 = 16;

/// How long rows are held, in milliseconds, by the clock as it was read last.
const MOST_MS: u64 = 100;

/// A machine whose rows are put in batches.
#[derive(Drop)]
pub struct Batching<M> {
    machine: M,
    /// Rows that it wants to be put, and that aren't yet: the batch.
    puts: Vec<Put>,
    /// How many replies more the batch takes.
    room: u32,
    /// What the clock had told last as the first of them came, in milliseconds.
    since: u64,
    /// What it has told last.
    time: u64,
    /// What is to be done behind the batch: lines, and at last a wait or the end.
    behind: VecDeque<Next>,
    /// Whether the last wait brought no datagram.
    quiet: bool,
}

impl<M> Model for Batching<M> {
    ghost use Rattle.bac_batch.specs.Batch.{Batched};

    ghost Value = { Batched M };

    ghost view = { λ it. record {
      machine = it.machine;
      puts = it.puts.items;
      room = it.room;
      since = it.since;
      time = it.time;
      behind = it.behind.items;
      quiet = it.quiet;
    } };
}

// Nothing is to be done yet: a batch without rows.
fn nothing(alloc: Global) -> Next
    ensures { IsKeep [] result }
{
    Next::Keep(Vec::new(alloc))
}

impl<M> Batching<M> {
    /// Around a machine that has said nothing yet.
    pub fn new(alloc: Global, machine: M) -> Batching<M>
        ensures { result ≡ fresh_batch machine }
    {
        Batching {
            machine,
            puts: Vec::new(alloc),
            room: MOST_REPLIES,
            since: 0,
            time: 0,
            behind: VecDeque::new(alloc),
            quiet: false,
        }
    }

    /// The machine inside.
    pub fn machine(&self) -> &M
        ensures { result.now ≡ self.now.machine }
    {
        &self.machine
    }

    /// Whether rows are held.
    fn holds(&self) -> bool
        ensures rows { OnTrue result (HoldsRows self.now) }
        ensures none { OnFalse result (self.now.puts ≡ []) }
    {
        !self.puts.is_empty()
    }

    /// The first of what stands behind a batch that was given.
    fn free(&mut self) -> Option<Next>
        ensures some { IfSome result (λ next. IsFreed self.old next self.new) }
        ensures none { IfNone result (NoneFreed self.old × (self.new ≡ self.old)) }
    {
        if self.holds() {
            return None;
        }
        self.behind.pop_front()
    }

    /// The batch.
    fn give(&mut self, alloc: Global) -> Next
        ensures { IsBatch self.old result self.new }
    {
        Next::Keep(replace(&mut self.puts, Vec::new(alloc)))
    }

    /// The batch, and something else behind it.
    fn give_before(&mut self, alloc: Global, next: Next) -> Result<Next, AllocError>
        ensures { IfOk result (λ given. IsBatchBefore next self.old given self.new) }
    {
        self.behind.push_back(next)?;
        Ok(self.give(alloc))
    }

    /// Rows of one more reply are held.
    fn hold(&mut self, puts: Vec<Put>) -> Result<(), AllocError>
        ensures { OnOk result (IsHeld puts.items self.old self.new) }
    {
        if self.holds() {
            let mut puts = puts;
            self.puts.append(&mut puts)?;
            self.room = self.room.saturating_sub(1);
            return Ok(());
        }
        self.puts = puts;
        self.room = MOST_REPLIES - 1;
        self.since = self.time;
        Ok(())
    }

    /// What is to be done with rows: they are held, until the batch takes no more.
    fn gather(&mut self, alloc: Global, puts: Vec<Put>) -> Result<Next, AllocError>
        ensures { IfOk result (λ next. Gathers puts.items self.old next self.new) }
    {
        if puts.is_empty() {
            return Ok(nothing(alloc));
        }
        self.hold(puts)?;
        if self.room > 0 {
            return Ok(nothing(alloc));
        }
        Ok(self.give(alloc))
    }

    /// What is to be done with a line: it stands behind the rows that are held.
    fn tell(&mut self, alloc: Global, line: Next) -> Result<Next, AllocError>
        ensures { IfOk result (λ next. Tells line self.old next self.new) }
    {
        if !self.holds() {
            return Ok(line);
        }
        self.behind.push_back(line)?;
        Ok(nothing(alloc))
    }

    /// How many milliseconds more the rows are held.
    fn left(&self) -> u64
        ensures { result ≡ left self.now }
    {
        MOST_MS.saturating_sub(self.time.saturating_sub(self.since))
    }

    /// Whether the batch is nearly full.
    fn is_nearly_full(&self) -> bool
        ensures { result ≡ is_nearly_full self.now }
    {
        self.room <= ROOM_AT_REST
    }

    /// Whether it is to be put before a wait.
    fn is_due(&self) -> bool
        ensures { result ≡ is_due self.now }
    {
        self.left() == 0 || (self.is_nearly_full() && self.quiet)
    }

    /// How many milliseconds it is waited where rows are held.
    fn cut_short(&self, most: u32) -> u32
        ensures { result ≡ cut_short most self.now }
    {
        if self.is_nearly_full() {
            0
        } else {
            u64::from(most).min(self.left()) as u32
        }
    }

    /// What is to be done at a wait: rows are held no longer than they may be.
    fn wait(&mut self, alloc: Global, most: u32) -> Result<Next, AllocError>
        ensures { IfOk result (λ next. Waits most self.old next self.new) }
    {
        if !self.holds() {
            return Ok(Next::Wait(most));
        }
        if self.is_due() {
            return self.give_before(alloc, Next::Wait(most));
        }
        Ok(Next::Wait(self.cut_short(most)))
    }

    /// What is to be done at the end: nothing is held then.
    fn end(&mut self, alloc: Global) -> Result<Next, AllocError>
        ensures { IfOk result (λ next. Ends self.old next self.new) }
    {
        if !self.holds() {
            return Ok(Next::End);
        }
        self.give_before(alloc, Next::End)
    }

    /// What is to be done where the machine inside wants this.
    fn answer(&mut self, alloc: Global, wanted: Next) -> Result<Next, AllocError>
        ensures { IfOk result (λ next. Answers wanted self.old next self.new) }
    {
        match wanted {
            Next::Keep(puts) => self.gather(alloc, puts),
            Next::Print(text) => self.tell(alloc, Next::Print(text)),
            Next::Warn(text) => self.tell(alloc, Next::Warn(text)),
            Next::Wait(most) => self.wait(alloc, most),
            Next::End => self.end(alloc),
            Next::Send(datagram, to) => Ok(Next::Send(datagram, to)),
            Next::Read => Ok(Next::Read),
        }
    }
}

impl<M: Machine> Batching<M> {
    /// The machine inside is asked.
    fn ask(&mut self, alloc: Global) -> Result<Next, AllocError>
        ensures { IfOk result (λ next. Asks M.gives self.old next self.new) }
    {
        let wanted = self.machine.next(alloc)?;
        self.answer(alloc, wanted)
    }

    /// What is to be done next.
    fn want(&mut self, alloc: Global) -> Result<Next, AllocError>
        ensures { IfOk result (λ next. GivesBatched M.gives self.old next self.new) }
    {
        match self.free() {
            Some(next) => Ok(next),
            None => self.ask(alloc),
        }
    }

    /// What came is for the machine inside.
    fn take(&mut self, heard: Result<Heard, SocketFault>)
        ensures { HearsBatched M.hears self.old heard self.new }
    {
        let quiet = heard.is_err();
        self.machine.hear(heard);
        self.quiet = quiet;
    }

    /// So is what the clock tells. It never goes back.
    fn read_to(&mut self, ms: u64)
        ensures { ReadsBatched M.reads self.old ms self.new }
    {
        self.machine.read(ms);
        self.time = self.time.max(ms);
    }
}

impl<M: Machine> Machine for Batching<M> {
    ghost gives = { λ old given new. GivesBatched M.gives old given new };

    ghost hears = { λ old heard new. HearsBatched M.hears old heard new };

    ghost reads = { λ old ms new. ReadsBatched M.reads old ms new };

    fn next(&mut self, alloc: Global) -> Result<Next, AllocError> {
        self.want(alloc)
    }

    fn hear(&mut self, heard: Result<Heard, SocketFault>) {
        self.take(heard);
    }

    fn read(&mut self, ms: u64) {
        self.read_to(ms);
    }
}
