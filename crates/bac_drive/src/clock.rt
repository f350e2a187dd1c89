//! What tells the time.

ghost use Rattle.std.specs.Prelude.{◌≡◌, ℕ};

use std::time::Instant;

/// Tells the time, in milliseconds from any moment on.
///
/// What a reading is, is a relation that each clock names itself. Nothing is asked of it: where it
/// goes back, the time stands still until it has caught up.
pub trait Clock {
    /// What a reading is: the clock before it, the milliseconds, the clock after it.
    ghost reads: { Self → ℕ → Self → Type 0 };

    /// Reads the clock.
    fn now(&mut self) -> u64
        ensures { reads self.old result self.new };
}

/// The machine's clock that isn't set, from its making on.
#[derive(Clone, Copy, Drop)]
pub struct SteadyClock<R> {
    rt: R,
    /// Nothing if the clock couldn't be read.
    start: Option<Instant>,
    last: u64,
}

impl<R: std::time::Clock> SteadyClock<R> {
    /// The clock of the machine that a program runs on.
    pub fn new(rt: R) -> SteadyClock<R>
        ensures rt { result.rt ≡ rt }
        ensures last { result.last ≡ 0 }
    {
        let start = Instant::now(&rt).ok();
        SteadyClock { rt, start, last: 0 }
    }

    /// The milliseconds since its making, if it can be read.
    fn passed(&self) -> Option<u64> {
        let passed = self.start?.elapsed(&self.rt).ok()?;
        u64::try_from(passed.as_millis()).ok()
    }
}

impl<R: std::time::Clock> Clock for SteadyClock<R> {
    ghost reads = { λ old ms new. Unit {0} };

    // A clock that can't be read goes on by one with each reading, so that waits end.
    fn now(&mut self) -> u64 {
        self.last = match self.passed() {
            Some(passed) => passed,
            None => self.last.saturating_add(1),
        };
        self.last
    }
}
