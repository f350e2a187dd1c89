//! The clock of a server.

ghost use Rattle.std.specs.Prelude.{Option};
ghost use Rattle.bac_wire.specs.Stamp.{CivilTime};

use bac_wire::Stamp;
use jiff_core::civil::DateTime;

/// Tells the time.
pub trait Clock {
    /// What a look at it is: the clock before, the answer, the clock after.
    ghost tells: { Self → Option CivilTime → Self → Type 0 };

    /// The time; `None` if it isn't known.
    fn now(&mut self) -> Option<Stamp>
        ensures { tells self.old result self.new };
}

/// The machine's clock, in UTC.
#[derive(Debug, Drop)]
pub struct SystemClock<R> {
    rt: R,
}

impl<R: std::time::Clock> SystemClock<R> {
    /// The clock of the machine that a program runs on.
    pub fn new(rt: R) -> SystemClock<R> {
        SystemClock { rt }
    }
}

impl<R: std::time::Clock> Clock for SystemClock<R> {
    ghost tells = { λ old moment new. Unit {0} };

    fn now(&mut self) -> Option<Stamp> {
        let since_1970 = self.rt.since_1970().ok()?;
        let nanoseconds = i128::try_from(since_1970.as_nanos()).ok()?;
        Stamp::of_civil(DateTime::from_nanosecond(nanoseconds).ok()?)
    }
}
