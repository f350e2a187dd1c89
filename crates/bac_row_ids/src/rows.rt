//! The ids of rows.

ghost use Rattle.std.specs.Prelude.{◌≡◌, ◌+◌, pos, IfSome, IsSome, ◌<◌, false};
ghost use Rattle.bac_row_ids.specs.Rows.{era, key};

use crate::place::Place;

impl Place {
    /// The id of the row of a number.
    pub fn key(self, number: u32) -> i64
        ensures { result ≡ pos (key (era self) number) }
    {
        (i64::from(self.log) * 32768 + i64::from(self.epoch)) * 4_294_967_296 + i64::from(number)
    }

    /// The next epoch of the log, if it can have one.
    pub fn next(self) -> Option<Place>
        ensures log { IfSome result (λ place. place.log ≡ self.log) }
        ensures next { IfSome result (λ place. era place ≡ era self + 1) }
        ensures begun { IfSome result (λ place. place.full ≡ false) }
        ensures few { self.epoch < 32767 → IsSome result }
    {
        Place::new(self.log, self.epoch + 1)
    }
}
