//! Where the rows of a log stand.

ghost use Rattle.std.specs.Prelude.{◌≡◌, ◌<◌, IfSome, IsSome, false};

/// Where the next row of a log stands: behind its rows since its device began anew, or its numbers
/// came round, the last time.
#[derive(Clone, Copy, Debug, PartialEq, Eq)]
pub struct Place {
    /// The row of the log in the table of logs.
    pub log: u16,
    /// How often the log began anew, or its numbers came round.
    pub epoch: u16,
    /// The last number of that epoch is put: the next row is of the next epoch.
    pub full: bool,
    ghost few: { epoch < 32768 },
}

impl Place {
    /// The place of this log in this epoch, whose last number isn't put. An epoch is below 32768.
    pub fn new(log: u16, epoch: u16) -> Option<Place>
        ensures given { IfSome result (λ place. (place.log ≡ log) × (place.epoch ≡ epoch)
            × (place.full ≡ false)) }
        ensures few { epoch < 32768 → IsSome result }
    {
        if epoch < 32768 {
            Some(Place {
                log,
                epoch,
                full: false,
            })
        } else {
            None
        }
    }

    /// The same where the last number of that epoch is put, or isn't.
    pub fn filled(self, full: bool) -> Place
        ensures { (result.log ≡ self.log) × (result.epoch ≡ self.epoch) × (result.full ≡ full) }
    {
        Place {
            log: self.log,
            epoch: self.epoch,
            full,
        }
    }
}
