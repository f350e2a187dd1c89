//! Lines that are told.

use std::marker::Model;

/// A line that is to be told.
#[derive(Drop)]
pub struct Line {
    /// Whether it is of a log that is caught up, or of what is new: then it is printed, and else
    /// goes to the errors.
    pub(crate) good: bool,
    pub(crate) text: Vec<u8>,
}

impl Model for Line {
    ghost use Rattle.bac_device_poller.specs.Telling.{LineAs};

    ghost Value = { LineAs };

    ghost view = { λ l. record { good = l.good; text = l.text.items } };
}
