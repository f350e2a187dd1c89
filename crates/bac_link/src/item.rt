//! What a walk of a trend log delivers.

use bac_log::Entry;

/// A record of a trend log with its sequence number, or a stretch of numbers without one.
#[derive(Clone, Copy, Debug, PartialEq, Eq)]
pub enum Item {
    /// The records from number `first` up to the one before `before` are gone: they were
    /// overwritten or purged before they were reached.
    Gap { first: u32, before: u32 },
    /// The record of this number.
    Logged { number: u32, entry: Entry },
}
