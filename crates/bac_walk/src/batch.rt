//! What one answer brings.
ghost use Rattle.std.specs.Prelude.{◌<◌, ◌≤◌, length};

use arrayvec::ArrayVec;
use bac_log::Entry;

/// The records from number `first` up to the one before `before` are gone: they were overwritten or
/// purged before they were reached.
#[derive(Clone, Copy, Debug, PartialEq, Eq)]
pub struct Gap {
    pub first: u32,
    pub before: u32,
}

/// A record and its sequence number.
#[derive(Clone, Copy, Debug, Default, PartialEq, Eq)]
pub struct Numbered {
    pub number: u32,
    pub entry: Entry,
}

/// What one answer brings: 1 to 100 records, with the gap before them if there is one.
#[derive(Drop)]
pub struct Batch {
    pub gap: Option<Gap>,
    pub entries: ArrayVec<Numbered, 100>,
    ghost some: { 0 < length entries.items },
    ghost most: { length entries.items ≤ 100 },
}
