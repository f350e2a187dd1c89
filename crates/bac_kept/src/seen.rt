//! What was printed of the parts of an archive before: a part begins with the newest items of the
//! part before it, which aren't printed again.

ghost use Rattle.std.specs.Prelude.{◌≡◌, ℕ, None, OnOk};
ghost use Rattle.bac_kept.specs.Seen.{Notes, is_newer, newest_in};

use bac_archive::Item;
use indexmap::IndexMap;
use std::alloc::{AllocError, Global};

/// An item, by its epoch and its number.
#[derive(Clone, Copy)]
pub struct Newest {
    pub epoch: u16,
    pub number: u32,
}

/// The newest item of each log that was printed, by the id of the log's row.
#[derive(Drop)]
pub struct Seen {
    newest: IndexMap<u16, Option<Newest>>,
}

/// Whether an item lies behind another, if there is one.
pub(crate) fn is_newer(behind: Option<Newest>, item: &Item<'_>) -> bool
    ensures { result ≡ is_newer behind item.now.epoch item.now.number }
{
    match behind {
        None => true,
        Some(last) => {
            last.epoch < item.epoch || (last.epoch == item.epoch && last.number < item.number)
        }
    }
}

impl Seen {
    /// Nothing was printed yet.
    pub fn new(alloc: Global) -> Seen
        ensures { (log : ℕ) → newest_in result log ≡ None }
    {
        Seen {
            newest: IndexMap::new(alloc),
        }
    }

    /// The newest item of a log that was printed, if there is one.
    pub(crate) fn newest(&self, log: u16) -> Option<Newest>
        ensures { result ≡ newest_in self.now log }
    {
        match self.newest.get(&log) {
            Some(newest) => *newest,
            None => None,
        }
    }

    /// Of this log the newest item that was printed is this one.
    pub(crate) fn note(&mut self, log: u16, newest: Option<Newest>) -> Result<(), AllocError>
        ensures { OnOk result (Notes self.old log newest self.new) }
    {
        match self.newest.insert(log, newest) {
            Ok(_) => Ok(()),
            Err(_) => Err(AllocError),
        }
    }
}
