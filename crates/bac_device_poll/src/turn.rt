//! What an answer makes of a device's poll.

ghost use Rattle.std.specs.Prelude.{◌≡◌, ◌∷◌, [], IfOk};
ghost use Rattle.bac_device_poll.specs.State.{DeviceState};
ghost use Rattle.bac_device_poll.specs.Turns.{asks, turned};

use bac_answers::Entry;
use std::alloc::{AllocError, Global};

/// Why nothing more is asked of a device.
#[derive(Clone, Copy, Debug, PartialEq, Eq)]
pub enum DeviceEnd {
    /// Each of its logs was polled.
    Done,
    /// It isn't the device on record.
    Foreign,
    /// It doesn't answer.
    Silent,
    /// The router that it is behind has no route to its network.
    Unreached,
}

/// How a device's poll goes on.
#[derive(Clone, Copy, Debug, PartialEq, Eq)]
pub enum Step {
    /// Its question is asked.
    Ask,
    /// The same question is asked again, behind those of the other devices: it is busy.
    AskLater,
    /// The poll of a log has ended: the next one is begun by `go_on`.
    GoOn,
    /// Nothing more is asked.
    End(DeviceEnd),
}

/// What an answer brings: what is put on record of the device, or told, in this order; what it
/// brings of the log that is polled; and how it goes on.
#[derive(Drop)]
pub struct Turn {
    pub entries: Vec<Entry>,
    pub log: Option<bac_poll::Turn>,
    pub step: Step,
}

impl Turn {
    /// The next question is asked.
    pub(crate) fn asks(entries: Vec<Entry>) -> Turn
        ensures { (p : DeviceState) → turned p result ≡ asks p entries.items }
    {
        Turn {
            entries,
            log: None,
            step: Step::Ask,
        }
    }
}

/// Nothing is put or told.
pub(crate) fn none(alloc: Global) -> Vec<Entry>
    ensures { result.items ≡ [] }
{
    Vec::new(alloc)
}

/// This alone is.
pub(crate) fn only(alloc: Global, entry: Entry) -> Result<Vec<Entry>, AllocError>
    ensures { IfOk result (λ entries. entries.items ≡ entry ∷ []) }
{
    let mut entries = Vec::new(alloc);
    entries.push(entry)?;
    Ok(entries)
}
