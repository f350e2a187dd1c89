//! Why the words of `bac keep` or `bac kept` ask for nothing.

ghost use Rattle.std.specs.Prelude.{◌≡◌};

use bac_command_line::Word;
use std::alloc::{AllocError, AllocFailed};

/// Why the words of `bac keep` or `bac kept` ask for nothing.
#[derive(Clone, Copy, Debug, PartialEq, Eq)]
pub enum Fault {
    /// A word or an option has a value that it can't have.
    BadValue(Word),
    /// The same of a number that has over ten digits.
    LongNumber(Word),
    /// Out of memory.
    Memory,
}

impl From<AllocError> for Fault {
    ghost use Rattle.bac_keep_command_line.specs.declared.fault.Fault.TheVariants.{Memory};

    ghost from_gives = { λ _ fault. fault ≡ Memory };

    fn from(_error: AllocError) -> Fault {
        Fault::Memory
    }
}

impl<T: Drop> From<AllocFailed<T>> for Fault {
    ghost use Rattle.bac_keep_command_line.specs.declared.fault.Fault.TheVariants.{Memory};

    ghost from_gives = { λ _ fault. fault ≡ Memory };

    fn from(_error: AllocFailed<T>) -> Fault {
        Fault::Memory
    }
}
