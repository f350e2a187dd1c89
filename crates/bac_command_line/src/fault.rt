//! Why words are no job.

ghost use Rattle.std.specs.Prelude.{◌≡◌};

use crate::word::Word;
use clap::Error;
use std::alloc::AllocError;

/// Why there is no job.
#[derive(Debug, Drop)]
pub enum WordsFault {
    /// What `clap` says: a mistake in the words, or the help or version that was asked for.
    Usage(Error),
    /// The first word or option, in the order of the job's fields, whose value isn't one that it
    /// can have.
    BadValue(Word),
    /// The same of a number that has over ten digits.
    LongNumber(Word),
    /// Out of memory.
    Memory,
}

impl From<Word> for WordsFault {
    ghost use Rattle.bac_command_line.specs.declared.fault.WordsFault.TheVariants.{BadValue};

    ghost from_gives = { λ word fault. fault ≡ BadValue word };

    fn from(word: Word) -> WordsFault {
        WordsFault::BadValue(word)
    }
}

impl From<AllocError> for WordsFault {
    ghost use Rattle.bac_command_line.specs.declared.fault.WordsFault.TheVariants.{Memory};

    ghost from_gives = { λ _ fault. fault ≡ Memory };

    fn from(_error: AllocError) -> WordsFault {
        WordsFault::Memory
    }
}
