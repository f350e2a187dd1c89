//! Why the tool ends without what it was asked for.

ghost use Rattle.std.specs.Prelude.{◌≡◌};
ghost use Rattle.bac_keeper.specs.Halts.{of_words};

use bac_command_line::Word;
use bac_keep_command_line::Fault as WordFault;
use bac_ports::OpenFault;

/// Why the tool ends without what it was asked for, beside an archive that is no use.
#[derive(Clone, Copy)]
pub enum Fault {
    /// A word or an option has a value that it can't have.
    BadValue(Word),
    /// The same of a number that has over ten digits.
    LongNumber(Word),
    /// No port could be opened.
    Unopened(OpenFault),
    /// The output or the errors refused a write.
    Write,
    /// Out of memory.
    Memory,
}

impl Fault {
    /// The fault of words.
    pub(crate) fn of_words(fault: WordFault) -> Fault
        ensures { result ≡ of_words fault }
    {
        match fault {
            WordFault::BadValue(word) => Fault::BadValue(word),
            WordFault::LongNumber(word) => Fault::LongNumber(word),
            WordFault::Memory => Fault::Memory,
        }
    }
}
