//! Why what is kept isn't printed.

use sqlite::Error;

/// Why what is kept isn't printed.
#[derive(Clone, Copy, Debug)]
pub enum Fault {
    /// Out of memory.
    Memory,
    /// The output refused a write.
    Write,
    /// No log was chosen.
    NoLog,
    /// The database answers by an error.
    Database(Error),
}
