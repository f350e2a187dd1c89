//! Where the writers of traces come from.

use std::io::Write;

/// Gives a writer for each port.
pub trait Writers {
    /// What the lines of a port go to.
    type Writer: Write + Drop;

    /// One more writer.
    fn writer(&mut self) -> Self::Writer;
}
