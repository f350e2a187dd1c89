//! Why a line isn't answered.

use bac_files::NotOpened;
use sqlite::Error;
use std::alloc::{AllocError, AllocFailed};
use std::io;

/// Why a line isn't answered.
#[derive(Clone, Copy)]
pub(crate) enum Why {
    /// No such call, or words that it doesn't take.
    Line,
    Memory,
    /// A file isn't read or written.
    File,
    NotOpened(NotOpened),
    Database(Error),
}

impl From<AllocError> for Why {
    fn from(_error: AllocError) -> Why {
        Why::Memory
    }
}

impl<T: Drop> From<AllocFailed<T>> for Why {
    fn from(_error: AllocFailed<T>) -> Why {
        Why::Memory
    }
}

impl From<io::Error> for Why {
    fn from(_error: io::Error) -> Why {
        Why::File
    }
}

impl From<Error> for Why {
    fn from(error: Error) -> Why {
        Why::Database(error)
    }
}

impl Why {
    /// Why the machine or the database didn't do it.
    pub(crate) fn text(&self) -> &'static str {
        match self {
            Why::Line => "bad line",
            Why::Memory => "no memory",
            Why::File => "no file",
            Why::NotOpened(_) => "not opened",
            Why::Database(_) => "the database failed",
        }
    }
}
