//! Why a line has no answer.

use std::alloc::AllocError;

#[derive(Clone, Copy, Debug)]
pub(crate) enum Fault {
    /// No such call, or words that it doesn't take.
    BadLine,
    Memory,
}

impl From<AllocError> for Fault {
    fn from(_error: AllocError) -> Fault {
        Fault::Memory
    }
}
