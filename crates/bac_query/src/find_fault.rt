//! Why finding devices ended without an answer.

use bac_wire::Address;

/// Why devices weren't found.
#[derive(Clone, Copy)]
pub enum FindFault {
    /// A receive failed.
    Socket,
    /// A send to this address was refused; all else was done.
    Refused(Address),
    /// No I-Am came.
    NoAnswer,
    /// The output refused a write.
    Write,
    /// There was no memory for a line.
    Memory,
}
