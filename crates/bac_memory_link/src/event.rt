//! What happens at a link straight to a device.

use bac_wire::{Datagram, Stamp};

/// What happens to a device between two answers, and whether an answer arrives.
#[derive(Debug, Drop)]
pub enum LinkEvent {
    /// The Trend Log with this instance takes a sample.
    Sample(u32),
    /// The clock goes on to this moment, and each Trend Log that is due takes a sample.
    Advance(Stamp),
    /// The device takes a datagram, whose reply goes to someone else.
    Handle(Datagram),
    /// A request is answered.
    Answer,
    /// A request is lost, or its answer.
    Lose,
}
