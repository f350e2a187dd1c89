//! What happens in a world.

use bac_wire::{Datagram, Stamp};

/// What may happen next. A datagram that is lost is one that never comes.
#[derive(Debug, Drop)]
pub enum WorldEvent {
    /// The client asks the next question of its walk, unless a request is open.
    Ask,
    /// The packet at this place comes to its end.
    Deliver(usize),
    /// No answer to the open request came in time: it is sent again, or given up.
    Timeout,
    /// The Trend Log with this instance takes a sample.
    Sample(u32),
    /// The clock goes on to this moment, and each Trend Log that is due takes a sample.
    Advance(Stamp),
    /// The device takes a datagram, whose reply goes to someone else.
    Handle(Datagram),
}
