//! Sockets that tell each datagram.
//!
//! [`Traced`] sockets do what the sockets below them do. Switched on by [`Tracing`], each port that
//! they open has a writer of its own, to which it tells a datagram in a line once it was sent or
//! received: `tx ADDRESS HEX` or `rx ADDRESS HEX` (specs/Lines, specs/Traces).
#![tactic(auto)]

mod laws;
mod lines;
mod ports;
mod sockets;
mod writers;

pub use laws::asks_are_below;
pub use ports::TracedPort;
pub use sockets::{Traced, Tracing};
pub use writers::Writers;
