//! A walk of a trend log over a network that keeps, repeats and reorders datagrams.
//!
//! A [`World`] is a device, its client, which walks one of the device's trend logs, and every
//! datagram that was ever sent between them. Events say what happens next: that the client asks,
//! that a datagram comes, as often as wanted and in any order, that no answer came in time, and
//! what happens to the device. Whatever the events are, the walk delivers what the log held when it
//! answered, each record once, in rising order. specs/Network says what an event does,
//! specs/Runs what a run of events delivers, and specs/Sources where each datagram comes from.
#![tactic(auto)]

mod client;
mod event;
mod laws;
mod packet;
mod world;

pub use event::WorldEvent;
pub use laws::{packets_were_put, windows_stay_near, withstands_all, worlds_run_the_client};
pub use packet::{Packet, Side};
pub use world::{Memory, World};
