//! A device that is served over a port, with a clock.
//!
//! [`serve_one`] receives a datagram, lets the device's clock go on, and sends what the device
//! answers. [`serve`] does so until so many datagrams have come, and lets the clock go on while
//! nothing comes, so that logs fill while nobody asks. Both say of every port and every clock what
//! they leave of the device and what they send to whom (specs/Serving).
#![tactic(auto)]

mod clock;
mod serving;
mod waiting;

pub use clock::{Clock, SystemClock};
pub use serving::{serve, serve_one};
pub use waiting::idle_wait;
