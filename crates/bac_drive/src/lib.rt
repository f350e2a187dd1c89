//! The loop at the edge: does what a machine wants, over a port, a clock, an archive and an output.
//!
//! A [`Machine`] has no socket and no file. [`drive`] sends, waits, reads the clock, puts rows in
//! the archive and writes to the output and the errors, one after the other, as the machine says,
//! until it has ended. What it does is a list of events (specs/Happens), and a kill leaves the
//! archive after a front of them: what was there, and the rows of the batches so far (specs/Laws).
#![tactic(auto)]

mod clock;
mod driving;
mod laws;
mod machine;

pub use clock::{Clock, SteadyClock};
pub use driving::{Fault, drive};
pub use laws::runs_put;
pub use machine::{Machine, Next};
