//! Rows of many replies in one transaction: a machine around a machine.
//!
//! A [`Batching`] hands on what the machine inside says, and what it is told, but holds its rows:
//! at most 64 replies of them, and no longer than 100 milliseconds by the clock as it was read
//! last; from 48 replies on no longer than there is a datagram to be heard. Then they are put as
//! one batch, and behind it comes what the machine said behind them: its lines, and the wait or the
//! end that it wanted last (specs/Batch). Nothing is lost or made up by that, and each line stands
//! behind its rows (specs/Laws).
#![tactic(auto)]

mod batching;
mod laws;

pub use batching::Batching;
pub use laws::{
    batches_are_replies, ends_whole, lines_stand_behind, loses_nothing, steps_happen,
    waits_with_young_rows,
};
