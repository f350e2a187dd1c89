//! What is asked of one trend log, and what each answer brings: a function of what is known of the
//! log. There is no socket here, no file and no clock.
//!
//! A [`LogPoll`] asks first for the records that were kept last, with those behind them
//! ([`LogPoll::question`]). What the device shows of these tells how the log goes on: behind them,
//! behind a gap, or in a new epoch; and where that doesn't tell, the device's word, its count and
//! the oldest records that it holds do ([`LogPoll::take`], [`LogPoll::weigh`],
//! [`LogPoll::hear_restart`]). The records of the answer that tells are kept. From there it walks
//! to the newest.
#![tactic(auto)]

mod back;
mod joins;
mod oldest;
mod poll;
mod rule;

pub use bac_known::{DateTime, Kept, Means, Reply, Shown, Told, Word};
pub use bac_poll_steps::{Aim, Beginning, Gone, Line, PollEnd, Stage, Standing, Turn};
pub use poll::LogPoll;
