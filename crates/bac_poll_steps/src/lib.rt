//! What is known of a trend log that is polled, and the steps of which the rule of its poll is
//! made: what is asked, how a reply is read, and what is kept of it or told. Each is a function of
//! what is known of the log.
#![tactic(auto)]

mod epochs;
mod gone;
mod question;
mod reading;
mod stage;
mod starts;
mod state;
mod turn;
mod turns;

pub use gone::Gone;
pub use stage::{Aim, Stage};
pub use state::{LogState, Standing};
pub use turn::{Beginning, Line, PollEnd, Turn, gap_up_to};
