//! The poll of one device over transactions: what is to be done next, and what it makes of what
//! comes.
//!
//! A [`DevicePoller`] sends the question of its `DevicePoll` to its device, takes the answer, and
//! puts what that brings: the rows of its logs' records, gaps and epochs, its own row and those of
//! its logs, each in place of the one with its id. Behind each batch it tells its lines. It is told
//! what comes, and that nothing came in time; it has no socket, no file and no clock.
#![tactic(auto)]

mod counts;
mod datum;
mod doing;
mod ending;
mod entries;
mod hearing;
mod ids;
mod laws;
mod leaving;
mod line;
mod log_record;
mod naming;
mod poller;
mod putting;
mod reason;
mod rows;
mod status;
mod status_laws;
mod telling;
mod texts;
mod transacting;
mod turns;

pub use counts::Counts;
pub use doing::{Came, Doing};
pub use ending::{Ending, ended_line, is_caught_up, push_count, told_line};
pub use ids::Ids;
pub use laws::{
    asks_no_more, ends_silent, lost_stops_none, polls_once, sends_questions, waits_once,
};
pub use line::Line;
pub use log_record::LogRecord;
pub use poller::DevicePoller;
pub use putting::{NotPut, put_turn};
pub use rows::Rows;
pub use status::{Status, status_at, status_of};
pub use status_laws::{logs_are_counted, status_is_told};
pub use telling::told_by;
pub use transacting::{awaits, close};
