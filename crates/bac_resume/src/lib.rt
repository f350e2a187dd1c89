//! Where the poll of each log goes on, by the rows that an archive tells as a run begins.
//!
//! [`by_log`] sorts the rows by their logs in one pass (specs/Rows). [`go_on`] tells of a log where
//! its poll goes on (specs/Resumed): nothing has begun, a beginning is known by the count alone, or
//! the newest items of its last epoch say which number comes next and which records lie right
//! before it (specs/Stands).
#![tactic(auto)]

mod items;
mod laws;
mod resumed;
mod rows;
mod texts;

pub use items::{is_full, next_of};
pub use laws::{
    full_goes_on_at_one, goes_on_anew, goes_on_behind_gap, goes_on_behind_records,
    goes_on_where_it_stopped, joins_there, known_are_kept, newest_are_told, next_is_number,
    none_is_newer, restart_is_read_back,
};
pub use resumed::{Resumed, go_on};
pub use rows::{LogRows, by_log};
