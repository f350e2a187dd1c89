//! What an archive of format 3 keeps of each epoch of each log, counted: how many records and gaps
//! there are, and which numbers are in no row.
#![tactic(auto)]

mod checking;
mod counts;
mod course;
mod gone;
mod joins;
mod laws;
mod lines;
mod rows;
mod tally;

pub use checking::{Ending, Unprinted, check, print};
pub use counts::Counts;
pub use course::{Beginning, Course};
pub use laws::{holes_are_missing, whole_has_each};
pub use tally::{Hole, Span, Tally, Uncounted, all_are_counted, front_hole, none_is_missing, take};
