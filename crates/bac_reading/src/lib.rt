//! What `bac kept` and `bac check` do over an archive of format 3, in a file or in the parts of a
//! folder.
//!
//! [`run_kept`] prints what it keeps of the logs that are chosen, or of each the newest record;
//! [`run_check`] counts the numbers of each epoch, and tells which are missing. A part that is no
//! use is told on the errors, and the others are read. Each is left as it is. A file may have been
//! written by anyone.
#![tactic(auto)]

mod checking;
mod fault;
mod kept;
mod last;
mod laws;
mod listing;
mod program;
mod report;
mod taking;

pub use checking::run_check;
pub use fault::{Fault, Trouble};
pub use laws::{one_is_none, zero_is_whole, zero_prints_each};
pub use program::{Asked, run_kept};
