//! What `bac kept` prints of an archive of format 3: the records and gaps of logs, and where their
//! epochs begin, in lines, as CSV or as JSON, and what a part of an archive keeps behind the parts
//! before it; or of each log the newest record alone, and since when its device is silent
//! ([`Lasts`]). A file may have been written by anyone.
#![tactic(auto)]

mod csv_rows;
mod fault;
mod hours;
mod items;
mod json_lines;
mod last_rows;
mod lasts;
mod laws;
mod lines;
mod parts;
mod record;
mod seen;
mod shown;
mod silence;
mod words;

pub use csv_rows::{has_names, print_names};
pub use fault::Fault;
pub use lasts::Lasts;
pub use laws::parts_print_each_once;
pub use parts::print_part;
pub use seen::{Newest, Seen};
pub use words::{Behind, Choice, Dates, Place, Words};
