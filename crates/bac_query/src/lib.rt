//! What the tools ask of devices, and what they print of the answers, over any link and any writer.
//!
//! [`read_property`] prints a property's values, a line each (specs/Reading, specs/Values). What is
//! printed is said of every link and every writer that tells what it holds: the whole text, or a
//! front part of it if a write was refused, and nothing else.
//!
//! [`find_devices`] asks each address by Who-Is over any port and prints a line for each I-Am that
//! comes (clause 16.10; specs/Finding, specs/Announcements). [`push_items`] and [`push_end`] make
//! the texts of what a walk delivers: a line for each item, and why it ended. [`list_logs`] prints
//! what a device's trend logs are (specs/Tables, specs/Cells).
#![tactic(auto)]

mod ahead;
mod announcement;
mod answers;
mod cells;
mod csv_rows;
mod ends;
mod fault;
mod fetching;
mod fetching_ahead;
mod find_fault;
mod finding;
mod items;
mod json_lines;
mod layout;
mod line;
mod more;
mod object_list;
mod reading;
mod reals;
mod request;
mod search;
mod seeking;
mod source;
mod table;
mod values;
mod writing;

pub use answers::{number_in, text_in, values_in};
pub use ends::{push_cause, push_end, push_refusal};
pub use fault::QueryFault;
pub use fetching::Fetched;
pub use fetching_ahead::fetch_log_ahead;
pub use find_fault::FindFault;
pub use finding::{RECEIVES, find_devices};
pub use items::{push_item, push_items};
pub use layout::begin_layout;
pub use object_list::{DEVICE, ITSELF, OBJECT_LIST, listed_in, object_at, object_in};
pub use reading::read_property;
pub use reals::Reals;
pub use search::Search;
pub use table::list_logs;
pub use values::push_values;
pub use writing::write_property;
