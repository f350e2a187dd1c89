//! What the answers of a device say: who it is, where it is asked, its word, its clock, which
//! objects it has, and what its trend logs are. Each function is one of its arguments alone.
#![tactic(auto)]

mod clock;
mod entry;
mod listing;
mod naming;
mod read;
mod refusal;
mod reject;
mod source;
mod text;
mod way;
mod who;
mod word;

pub use clock::offset;
pub use entry::{Entry, Naming, Offset, Others, Reference};
pub use listing::{added, is_among, is_object, may_differ, others_in, push_others};
pub use naming::{is_changed, push_read, subject, unnamed};
pub use read::{
    told_date, told_number, told_object, told_objects, told_text, told_time, told_units,
};
pub use refusal::{is_busy, is_too_long};
pub use reject::NoRoute;
pub use source::told_source;
pub use text::Text;
pub use way::Way;
pub use who::{Who, Whose, device_of, find_whose, itself, told_device};
pub use word::{moment_in, restart_in, told_again};
