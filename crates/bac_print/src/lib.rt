//! Texts for people: numbers, addresses, moments, primitive values and records of trend logs.
//!
//! Each call appends to the caller's buffer. [`push_value`] is the text of a value (specs/Values),
//! [`push_record`] and [`push_gap`] are the lines of what a walk of a trend log delivers
//! (specs/Entries). They take memory when the text has no room left.
//! [`write_text`] writes a text, and tells what a refused write left (specs/Output). [`text_of`] is
//! the text of a Character String in Unicode (specs/Texts).
#![tactic(auto)]

mod addresses;
mod causes;
mod entries;
mod moments;
mod numbers;
mod output;
mod texts;
mod values;

pub use addresses::push_address;
pub use causes::{abort_reason_name, error_code_name, reject_reason_name};
pub use entries::{push_datum, push_flags, push_gap, push_record};
pub use moments::push_moment;
pub use numbers::{push_hex, push_number, push_signed};
pub use output::{WriteRefused, write_text};
pub use texts::text_of;
pub use values::push_value;
