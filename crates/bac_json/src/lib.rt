//! JSON in lines (RFC 8259): an object on a line of its own, written field by field.
//!
//! A [`Line`] appends one to a text; what it then has is `line_of` of its fields (specs/Lines).
//! Texts are escaped as they have to be, and what isn't UTF-8 in them is shown as U+FFFD.
#![tactic(auto)]

mod line;

pub use line::Line;
