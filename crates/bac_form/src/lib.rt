//! The form of a tool's output.
#![tactic(auto)]

mod form;

pub use form::Form;
