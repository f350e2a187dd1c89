//! The numbers that values of BACnet are, and their texts.
//!
//! [`value_of`] is the number that a datum of a trend log is (specs/Numbers); [`push_short`]
//! appends the shortest text that reads back as a number, [`push_real`] and [`push_double`] those
//! of a REAL and a Double (clauses 20.2.6 and 20.2.7).
#![tactic(auto)]

mod datum;
mod reals;

pub use datum::value_of;
pub use reals::{push_double, push_real, push_short};
