//! Where the rows of a log stand in an archive: a [`Place`] is a log and an epoch of it, and tells
//! the id of the row of each number. What the row of a record has is in specs/Rows.
#![tactic(auto)]

mod place;
mod rows;

pub use place::Place;
