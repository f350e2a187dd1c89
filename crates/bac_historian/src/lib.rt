//! A run of keep over the files of an archive.
//!
//! [`keep_file`] opens the file at a place, begins it as the part that follows on another where it
//! has nothing, runs [`bac_keeping::keep_site`] over it, and closes it. [`keep_in`] is the same
//! over an open database. What a run has at hand beside its files is a [`Room`]. Whatever comes of
//! it, an archive that was there loses nothing ([`keep_loses_nothing`]).
#![tactic(auto)]

mod fault;
mod files;
mod keeping;
mod laws;
mod ready;
mod room;

pub use fault::Fault;
pub use files::keep_file;
pub use keeping::keep_in;
pub use laws::{keep_loses_nothing, kill_loses_nothing};
pub use room::Room;
