//! The objects of a device and their properties (clause 12): built of lines, read and written.
//!
//! [`Database::build`] makes a [`Database`] of a [`DeviceLine`] and [`ObjectLine`]s, or tells the
//! first fault ([`BuildFault`]). [`Database::read_into`] writes the values of a property as octets,
//! and [`Database::write`] sets one, each with the [`Fault`] of the standard. Contracts see a
//! database as the record `State` of specs/State; specs/Properties has a row for each property.
//!
//! Frames, network headers and the answers to services are in the crate above.
#![tactic(auto)]

mod build;
mod command;
mod database;
mod fault;
mod laws;
mod lines;
mod mending;
mod name;
mod object;
mod property;
mod property_id;
mod reading;
mod records;
mod sampling;
mod writing;

pub use build::{BuildFault, Misfit};
pub use command::{Command, Range, Setting};
pub use database::Database;
pub use fault::{Fault, Refused};
pub use laws::{
    built_devices_are_sound, duplicate_names_have_a_namesake, lines_need_no_memory,
    misfits_have_the_first_fault, objects_are_found,
};
pub use lines::{DeviceLine, LineId, ObjectLine};
pub use mending::misfit;
pub use name::Name;
pub use object::{Body, Logger, Object};
pub use sampling::SampleFault;
