//! The objects of a device.

use crate::command::Command;
use crate::name::Name;
use bac_log::TrendLog;
use bac_wire::ObjectId;

/// A Trend Log (clause 12.25): what it samples, and its records.
#[derive(Drop)]
pub struct Logger {
    /// The object whose Present_Value is sampled, which need not be there.
    pub source: ObjectId,
    /// Hundredths of a second between two samples; 0 for samples on demand alone.
    pub interval: u32,
    pub log: TrendLog,
}

/// What an object is.
#[derive(Drop)]
pub enum Body {
    /// A Binary Value (clause 12.8), a Multi-state Value (12.20) or an Integer Value (12.43).
    Command(Command),
    /// A Trend Log.
    Log(Logger),
}

/// An object, apart from its identifier.
#[derive(Drop)]
pub struct Object {
    pub name: Name,
    pub body: Body,
}
