//! The numbers of object types that more than one crate knows (clause 21, BACnetObjectType).

/// Trend Log.
pub const TREND_LOG: u16 = 20;
