//! The numbers of properties that more than one crate knows (clause 21,
//! BACnetPropertyIdentifier).

/// Log_Buffer, the records of a log.
pub const LOG_BUFFER: u32 = 131;
