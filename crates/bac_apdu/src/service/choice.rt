//! The numbers of services (clause 21, BACnetConfirmedServiceChoice and
//! BACnetUnconfirmedServiceChoice).

/// ReadProperty, confirmed.
pub const READ_PROPERTY: u8 = 12;

/// WriteProperty, confirmed.
pub const WRITE_PROPERTY: u8 = 15;

/// ReadRange, confirmed.
pub const READ_RANGE: u8 = 26;

/// I-Am, unconfirmed.
pub const I_AM: u8 = 0;

/// Who-Is, unconfirmed.
pub const WHO_IS: u8 = 8;
