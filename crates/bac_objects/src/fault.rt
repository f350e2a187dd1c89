//! Why requests are refused.

ghost use Rattle.std.specs.Prelude.{◌≡◌};
ghost use Rattle.bac_objects.specs.Fault.{class_of, code_of};

/// An error (clause 18).
#[derive(Clone, Copy, Debug, PartialEq, Eq)]
pub enum Fault {
    /// The object isn't there.
    UnknownObject,
    /// The object doesn't have the property.
    UnknownProperty,
    /// There is an index, and the property isn't an array.
    NotArray,
    /// The array has no such element.
    BadIndex,
    /// The property can't be read by this service.
    ReadDenied,
    /// The property has no records of a log.
    NotList,
    /// The property can't be written, or not at this priority, or its log takes no more records.
    WriteDenied,
    /// The value has another type than the property.
    BadType,
    /// The value is outside the property's range.
    BadValue,
}

impl Fault {
    /// The number of its class: object, services or property (clause 21, BACnet-Error).
    pub fn class(self) -> u32
        ensures { result ≡ class_of self }
    {
        match self {
            Fault::UnknownObject => 1,
            Fault::NotList => 5,
            _ => 2,
        }
    }

    /// The number of its code (clause 21, BACnet-Error).
    pub fn code(self) -> u32
        ensures { result ≡ code_of self }
    {
        match self {
            Fault::UnknownObject => 31,
            Fault::UnknownProperty => 32,
            Fault::NotArray => 50,
            Fault::BadIndex => 42,
            Fault::ReadDenied => 27,
            Fault::NotList => 22,
            Fault::WriteDenied => 40,
            Fault::BadType => 9,
            Fault::BadValue => 37,
        }
    }
}

/// Why values aren't read.
#[derive(Clone, Copy, Debug, PartialEq, Eq)]
pub enum Refused {
    /// There are none.
    Fault(Fault),
    /// Their octets don't fit a datagram.
    TooLong,
}
