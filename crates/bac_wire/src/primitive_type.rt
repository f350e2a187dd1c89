//! The primitive types by the numbers of their application tags (clause 20.2.1.4).

ghost use Rattle.std.specs.Prelude.{◌≡◌, ◌<◌, ◌≤◌, IfSome, IfNone};
ghost use Rattle.bac_wire.specs.PrimitiveType.{type_number};

/// The type of a primitive value.
#[derive(Clone, Copy, Debug, PartialEq, Eq)]
pub enum PrimitiveType {
    Null,
    Boolean,
    Unsigned,
    Signed,
    Real,
    Double,
    OctetString,
    CharacterString,
    BitString,
    Enumerated,
    Date,
    Time,
    ObjectIdentifier,
}

impl PrimitiveType {
    /// The type whose application tag has this number; `None` above 12.
    pub(crate) fn of(number: u8) -> Option<PrimitiveType>
        ensures some { IfSome result (λ kind. type_number kind ≡ number) }
        ensures none { IfNone result (12 < number) }
    {
        Some(match number {
            0 => PrimitiveType::Null,
            1 => PrimitiveType::Boolean,
            2 => PrimitiveType::Unsigned,
            3 => PrimitiveType::Signed,
            4 => PrimitiveType::Real,
            5 => PrimitiveType::Double,
            6 => PrimitiveType::OctetString,
            7 => PrimitiveType::CharacterString,
            8 => PrimitiveType::BitString,
            9 => PrimitiveType::Enumerated,
            10 => PrimitiveType::Date,
            11 => PrimitiveType::Time,
            12 => PrimitiveType::ObjectIdentifier,
            _ => return None,
        })
    }

    /// The number of its application tag.
    pub fn number(self) -> u8
        ensures value { result ≡ type_number self }
        ensures bound { result ≤ 12 }
    {
        match self {
            PrimitiveType::Null => 0,
            PrimitiveType::Boolean => 1,
            PrimitiveType::Unsigned => 2,
            PrimitiveType::Signed => 3,
            PrimitiveType::Real => 4,
            PrimitiveType::Double => 5,
            PrimitiveType::OctetString => 6,
            PrimitiveType::CharacterString => 7,
            PrimitiveType::BitString => 8,
            PrimitiveType::Enumerated => 9,
            PrimitiveType::Date => 10,
            PrimitiveType::Time => 11,
            PrimitiveType::ObjectIdentifier => 12,
        }
    }
}
