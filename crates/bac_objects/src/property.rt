//! The properties of each object (clause 12).

ghost use Rattle.std.specs.Prelude.{◌≡◌, IfSome};
ghost use Rattle.std.specs.Option.{option_map};
ghost use Rattle.bac_wire.specs.Primitive.{Bits, Chars};
ghost use Rattle.bac_wire.specs.View.{IsWellFormed, view};
ghost use Rattle.bac_objects.specs.Bits.{services_supported, types_supported};
ghost use Rattle.bac_objects.specs.Properties.{body_rows, command_rows, device_table, further};
ghost use Rattle.bac_objects.specs.Properties.{log_rows, object_table, row};
ghost use Rattle.bac_objects.specs.Reading.{CanBeWritten, shown_of};

use crate::command::{Command, Range, Setting};
use crate::database::{DEVICE, Database};
use crate::object::{Body, Logger, Object};
use crate::property_id::{
    APDU_TIMEOUT, APPLICATION_SOFTWARE_VERSION, BUFFER_SIZE, DATABASE_REVISION,
    DEVICE_ADDRESS_BINDING, ENABLE, EVENT_STATE, FIRMWARE_REVISION, LOCAL_DATE, LOCAL_TIME,
    LOG_BUFFER, LOG_DEVICE_OBJECT_PROPERTY, LOG_INTERVAL, LOGGING_TYPE, MAX_APDU_LENGTH_ACCEPTED,
    MODEL_NAME, NUMBER_OF_APDU_RETRIES, NUMBER_OF_STATES, OBJECT_IDENTIFIER, OBJECT_LIST,
    OBJECT_NAME, OBJECT_TYPE, OUT_OF_SERVICE, PRESENT_VALUE, PRIORITY_ARRAY,
    PROTOCOL_OBJECT_TYPES_SUPPORTED, PROTOCOL_REVISION, PROTOCOL_SERVICES_SUPPORTED,
    PROTOCOL_VERSION, RECORD_COUNT, RELINQUISH_DEFAULT, SEGMENTATION_SUPPORTED, STATUS_FLAGS,
    STOP_WHEN_FULL, SYSTEM_STATUS, TOTAL_RECORD_COUNT, UNITS, VENDOR_IDENTIFIER, VENDOR_NAME,
};
use bac_wire::{ObjectId, Value};

/// No segmentation in either direction (clause 21, BACnetSegmentation).
const NO_SEGMENTATION: u32 = 3;

/// Without a unit (clause 21, BACnetEngineeringUnits).
const NO_UNITS: u32 = 95;

/// What a property is.
#[derive(Clone, Copy)]
pub enum Property<'a> {
    /// One value.
    One(Value<'a>),
    /// A list without a value.
    Nothing,
    /// The priority array.
    Slots(&'a [Option<Setting>; 16]),
    /// The object list.
    Objects(&'a Database),
    /// A property of an object, by their numbers.
    Reference { object: ObjectId, property: u32 },
    /// The records of a log.
    Records,
}

/// A character string in UTF-8.
fn text(octets: &[u8]) -> Value
    ensures value { view result ≡ Chars 0 octets.now }
    ensures sound { IsWellFormed result }
{
    Value::Chars { set: 0, octets }
}

/// ReadProperty, WriteProperty, Who-Is and ReadRange, each by its bit.
#[tactic(auto, unfolding(crate::specs::Bits::services_supported))]
fn services_supported() -> Value<'static>
    ensures value { view result ≡ Bits services_supported }
    ensures sound { IsWellFormed result }
{
    Value::Bits {
        unused: 0,
        octets: &[0x00, 0x09, 0x00, 0x00, 0x30],
    }
}

/// Binary Value, Device, Multi-state Value, Trend Log and Integer Value, each by its bit.
#[tactic(auto, unfolding(crate::specs::Bits::types_supported))]
fn types_supported() -> Value<'static>
    ensures value { view result ≡ Bits types_supported }
    ensures sound { IsWellFormed result }
{
    Value::Bits {
        unused: 0,
        octets: &[0x04, 0x80, 0x18, 0x00, 0x00, 0x04],
    }
}

impl Range {
    /// A property that only objects of this type have.
    fn property(&self, property: u32) -> Option<Property>
        ensures value { option_map shown_of result ≡ row property (further self.now) }
        ensures writable { IfSome result CanBeWritten }
    {
        match (self, property) {
            (Range::Multistate { states }, NUMBER_OF_STATES) => {
                Some(Property::One(Value::Unsigned(*states as u64)))
            }
            (Range::Integer, UNITS) => Some(Property::One(Value::Enumerated(NO_UNITS))),
            _ => None,
        }
    }
}

impl Command {
    /// A property of a commandable object.
    fn property(&self, property: u32) -> Option<Property>
        ensures value { option_map shown_of result ≡ row property (command_rows self.now) }
        ensures writable { IfSome result CanBeWritten }
    {
        match property {
            PRESENT_VALUE => Some(Property::One(self.present().value())),
            STATUS_FLAGS => Some(Property::One(Value::Bits {
                unused: 4,
                octets: &[0],
            })),
            EVENT_STATE => Some(Property::One(Value::Enumerated(0))),
            OUT_OF_SERVICE => Some(Property::One(Value::Boolean(false))),
            PRIORITY_ARRAY => Some(Property::Slots(&self.slots)),
            RELINQUISH_DEFAULT => Some(Property::One(self.default.value())),
            _ => self.range.property(property),
        }
    }
}

impl Logger {
    /// A property of a Trend Log.
    fn property(&self, property: u32) -> Option<Property>
        ensures value { option_map shown_of result ≡ row property (log_rows self.now) }
        ensures writable { IfSome result CanBeWritten }
    {
        match property {
            ENABLE => Some(Property::One(Value::Boolean(self.log.enabled()))),
            STOP_WHEN_FULL => Some(Property::One(Value::Boolean(false))),
            BUFFER_SIZE => Some(Property::One(Value::Unsigned(self.log.capacity() as u64))),
            LOG_BUFFER => Some(Property::Records),
            RECORD_COUNT => Some(Property::One(Value::Unsigned(self.log.count() as u64))),
            TOTAL_RECORD_COUNT => Some(Property::One(Value::Unsigned(self.log.total() as u64))),
            LOGGING_TYPE => Some(Property::One(Value::Enumerated(0))),
            LOG_DEVICE_OBJECT_PROPERTY => Some(Property::Reference {
                object: self.source,
                property: PRESENT_VALUE,
            }),
            LOG_INTERVAL => Some(Property::One(Value::Unsigned(self.interval as u64))),
            STATUS_FLAGS => Some(Property::One(Value::Bits {
                unused: 4,
                octets: &[0],
            })),
            EVENT_STATE => Some(Property::One(Value::Enumerated(0))),
            _ => None,
        }
    }
}

impl Body {
    /// A property that not every object has.
    fn property(&self, property: u32) -> Option<Property>
        ensures value { option_map shown_of result ≡ row property (body_rows self.now) }
        ensures writable { IfSome result CanBeWritten }
    {
        match self {
            Body::Command(command) => command.property(property),
            Body::Log(logger) => logger.property(property),
        }
    }
}

impl Object {
    /// A property of the object with this identifier.
    pub(crate) fn property(&self, id: ObjectId, property: u32) -> Option<Property>
        ensures value { option_map shown_of result ≡ row property (object_table id self.now) }
        ensures writable { IfSome result CanBeWritten }
    {
        match property {
            OBJECT_IDENTIFIER => Some(Property::One(Value::Object(id))),
            OBJECT_NAME => Some(Property::One(text(self.name.octets()))),
            OBJECT_TYPE => Some(Property::One(Value::Enumerated(id.kind() as u32))),
            _ => self.body.property(property),
        }
    }
}

impl Database {
    /// A property of the device itself.
    pub(crate) fn property(&self, property: u32) -> Option<Property>
        ensures value { option_map shown_of result ≡ row property (device_table self.now) }
        ensures writable { IfSome result CanBeWritten }
    {
        match property {
            OBJECT_IDENTIFIER => Some(Property::One(Value::Object(self.id()))),
            OBJECT_NAME => Some(Property::One(text(self.name.octets()))),
            OBJECT_TYPE => Some(Property::One(Value::Enumerated(DEVICE as u32))),
            SYSTEM_STATUS => Some(Property::One(Value::Enumerated(0))),
            VENDOR_NAME => Some(Property::One(text(b"own"))),
            VENDOR_IDENTIFIER => Some(Property::One(Value::Unsigned(self.vendor as u64))),
            MODEL_NAME => Some(Property::One(text(b"bac"))),
            FIRMWARE_REVISION => Some(Property::One(text(b"1"))),
            APPLICATION_SOFTWARE_VERSION => Some(Property::One(text(b"1"))),
            PROTOCOL_VERSION => Some(Property::One(Value::Unsigned(1))),
            PROTOCOL_REVISION => Some(Property::One(Value::Unsigned(12))),
            PROTOCOL_SERVICES_SUPPORTED => Some(Property::One(services_supported())),
            PROTOCOL_OBJECT_TYPES_SUPPORTED => Some(Property::One(types_supported())),
            OBJECT_LIST => Some(Property::Objects(self)),
            MAX_APDU_LENGTH_ACCEPTED => Some(Property::One(Value::Unsigned(
                self.reply_size as u64,
            ))),
            SEGMENTATION_SUPPORTED => Some(Property::One(Value::Enumerated(NO_SEGMENTATION))),
            APDU_TIMEOUT => Some(Property::One(Value::Unsigned(3000))),
            NUMBER_OF_APDU_RETRIES => Some(Property::One(Value::Unsigned(3))),
            DEVICE_ADDRESS_BINDING => Some(Property::Nothing),
            DATABASE_REVISION => Some(Property::One(Value::Unsigned(1))),
            LOCAL_DATE => Some(Property::One(Value::Date(self.clock.date()))),
            LOCAL_TIME => Some(Property::One(Value::Time(self.clock.time()))),
            _ => None,
        }
    }
}
