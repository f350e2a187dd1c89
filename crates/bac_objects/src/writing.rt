//! Writes of properties (clause 15.9).

ghost use Rattle.std.specs.Prelude.{◌≡◌, ◌≤◌};
ghost use Rattle.std.specs.Option.{option_map};
ghost use Rattle.bac_wire.specs.View.{view};
ghost use Rattle.bac_apdu.specs.Service.WriteProperty.{IsPriority, write_of_code};
ghost use Rattle.bac_log.specs.TrendLog.{IsLog};
ghost use Rattle.bac_objects.specs.Chain.{Leaves};
ghost use Rattle.bac_objects.specs.Kept.{KeepsBody};
ghost use Rattle.bac_objects.specs.Sound.{IsSound};
ghost use Rattle.bac_objects.specs.Properties.{device_table, row};
ghost use Rattle.bac_objects.specs.Reading.{shown_of};
ghost use Rattle.bac_objects.specs.Writing.{body_written, checked, command_written, enabled};
ghost use Rattle.bac_objects.specs.Writing.{is_array, log_written, object_written, priority_of};
ghost use Rattle.bac_objects.specs.Writing.{purged, refusal, setting_of, write_of};

use crate::command::{Command, Range, Setting};
use crate::database::Database;
use crate::fault::Fault;
use crate::object::{Body, Logger, Object};
use crate::property::Property;
use crate::property_id::{ENABLE, PRESENT_VALUE, RECORD_COUNT};
use bac_apdu::WriteProperty;
use bac_log::TrendLog;
use bac_wire::{Stamp, Value};

/// The priority of minimum on and off times, at which nobody writes (clause 19.2).
const MINIMUM_ON_OFF: u8 = 6;

/// What a value puts into a slot; Null relinquishes it.
fn setting(range: Range, value: &Value) -> Result<Option<Setting>, Fault>
    ensures { result ≡ setting_of range (view value.now) }
{
    match (range, value) {
        (_, Value::Null) => Ok(None),
        (Range::Binary, Value::Enumerated(number)) => {
            if *number > 1 {
                return Err(Fault::BadValue);
            }
            Ok(Some(Setting::Enumerated(*number)))
        }
        (Range::Multistate { states }, Value::Unsigned(number)) => {
            if *number < 1 || *number > states as u64 {
                return Err(Fault::BadValue);
            }
            Ok(Some(Setting::Unsigned(*number as u32)))
        }
        (Range::Integer, Value::Signed(number)) => {
            if *number < -0x8000_0000 || *number > 0x7fff_ffff {
                return Err(Fault::BadValue);
            }
            Ok(Some(Setting::Signed(*number as i32)))
        }
        _ => Err(Fault::BadType),
    }
}

/// The priority of a write, from 1 to 16.
fn priority_of(write: &WriteProperty) -> u8
    requires { IsPriority write.now.priority }
    ensures value { result ≡ priority_of (write_of_code write.now) }
    ensures bounds { (1 ≤ result) × (result ≤ 16) }
{
    match write.priority {
        Some(priority) => priority,
        None => 16,
    }
}

impl<'a> Property<'a> {
    /// Whether the property has elements with an index.
    fn is_array(&self) -> bool
        ensures { result ≡ is_array (shown_of self.now) }
    {
        matches!(self, Property::Slots(_) | Property::Objects(_))
    }
}

/// Whether the property is there, and an index only if it is an array.
pub(crate) fn checked(property: &Option<Property>, index: Option<u32>) -> Result<(), Fault>
    ensures { result ≡ checked (option_map shown_of property.now) index }
{
    match property {
        Some(property) => match index {
            Some(_) => {
                if property.is_array() {
                    Ok(())
                } else {
                    Err(Fault::NotArray)
                }
            }
            None => Ok(()),
        },
        None => Err(Fault::UnknownProperty),
    }
}

impl Command {
    /// Writes the present value at a priority.
    fn write(&mut self, write: &WriteProperty) -> Result<(), Fault>
        requires { IsPriority write.now.priority }
        ensures { Leaves result self.old self.new
            (command_written (write_of_code write.now) self.old) }
    {
        let priority = priority_of(write);
        if write.property != PRESENT_VALUE || priority == MINIMUM_ON_OFF {
            return Err(Fault::WriteDenied);
        }
        let slot = setting(self.range, &write.value)?;
        self.put(priority as usize - 1, slot);
        Ok(())
    }
}

/// Writes Enable: a change logs a record that says so.
fn enable(log: &mut TrendLog, clock: Stamp, value: &Value) -> Result<(), Fault>
    ensures written { Leaves result log.old log.new (enabled clock (view value.now) log.old) }
    ensures is_log { IsLog log.old → IsLog log.new }
{
    let Value::Boolean(value) = *value else {
        return Err(Fault::BadType);
    };
    match log.set_enabled(value, clock) {
        Ok(_) => Ok(()),
        Err(_) => Err(Fault::WriteDenied),
    }
}

/// Writes Record_Count: 0 empties the log, and is logged.
fn purge(log: &mut TrendLog, clock: Stamp, value: &Value) -> Result<(), Fault>
    ensures written { Leaves result log.old log.new (purged clock (view value.now) log.old) }
    ensures is_log { IsLog log.old → IsLog log.new }
{
    let Value::Unsigned(count) = *value else {
        return Err(Fault::BadType);
    };
    if count != 0 {
        return Err(Fault::BadValue);
    }
    match log.purge(clock) {
        Ok(_) => Ok(()),
        Err(_) => Err(Fault::WriteDenied),
    }
}

impl Logger {
    /// Writes a property of a Trend Log.
    fn write(&mut self, clock: Stamp, write: &WriteProperty) -> Result<(), Fault>
        ensures written { Leaves result self.old self.new
            (log_written clock (write_of_code write.now) self.old) }
        ensures is_log { IsLog self.old.log → IsLog self.new.log }
        ensures interval { self.new.interval ≡ self.old.interval }
    {
        match write.property {
            ENABLE => enable(&mut self.log, clock, &write.value),
            RECORD_COUNT => purge(&mut self.log, clock, &write.value),
            _ => Err(Fault::WriteDenied),
        }
    }
}

impl Body {
    /// Writes a property that not every object has.
    fn write(&mut self, clock: Stamp, write: &WriteProperty) -> Result<(), Fault>
        requires { IsPriority write.now.priority }
        ensures written { Leaves result self.old self.new
            (body_written clock (write_of_code write.now) self.old) }
        ensures keeps { KeepsBody self.old self.new }
    {
        match self {
            Body::Command(command) => command.write(write),
            Body::Log(logger) => logger.write(clock, write),
        }
    }
}

impl Object {
    /// Writes a property.
    fn write(&mut self, clock: Stamp, write: &WriteProperty) -> Result<(), Fault>
        requires { IsPriority write.now.priority }
        ensures written { Leaves result self.old self.new
            (object_written clock (write_of_code write.now) self.old) }
        ensures keeps { KeepsBody self.old.body self.new.body }
    {
        checked(&self.property(write.object, write.property), write.index)?;
        self.body.write(clock, write)
    }
}

impl Database {
    /// Why the device itself refuses a write.
    fn refusal(&self, write: &WriteProperty) -> Fault
        ensures { result
            ≡ refusal (checked (row write.now.property (device_table self.now)) write.now.index) }
    {
        match checked(&self.property(write.property), write.index) {
            Ok(()) => Fault::WriteDenied,
            Err(fault) => fault,
        }
    }

    /// Writes a property, or tells the first fault and changes nothing: no such object, no such
    /// property, an index into what is no array, a property that can't be written (also
    /// Present_Value at priority 6), another type, a value outside the range, a log without a
    /// sequence number for the record of the change (clause 15.9.2).
    pub fn write(&mut self, write: &WriteProperty) -> Result<(), Fault>
        requires { IsPriority write.now.priority }
        ensures written { Leaves result self.old self.new
            (write_of self.old (write_of_code write.now)) }
        ensures was_sound { IsSound self.old }
        ensures sound { IsSound self.new }
    {
        if self.is_device(write.object) {
            return Err(self.refusal(write));
        }
        let clock = self.clock;
        let Some(object) = self.objects.get_mut(&write.object) else {
            return Err(Fault::UnknownObject);
        };
        object.write(clock, write)
    }
}
