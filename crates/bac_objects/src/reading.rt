//! Reads of properties, as octets (clause 15.5).

ghost use Rattle.std.specs.Prelude.{◌≡◌, [], ◌∷◌, map, slice_get, Ok, IfSome, OnErr};
ghost use Rattle.std.specs.Option.{option_map};
ghost use Rattle.bac_wire.specs.Primitive.{Object};
ghost use Rattle.bac_wire.specs.View.{IsWellFormed, view};
ghost use Rattle.bac_objects.specs.Properties.{Array, object_list, slot_value};
ghost use Rattle.bac_objects.specs.Reading.{Appends, CanBeWritten, elements, elements_of, fitted};
ghost use Rattle.bac_objects.specs.Reading.{read_of, reference_octets, shown_of, told};
ghost use Rattle.bac_objects.specs.Reading.{values_octets};

use crate::command::{Setting, slot_value};
use crate::database::Database;
use crate::fault::{Fault, Refused};
use crate::property::Property;
use bac_apdu::ReadProperty;
use bac_wire::{Datagram, ObjectId, Value, write_context, write_value};

/// Appends a value.
fn add(out: &mut Datagram, value: &Value) -> Result<(), Refused>
    requires { IsWellFormed value.now }
    ensures { Appends out.old (view value.now) result out.new }
{
    match write_value(out, value) {
        Ok(()) => Ok(()),
        Err(_) => Err(Refused::TooLong),
    }
}

/// One value.
fn single(value: &Value, out: &mut Datagram) -> Result<(), Refused>
    requires value { IsWellFormed value.now }
    requires empty { out.old ≡ [] }
    ensures { told result out.new ≡ fitted (Ok (values_octets (view value.now ∷ []))) }
{
    match add(out, value) {
        Ok(()) => Ok(()),
        Err(fault) => Err(fault),
    }
}

/// A reference to a property of this device that is no array.
#[tactic(auto, unfolding(crate::specs::Reading::reference_octets))]
fn reference(object: ObjectId, property: u32, out: &mut Datagram) -> Result<(), Refused>
    requires { out.old ≡ [] }
    ensures { told result out.new ≡ fitted (Ok (reference_octets object property)) }
{
    if write_context(out, 0, &Value::Object(object)).is_err() {
        return Err(Refused::TooLong);
    }
    if write_context(out, 1, &Value::Enumerated(property)).is_err() {
        return Err(Refused::TooLong);
    }
    Ok(())
}

/// The values of all priorities.
fn all_slots(slots: &[Option<Setting>; 16], out: &mut Datagram) -> Result<(), Refused>
    requires { out.old ≡ [] }
    ensures { told result out.new ≡ fitted (Ok (values_octets (map slot_value slots.now))) }
{
    for slot in slots {
        if let Err(fault) = add(out, &slot_value(*slot)) {
            return Err(fault);
        }
    }
    Ok(())
}

/// The priority array, or its element at an index.
fn slots_at(
    slots: &[Option<Setting>; 16],
    index: Option<u32>,
    out: &mut Datagram,
) -> Result<(), Refused>
    requires { out.old ≡ [] }
    ensures { told result out.new ≡ fitted (elements (Array (map slot_value slots.now)) index) }
{
    match index {
        None => all_slots(slots, out),
        Some(0) => single(&Value::Unsigned(16), out),
        Some(index) => match slots.get(index as usize - 1) {
            Some(slot) => single(&slot_value(*slot), out),
            None => Err(Refused::Fault(Fault::BadIndex)),
        },
    }
}

impl<'a> Property<'a> {
    /// The values of the property, or the element at an index.
    #[tactic(auto, using(crate::proofs::Encodings::nothing))]
    fn write_values(&self, index: Option<u32>, out: &mut Datagram) -> Result<(), Refused>
        requires writable { CanBeWritten self.now }
        requires empty { out.old ≡ [] }
        ensures { told result out.new ≡ fitted (elements (shown_of self.now) index) }
    {
        match self {
            Property::One(value) => match index {
                None => single(value, out),
                Some(_) => Err(Refused::Fault(Fault::NotArray)),
            },
            Property::Nothing => match index {
                None => Ok(()),
                Some(_) => Err(Refused::Fault(Fault::NotArray)),
            },
            Property::Slots(slots) => slots_at(slots, index, out),
            Property::Objects(database) => database.objects_at(index, out),
            Property::Reference { object, property } => match index {
                None => reference(*object, *property, out),
                Some(_) => Err(Refused::Fault(Fault::NotArray)),
            },
            Property::Records => match index {
                None => Err(Refused::Fault(Fault::ReadDenied)),
                Some(_) => Err(Refused::Fault(Fault::NotArray)),
            },
        }
    }
}

/// The values of a property that an object may have.
fn write_values_of(
    property: &Option<Property>,
    index: Option<u32>,
    out: &mut Datagram,
) -> Result<(), Refused>
    requires writable { IfSome property.now CanBeWritten }
    requires empty { out.old ≡ [] }
    ensures { told result out.new ≡ fitted (elements_of (option_map shown_of property.now) index) }
{
    match property {
        Some(property) => property.write_values(index, out),
        None => Err(Refused::Fault(Fault::UnknownProperty)),
    }
}

impl Database {
    /// The object list, or its element at an index.
    fn objects_at(&self, index: Option<u32>, out: &mut Datagram) -> Result<(), Refused>
        requires { out.old ≡ [] }
        ensures { told result out.new ≡ fitted (elements (Array (object_list self.now)) index) }
    {
        match index {
            None => self.all_objects(out),
            Some(0) => single(&Value::Unsigned(self.objects.len() as u64 + 1), out),
            Some(index) => match self.listed(index as usize - 1) {
                Some(id) => single(&Value::Object(id), out),
                None => Err(Refused::Fault(Fault::BadIndex)),
            },
        }
    }

    /// What the object list has at a place, counted from 0.
    #[tactic(auto, using(crate::proofs::Listing::unlisted))]
    fn listed(&self, place: usize) -> Option<ObjectId>
        ensures { option_map (λ id. Object id) result ≡ slice_get (object_list self.now) place }
    {
        if place == 0 {
            return Some(self.id());
        }
        match self.objects.get_index(place - 1) {
            Some(entry) => Some(*entry.0),
            None => None,
        }
    }

    /// The whole object list.
    fn all_objects(&self, out: &mut Datagram) -> Result<(), Refused>
        requires { out.old ≡ [] }
        ensures { told result out.new ≡ fitted (Ok (values_octets (object_list self.now))) }
    {
        if let Err(fault) = add(out, &Value::Object(self.id())) {
            return Err(fault);
        }
        for id in self.objects.keys() {
            if let Err(fault) = add(out, &Value::Object(*id)) {
                return Err(fault);
            }
        }
        Ok(())
    }

    /// Writes the values that a request asks for into an empty datagram.
    fn write_asked(&self, request: &ReadProperty, out: &mut Datagram) -> Result<(), Refused>
        requires { out.old ≡ [] }
        ensures { told result out.new ≡ fitted (read_of self.now request.now) }
    {
        if self.is_here(request.object) {
            return write_values_of(&self.property(request.property), request.index, out);
        }
        match self.object(request.object) {
            Some(object) => write_values_of(
                &object.property(request.object, request.property),
                request.index,
                out,
            ),
            None => Err(Refused::Fault(Fault::UnknownObject)),
        }
    }

    /// Writes the values that a request asks for, each in its shortest encoding, into `values` in
    /// place of what it holds. The first fault decides, and then `values` is empty: no such object,
    /// no such property, an index into what is no array, no such element, records of a log, which
    /// ReadRange reads (clause 15.5.2); or the values don't fit a datagram.
    pub fn read_into(&self, request: &ReadProperty, values: &mut Datagram) -> Result<(), Refused>
        ensures told { told result values.new ≡ fitted (read_of self.now request.now) }
        ensures err { OnErr result (values.new ≡ []) }
    {
        values.cut(0);
        let read = self.write_asked(request, values);
        if read.is_err() {
            values.cut(0);
        }
        read
    }
}
