//! ReadProperty (clause 15.5).

ghost use Rattle.std.specs.Prelude.{◌≡◌, ◌≤◌, Ok, length, List, ℕ, IfOk, IfErr, IsOkAnd, OnOk};
ghost use Rattle.bac_wire.specs.Chain.{Gives};
ghost use Rattle.bac_wire.specs.Datagram.{Writes};
ghost use Rattle.bac_apdu.specs.Adding.{Adds};
ghost use Rattle.bac_apdu.specs.Form.{Parameter, Reads};
ghost use Rattle.bac_apdu.specs.FormReading.{form_at, Stops};
ghost use Rattle.bac_apdu.specs.FormCanon.{canon_form};
ghost use Rattle.bac_apdu.specs.Service.ReadProperty.{read_property, property_parameters};
ghost use Rattle.bac_apdu.specs.Service.ReadProperty.{read_property_at, IsProperty};

use crate::parameters::Parameters;
use crate::parameters_out::cut_back;
use crate::reason::Reason;
use crate::service::property_reference::add_property;
use bac_wire::{Datagram, Full, ObjectId};

/// Asks for the property of an object, or for one element of it.
#[derive(Clone, Copy, Debug, PartialEq, Eq)]
pub struct ReadProperty {
    pub object: ObjectId,
    pub property: u32,
    /// The element of an array; 0 is the number of elements.
    pub index: Option<u32>,
}

impl ReadProperty {
    /// The request that the parameters encode, or the reason of the first that is wrong.
    pub fn read(bytes: &[u8]) -> Result<ReadProperty, Reason>
        // What is read is encoded so.
        ensures found { IfOk result (λ p. Reads read_property bytes.now (property_parameters p)) }
        // What is encoded so is read.
        ensures only { (parameters : List Parameter) → Reads read_property bytes.now parameters
            → IsOkAnd result (λ p. property_parameters p ≡ parameters) }
        // The reason is that of the parameter after the longest run of those that are right.
        ensures refused { IfErr result
            (λ reason. (count : ℕ) × Stops read_property bytes.now count reason) }
        // The same as a function, on which callers build.
        ensures exact { Gives property_parameters result (form_at read_property bytes.now) }
        // The same with named fields.
        ensures named { result ≡ read_property_at bytes.now }
        // It may be written.
        ensures in_range { IfOk result (λ p. IsProperty p.object p.property p.index) }
    {
        ReadProperty::parameters(bytes)
    }

    /// Appends the parameters, or nothing if they don't fit.
    pub fn write(&self, out: &mut Datagram) -> Result<(), Full>
        ensures written { Writes out.old (canon_form read_property (property_parameters self.now))
            result out.new }
        // What was written is read back.
        ensures in_range { OnOk result
            (IsProperty self.now.object self.now.property self.now.index) }
    {
        let before = out.octets().len();
        let added = self.add(out);
        cut_back(out, before, added)
    }

    #[tactic(auto, unfolding(crate::specs::Service::PropertyReference::property_octets))]
    fn add(&self, out: &mut Datagram) -> Result<(), Full>
        ensures written { Adds out.old (canon_form read_property (property_parameters self.now))
            result out.new }
        ensures in_range { OnOk result
            (IsProperty self.now.object self.now.property self.now.index) }
    {
        add_property(out, self.object, self.property, self.index)
    }

    #[tactic(auto, unfolding(crate::specs::FormReading::form_at))]
    fn parameters(bytes: &[u8]) -> Result<ReadProperty, Reason>
        ensures { Gives property_parameters result (form_at read_property bytes.now) }
    {
        let mut parameters = Parameters::of(bytes);
        let (object, property, index) = parameters.property()?;
        parameters.end()?;
        Ok(ReadProperty {
            object,
            property,
            index,
        })
    }

    /// What is written is read back.
    pub fn canon_is_read()
        ensures { (p : ReadProperty) → IsProperty p.object p.property p.index
            → Reads read_property (canon_form read_property (property_parameters p))
            (property_parameters p) }
    {}

    /// What is written is read back, with named fields.
    pub fn fields_are_read_back()
        ensures { (p : ReadProperty) → IsProperty p.object p.property p.index
            → read_property_at (canon_form read_property (property_parameters p)) ≡ Ok p }
    {}

    /// A request has at most 25 octets of parameters.
    pub fn canon_is_short()
        ensures { (p : ReadProperty)
            → length (canon_form read_property (property_parameters p)) ≤ 25 }
    {}

    /// Requests that differ in any field have different parameters.
    pub fn parameters_tell_fields()
        ensures { (p q : ReadProperty) → property_parameters p ≡ property_parameters q → p ≡ q }
    {}
}
