//! The ACK of ReadProperty (clause 15.5).

ghost use Rattle.std.specs.Prelude.{◌≡◌, Some, List, IfSome, IsSomeAnd, OnOk};
ghost use Rattle.std.specs.Result.{result_ok};
ghost use Rattle.bac_wire.specs.Datagram.{Writes};
ghost use Rattle.bac_wire.specs.Chain.{Gives};
ghost use Rattle.bac_wire.specs.Level.{IsLevel};
ghost use Rattle.bac_apdu.specs.Adding.{Adds};
ghost use Rattle.bac_apdu.specs.Form.{Parameter, Reads};
ghost use Rattle.bac_apdu.specs.FormReading.{form_at};
ghost use Rattle.bac_apdu.specs.FormCanon.{canon_form};
ghost use Rattle.bac_wire.specs.OptionChain.{GivesSome};
ghost use Rattle.bac_apdu.specs.Service.ReadProperty.{IsProperty};
ghost use Rattle.bac_apdu.specs.Service.ReadPropertyAck.{read_property_ack};
ghost use Rattle.bac_apdu.specs.Service.ReadPropertyAck.{property_ack_parameters, PropertyAck};
ghost use Rattle.bac_apdu.specs.Service.ReadPropertyAck.{property_ack_of, property_ack_octets};
ghost use Rattle.bac_apdu.specs.Service.ReadPropertyAck.{IsPropertyAck, read_property_ack_at};
ghost use Rattle.bac_apdu.specs.Service.ReadPropertyAck.{values, value_parameters};

use crate::parameters::Parameters;
use crate::parameters_out::{add_close, add_open, cut_back};
use crate::reason::Reason;
use crate::service::property_reference::add_property;
use bac_wire::{Datagram, Full, ObjectId, write_octets};

/// The value of a property, as octets.
#[derive(Clone, Copy, Debug, PartialEq, Eq)]
pub struct ReadPropertyAck<'a> {
    pub object: ObjectId,
    pub property: u32,
    /// The element of an array.
    pub index: Option<u32>,
    /// Whole tags, each that opens closed again.
    pub values: &'a [u8],
}

impl<'a> ReadPropertyAck<'a> {
    /// The answer that the parameters encode; `None` if they encode none.
    pub fn read(bytes: &'a [u8]) -> Option<ReadPropertyAck<'a>>
        // What is read is encoded so.
        ensures found { IfSome result
            (λ a. Reads read_property_ack bytes.now (property_ack_parameters a)) }
        // What is encoded so is read.
        ensures only { (parameters : List Parameter) → Reads read_property_ack bytes.now parameters
            → IsSomeAnd result (λ a. property_ack_parameters a ≡ parameters) }
        // The same as a function, on which callers build.
        ensures exact { GivesSome property_ack_parameters result
            (result_ok (form_at read_property_ack bytes.now)) }
        // The same with named fields.
        ensures named { GivesSome property_ack_of result (read_property_ack_at bytes.now) }
        // It may be written.
        ensures in_range { IfSome result (λ a. IsPropertyAck (property_ack_of a)) }
    {
        match ReadPropertyAck::parameters(bytes) {
            Ok(ack) => Some(ack),
            Err(_) => None,
        }
    }

    #[tactic(auto, unfolding(crate::specs::FormReading::form_at))]
    fn parameters(bytes: &'a [u8]) -> Result<ReadPropertyAck<'a>, Reason>
        ensures { Gives property_ack_parameters result (form_at read_property_ack bytes.now) }
    {
        let mut parameters = Parameters::of(bytes);
        let (object, property, index) = parameters.property()?;
        parameters.open(3)?;
        let values = parameters.inside(3)?;
        parameters.end()?;
        Ok(ReadPropertyAck {
            object,
            property,
            index,
            values,
        })
    }

    /// Appends the parameters, or nothing if they don't fit.
    pub fn write(&self, out: &mut Datagram) -> Result<(), Full>
        ensures written { Writes out.old
            (canon_form read_property_ack (property_ack_parameters self.now)) result out.new }
        // What was written is read back if the values are whole tags.
        ensures in_range { OnOk result
            (IsProperty self.now.object self.now.property self.now.index) }
    {
        let before = out.octets().len();
        let added = self.add(out);
        cut_back(out, before, added)
    }

    fn add(&self, out: &mut Datagram) -> Result<(), Full>
        ensures written { Adds out.old
            (canon_form read_property_ack (property_ack_parameters self.now)) result out.new }
        ensures in_range { OnOk result
            (IsProperty self.now.object self.now.property self.now.index) }
    {
        add_property(out, self.object, self.property, self.index)?;
        self.add_values(out)
    }

    fn add_values(&self, out: &mut Datagram) -> Result<(), Full>
        ensures { Adds out.old (canon_form values (value_parameters self.now)) result out.new }
    {
        add_open(out, 3)?;
        write_octets(out, self.values)?;
        add_close(out, 3)?;
        Ok(())
    }

    /// What is written is read back.
    pub fn canon_is_read()
        ensures { (a : ReadPropertyAck) → IsProperty a.object a.property a.index
            → IsLevel a.values.now → Reads read_property_ack
            (canon_form read_property_ack (property_ack_parameters a))
            (property_ack_parameters a) }
    {}

    /// What is written is read back, with named fields.
    pub fn fields_are_read_back()
        ensures { (a : PropertyAck) → IsProperty a.object a.property a.index → IsLevel a.values
            → read_property_ack_at (property_ack_octets a) ≡ Some a }
    {}

    /// Answers that differ in any field have different parameters.
    pub fn parameters_tell_fields()
        ensures { (a b : ReadPropertyAck) → property_ack_parameters a ≡ property_ack_parameters b
            → (a.object ≡ b.object) × (a.property ≡ b.property) × (a.index ≡ b.index)
            × (a.values.now ≡ b.values.now) }
    {}
}
