//! Object, property and index, with which the parameters of five services begin
//! (BACnetObjectPropertyReference, clause 21).

ghost use Rattle.std.specs.Prelude.{◌≡◌, Err, OnOk};
ghost use Rattle.std.specs.Result.{MatchResult};
ghost use Rattle.bac_wire.specs.Chain.{result_map};
ghost use Rattle.bac_apdu.specs.Adding.{Adds};
ghost use Rattle.bac_apdu.specs.Form.{Form};
ghost use Rattle.bac_apdu.specs.FormReading.{form_at};
ghost use Rattle.bac_apdu.specs.Service.PropertyReference.{property_then, property_parameters_then};
ghost use Rattle.bac_apdu.specs.Service.PropertyReference.{property_octets, IsProperty};

use crate::parameters::Parameters;
use crate::parameters_out::add_context;
use crate::reason::Reason;
use bac_wire::{Datagram, Full, ObjectId, Value};

impl<'a> Parameters<'a> {
    /// Object, property and index, whatever follows them.
    #[tactic(auto, unfolding(crate::specs::FormReading::form_at))]
    pub(crate) fn property(&mut self) -> Result<(ObjectId, u32, Option<u32>), Reason>
        ghost form: { Form }
        ensures { MatchResult result (λ x. form_at (property_then form) self.old
            ≡ result_map (λ items. property_parameters_then x.0 x.1 x.2 items)
            (form_at form self.new))
            (λ reason. form_at (property_then form) self.old ≡ Err reason) }
    {
        let object = self.object(0)?;
        let property = self.enumerated(1)?;
        let index = self.optional_number(2)?;
        Ok((object, property, index))
    }
}

#[tactic(auto, unfolding(crate::specs::Service::PropertyReference::property_octets))]
pub(crate) fn add_property(
    out: &mut Datagram,
    object: ObjectId,
    property: u32,
    index: Option<u32>,
) -> Result<(), Full>
    ensures written { Adds out.old (property_octets object property index) result out.new }
    ensures in_range { OnOk result (IsProperty object property index) }
{
    add_context(out, 0, &Value::Object(object))?;
    add_context(out, 1, &Value::Enumerated(property))?;
    if let Some(index) = index {
        add_context(out, 2, &Value::Unsigned(index as u64))?;
    }
    Ok(())
}
