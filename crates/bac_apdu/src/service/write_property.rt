//! WriteProperty (clause 15.9).

ghost use Rattle.std.specs.Prelude.{◌≡◌, ◌<◌, ◌^◌, Ok, length, List, ℕ, IfOk, IfErr, IsOkAnd, OnOk};
ghost use Rattle.bac_wire.specs.Datagram.{Writes};
ghost use Rattle.bac_wire.specs.Canon.{IsValid};
ghost use Rattle.bac_wire.specs.Primitive.{Unsigned};
ghost use Rattle.bac_wire.specs.Chain.{Gives};
ghost use Rattle.bac_wire.specs.View.{view, IsWellFormed};
ghost use Rattle.bac_apdu.specs.Adding.{Adds};
ghost use Rattle.bac_apdu.specs.Form.{Parameter, Value as ParameterValue, context, unsigned};
ghost use Rattle.bac_apdu.specs.Form.{number_parameter, Reads};
ghost use Rattle.bac_apdu.specs.FormReading.{row_at, optional_at, form_at, Stops};
ghost use Rattle.bac_apdu.specs.FormCanon.{canon_form};
ghost use Rattle.bac_apdu.specs.Service.ReadProperty.{IsProperty};
ghost use Rattle.bac_apdu.specs.Service.WriteProperty.{write_property, write_parameters};
ghost use Rattle.bac_apdu.specs.Service.WriteProperty.{PropertyWrite, write_of_code};
ghost use Rattle.bac_apdu.specs.Service.WriteProperty.{write_property_at, setting};
ghost use Rattle.bac_apdu.specs.Service.WriteProperty.{setting_parameters, is_priority, IsPriority};
ghost use Rattle.bac_apdu.specs.Service.WriteProperty.{IsPropertyWrite};

use crate::parameters::Parameters;
use crate::parameters_out::{add_close, add_context, add_open, add_value, cut_back};
use crate::reason::Reason;
use crate::service::property_reference::add_property;
use bac_wire::{Datagram, Full, ObjectId, Value, as_unsigned};

/// Sets the property of an object, or one element of it.
#[derive(Clone, Copy, Debug)]
pub struct WriteProperty<'a> {
    pub object: ObjectId,
    pub property: u32,
    /// The element of an array.
    pub index: Option<u32>,
    pub value: Value<'a>,
    /// 1 to 16, 1 the most urgent.
    pub priority: Option<u8>,
}

impl<'a> WriteProperty<'a> {
    /// The request that the parameters encode, or the reason of the first that is wrong.
    pub fn read(bytes: &'a [u8]) -> Result<WriteProperty<'a>, Reason>
        // What is read is encoded so.
        ensures found { IfOk result (λ w. Reads write_property bytes.now (write_parameters w)) }
        // What is encoded so is read.
        ensures only { (parameters : List Parameter) → Reads write_property bytes.now parameters
            → IsOkAnd result (λ w. write_parameters w ≡ parameters) }
        // The reason is that of the parameter after the longest run of those that are right.
        ensures refused { IfErr result
            (λ reason. (count : ℕ) × Stops write_property bytes.now count reason) }
        // The same as a function, on which callers build.
        ensures exact { Gives write_parameters result (form_at write_property bytes.now) }
        // The same with named fields.
        ensures named { Gives write_of_code result (write_property_at bytes.now) }
        // A priority is from 1 to 16.
        ensures bound { IfOk result (λ w. IsPriority w.priority) }
        // It may be written.
        ensures well_formed { IfOk result (λ w. IsWellFormed w.value) }
        ensures in_range { length bytes.now < 2 ^ 29
            → IfOk result (λ w. IsPropertyWrite (write_of_code w)) }
    {
        WriteProperty::parameters(bytes)
    }

    #[tactic(auto, unfolding(crate::specs::FormReading::form_at))]
    fn parameters(bytes: &'a [u8]) -> Result<WriteProperty<'a>, Reason>
        ensures exact { Gives write_parameters result (form_at write_property bytes.now) }
        ensures well_formed { IfOk result (λ w. IsWellFormed w.value) }
    {
        let mut parameters = Parameters::of(bytes);
        let (object, property, index) = parameters.property()?;
        parameters.open(3)?;
        let value = match parameters.any() {
            Ok(value) => value,
            Err(reason) => return Err(reason),
        };
        parameters.close(3)?;
        let priority = parameters.optional_priority(4)?;
        parameters.end()?;
        Ok(WriteProperty {
            object,
            property,
            index,
            value,
            priority,
        })
    }

    /// Appends the parameters, or nothing if they don't fit.
    pub fn write(&self, out: &mut Datagram) -> Result<(), Full>
        requires { IsWellFormed self.now.value }
        ensures written { Writes out.old (canon_form write_property (write_parameters self.now))
            result out.new }
        ensures in_range { OnOk result
            (IsProperty self.now.object self.now.property self.now.index) }
        ensures valid { OnOk result (IsValid (view self.now.value)) }
    {
        let before = out.octets().len();
        let added = self.add(out);
        cut_back(out, before, added)
    }

    fn add(&self, out: &mut Datagram) -> Result<(), Full>
        requires { IsWellFormed self.now.value }
        ensures written { Adds out.old (canon_form write_property (write_parameters self.now))
            result out.new }
        ensures in_range { OnOk result
            (IsProperty self.now.object self.now.property self.now.index) }
        ensures valid { OnOk result (IsValid (view self.now.value)) }
    {
        add_property(out, self.object, self.property, self.index)?;
        self.add_setting(out)
    }

    fn add_setting(&self, out: &mut Datagram) -> Result<(), Full>
        requires { IsWellFormed self.now.value }
        ensures written { Adds out.old (canon_form setting (setting_parameters self.now)) result
            out.new }
        ensures valid { OnOk result (IsValid (view self.now.value)) }
    {
        add_open(out, 3)?;
        add_value(out, &self.value)?;
        add_close(out, 3)?;
        if let Some(priority) = self.priority {
            add_context(out, 4, &Value::Unsigned(priority as u64))?;
        }
        Ok(())
    }

    /// What is written is read back.
    pub fn canon_is_read()
        ensures { (w : WriteProperty) → IsProperty w.object w.property w.index
            → IsValid (view w.value) → IsPriority w.priority
            → Reads write_property (canon_form write_property (write_parameters w))
            (write_parameters w) }
    {}

    /// What is written is read back, with named fields.
    pub fn fields_are_read_back()
        ensures { (w : WriteProperty) → IsProperty w.object w.property w.index
            → IsValid (view w.value) → IsPriority w.priority
            → write_property_at (canon_form write_property (write_parameters w))
            ≡ Ok (write_of_code w) }
    {}

    /// Parameters are never read as a request with a priority outside 1 to 16.
    pub fn priorities_are_in_range()
        ensures { (bytes : List ℕ) (w : PropertyWrite) → write_property_at bytes ≡ Ok w
            → IsPriority w.priority }
    {}

    /// Two different requests never show the same parameters, up to the octets in which a value
    /// keeps the unused bits of a Bit String.
    pub fn parameters_tell_fields()
        ensures { (v w : WriteProperty) → write_parameters v ≡ write_parameters w
            → (v.object ≡ w.object) × (v.property ≡ w.property) × (v.index ≡ w.index)
            × (view v.value ≡ view w.value) × (v.priority ≡ w.priority) }
    {}
}

impl<'a> Parameters<'a> {
    /// An Unsigned of 1 to 16.
    #[tactic(auto, unfolding(crate::specs::FormReading::row_at))]
    fn priority(&mut self, tag: u8) -> Result<u8, Reason>
        ensures { Gives (λ x. (ParameterValue (Unsigned x), self.new)) result
            (row_at (context tag unsigned is_priority) self.old) }
    {
        let contents = self.contents(tag)?;
        let number = as_unsigned(contents)?;
        if number == 0 || number > 16 {
            return Err(Reason::OutOfRange);
        }
        Ok(number as u8)
    }

    /// The same, if it is there.
    #[tactic(auto, unfolding(crate::specs::FormReading::optional_at))]
    fn optional_priority(&mut self, tag: u8) -> Result<Option<u8>, Reason>
        ensures { Gives (λ x. (number_parameter x, self.new)) result
            (optional_at tag unsigned is_priority self.old) }
    {
        if self.is_next(tag) {
            Ok(Some(self.priority(tag)?))
        } else {
            Ok(None)
        }
    }
}
