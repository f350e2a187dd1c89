//! Who-Is (clause 16.10).

ghost use Rattle.std.specs.Prelude.{◌≡◌, Some, List, IfSome, IsSomeAnd};
ghost use Rattle.std.specs.Result.{result_ok};
ghost use Rattle.bac_wire.specs.Datagram.{Writes};
ghost use Rattle.bac_wire.specs.Primitive.{Unsigned};
ghost use Rattle.bac_wire.specs.Chain.{Gives};
ghost use Rattle.bac_apdu.specs.Adding.{Adds};
ghost use Rattle.bac_apdu.specs.Form.{Parameter, Value as ParameterValue, context, unsigned, Reads};
ghost use Rattle.bac_apdu.specs.FormReading.{row_at, form_at};
ghost use Rattle.bac_apdu.specs.FormCanon.{canon_form};
ghost use Rattle.bac_apdu.specs.Service.WhoIs.{is_instance, who_is, who_is_parameters, who_is_at};
ghost use Rattle.bac_apdu.specs.Service.WhoIs.{AreLimits};
ghost use Rattle.bac_wire.specs.OptionChain.{GivesSome};

use crate::parameters::Parameters;
use crate::parameters_out::{add_context, cut_back};
use crate::reason::Reason;
use bac_wire::{Datagram, Full, Value, as_unsigned};

/// Asks devices to announce themselves (clause 16.10): all of them, or those whose instance is
/// one of the two limits or lies between them.
#[derive(Clone, Copy, Debug, PartialEq, Eq)]
pub struct WhoIs {
    /// The lowest and the highest instance, each at most 4194303.
    pub limits: Option<(u32, u32)>,
}

impl WhoIs {
    /// The request that the parameters encode; `None` if they encode none.
    pub fn read(bytes: &[u8]) -> Option<WhoIs>
        // What is read is encoded so.
        ensures found { IfSome result (λ w. Reads who_is bytes.now (who_is_parameters w)) }
        // What is encoded so is read.
        ensures only { (parameters : List Parameter) → Reads who_is bytes.now parameters
            → IsSomeAnd result (λ w. who_is_parameters w ≡ parameters) }
        // The same as a function, on which callers build.
        ensures exact { GivesSome who_is_parameters result (result_ok (form_at who_is bytes.now)) }
        // The same with named fields.
        ensures named { result ≡ who_is_at bytes.now }
        // It may be written.
        ensures in_range { IfSome result (λ w. AreLimits w.limits) }
    {
        WhoIs::parameters(bytes).ok()
    }

    #[tactic(auto, unfolding(crate::specs::FormReading::form_at))]
    fn parameters(bytes: &[u8]) -> Result<WhoIs, Reason>
        ensures { Gives who_is_parameters result (form_at who_is bytes.now) }
    {
        match bytes {
            [] => Ok(WhoIs { limits: None }),
            [_, ..] => {
                let mut parameters = Parameters::of(bytes);
                let low = parameters.instance(0)?;
                let high = parameters.instance(1)?;
                parameters.end()?;
                Ok(WhoIs {
                    limits: Some((low, high)),
                })
            }
        }
    }

    /// Appends the parameters, or nothing if they don't fit.
    pub fn write(&self, out: &mut Datagram) -> Result<(), Full>
        ensures { Writes out.old (canon_form who_is (who_is_parameters self.now)) result out.new }
    {
        let before = out.octets().len();
        let added = self.add(out);
        cut_back(out, before, added)
    }

    fn add(&self, out: &mut Datagram) -> Result<(), Full>
        ensures { Adds out.old (canon_form who_is (who_is_parameters self.now)) result out.new }
    {
        if let Some((low, high)) = self.limits {
            add_context(out, 0, &Value::Unsigned(low as u64))?;
            add_context(out, 1, &Value::Unsigned(high as u64))?;
        }
        Ok(())
    }

    /// What is written is read back.
    pub fn canon_is_read()
        ensures { (w : WhoIs) → AreLimits w.limits
            → Reads who_is (canon_form who_is (who_is_parameters w)) (who_is_parameters w) }
    {}

    /// What is written is read back, with named fields.
    pub fn fields_are_read_back()
        ensures { (w : WhoIs) → AreLimits w.limits
            → who_is_at (canon_form who_is (who_is_parameters w)) ≡ Some w }
    {}

    /// Requests that differ in any field have different parameters.
    pub fn parameters_tell_fields()
        ensures { (v w : WhoIs) → who_is_parameters v ≡ who_is_parameters w → v ≡ w }
    {}
}

impl<'a> Parameters<'a> {
    /// An Unsigned of at most 4194303.
    #[tactic(auto, unfolding(crate::specs::FormReading::row_at))]
    fn instance(&mut self, tag: u8) -> Result<u32, Reason>
        ensures { Gives (λ x. (ParameterValue (Unsigned x), self.new)) result
            (row_at (context tag unsigned is_instance) self.old) }
    {
        let contents = self.contents(tag)?;
        let number = as_unsigned(contents)?;
        if number > 4194303 {
            return Err(Reason::OutOfRange);
        }
        Ok(number as u32)
    }
}
