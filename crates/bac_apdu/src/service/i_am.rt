//! I-Am (clause 16.10).

ghost use Rattle.std.specs.Prelude.{◌≡◌, ◌≤◌, Some, length, List, IfSome, IsSomeAnd, OnOk};
ghost use Rattle.std.specs.Result.{result_ok};
ghost use Rattle.bac_wire.specs.Datagram.{Writes};
ghost use Rattle.bac_wire.specs.Chain.{Gives};
ghost use Rattle.bac_apdu.specs.Adding.{Adds};
ghost use Rattle.bac_apdu.specs.Form.{Parameter, Reads};
ghost use Rattle.bac_apdu.specs.FormReading.{form_at};
ghost use Rattle.bac_apdu.specs.FormCanon.{canon_form};
ghost use Rattle.bac_apdu.specs.Service.IAm.{i_am, i_am_parameters, i_am_at, IsAnnouncement};
ghost use Rattle.bac_wire.specs.OptionChain.{GivesSome};

use crate::parameters::Parameters;
use crate::parameters_out::{add_value, cut_back};
use crate::reason::Reason;
use bac_wire::{Datagram, Full, ObjectId, Value};

/// A device announces itself (clause 16.10).
#[derive(Clone, Copy, Debug, PartialEq, Eq)]
pub struct IAm {
    /// The device's own identifier.
    pub device: ObjectId,
    /// The octets of the greatest APDU that it takes.
    pub max_apdu: u64,
    /// How it segments; 3 is not at all.
    pub segmentation: u32,
    /// The number of its vendor.
    pub vendor: u64,
}

impl IAm {
    /// The announcement that the parameters encode; `None` if they encode none.
    pub fn read(bytes: &[u8]) -> Option<IAm>
        // What is read is encoded so.
        ensures found { IfSome result (λ a. Reads i_am bytes.now (i_am_parameters a)) }
        // What is encoded so is read.
        ensures only { (parameters : List Parameter) → Reads i_am bytes.now parameters
            → IsSomeAnd result (λ a. i_am_parameters a ≡ parameters) }
        // The same as a function, on which callers build.
        ensures exact { GivesSome i_am_parameters result (result_ok (form_at i_am bytes.now)) }
        // The same with named fields.
        ensures named { result ≡ i_am_at bytes.now }
        // It may be written.
        ensures in_range { IfSome result (λ a. IsAnnouncement a) }
    {
        IAm::parameters(bytes).ok()
    }

    #[tactic(auto, unfolding(crate::specs::FormReading::form_at))]
    fn parameters(bytes: &[u8]) -> Result<IAm, Reason>
        ensures { Gives i_am_parameters result (form_at i_am bytes.now) }
    {
        let mut parameters = Parameters::of(bytes);
        let device = parameters.plain_object()?;
        let max_apdu = parameters.plain_unsigned()?;
        let segmentation = parameters.plain_enumerated()?;
        let vendor = parameters.plain_unsigned()?;
        parameters.end()?;
        Ok(IAm {
            device,
            max_apdu,
            segmentation,
            vendor,
        })
    }

    /// Appends the parameters, or nothing if they don't fit.
    pub fn write(&self, out: &mut Datagram) -> Result<(), Full>
        ensures written { Writes out.old (canon_form i_am (i_am_parameters self.now)) result
            out.new }
        // What was written is read back.
        ensures in_range { OnOk result (IsAnnouncement self.now) }
    {
        let before = out.octets().len();
        let added = self.add(out);
        cut_back(out, before, added)
    }

    fn add(&self, out: &mut Datagram) -> Result<(), Full>
        ensures written { Adds out.old (canon_form i_am (i_am_parameters self.now)) result out.new }
        ensures in_range { OnOk result (IsAnnouncement self.now) }
    {
        add_value(out, &Value::Object(self.device))?;
        add_value(out, &Value::Unsigned(self.max_apdu))?;
        add_value(out, &Value::Enumerated(self.segmentation))?;
        add_value(out, &Value::Unsigned(self.vendor))?;
        Ok(())
    }

    /// What is written is read back.
    pub fn canon_is_read()
        ensures { (a : IAm) → IsAnnouncement a
            → Reads i_am (canon_form i_am (i_am_parameters a)) (i_am_parameters a) }
    {}

    /// What is written is read back, with named fields.
    pub fn fields_are_read_back()
        ensures { (a : IAm) → IsAnnouncement a
            → i_am_at (canon_form i_am (i_am_parameters a)) ≡ Some a }
    {}

    /// An announcement has at most 35 octets of parameters.
    pub fn canon_is_short()
        ensures { (a : IAm) → length (canon_form i_am (i_am_parameters a)) ≤ 35 }
    {}

    /// Announcements that differ in any field have different parameters.
    pub fn parameters_tell_fields()
        ensures { (a b : IAm) → i_am_parameters a ≡ i_am_parameters b → a ≡ b }
    {}
}
