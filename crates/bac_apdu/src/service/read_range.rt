//! ReadRange (clause 15.8).

ghost use Rattle.std.specs.Prelude.{◌≡◌, ◌≤◌, Ok, false, length, List, ℕ, IfOk, IfErr, IsOkAnd};
ghost use Rattle.std.specs.Prelude.{OnOk};
ghost use Rattle.bac_wire.specs.Datagram.{Writes};
ghost use Rattle.bac_wire.specs.Chain.{Gives};
ghost use Rattle.bac_apdu.specs.Adding.{Adds};
ghost use Rattle.bac_apdu.specs.Apdu.{Confirmed, apdu_octets};
ghost use Rattle.bac_apdu.specs.Service.Choice.{read_range_service};
ghost use Rattle.bac_apdu.specs.Service.Extent.{IsExtent};
ghost use Rattle.bac_apdu.specs.Form.{Parameter, Reads};
ghost use Rattle.bac_apdu.specs.FormReading.{form_at, Stops};
ghost use Rattle.bac_apdu.specs.FormCanon.{canon_form};
ghost use Rattle.bac_apdu.specs.Service.ReadProperty.{IsProperty};
ghost use Rattle.bac_apdu.specs.Service.ReadRange.{read_range, range_parameters, read_range_at};
ghost use Rattle.bac_apdu.specs.Service.ReadRange.{IsRange};

use crate::parameters::Parameters;
use crate::parameters_out::cut_back;
use crate::reason::Reason;
use crate::service::extent::{Extent, add_extent, extent_of};
use crate::service::property_reference::add_property;
use bac_wire::{Datagram, Full, ObjectId};

/// Asks for records of a log.
#[derive(Clone, Copy, Debug, PartialEq, Eq)]
pub struct ReadRange {
    pub object: ObjectId,
    pub property: u32,
    /// The element of an array.
    pub index: Option<u32>,
    pub extent: Extent,
}

impl ReadRange {
    /// The request that the parameters encode, or the reason of the first that is wrong.
    pub fn read(bytes: &[u8]) -> Result<ReadRange, Reason>
        // What is read is encoded so.
        ensures found { IfOk result (λ r. Reads read_range bytes.now (range_parameters r)) }
        // What is encoded so is read.
        ensures only { (parameters : List Parameter) → Reads read_range bytes.now parameters
            → IsOkAnd result (λ r. range_parameters r ≡ parameters) }
        // The reason is that of the parameter after the longest run of those that are right.
        ensures refused { IfErr result
            (λ reason. (count : ℕ) × Stops read_range bytes.now count reason) }
        // The same as a function, on which callers build.
        ensures exact { Gives range_parameters result (form_at read_range bytes.now) }
        // The same with named fields.
        ensures named { result ≡ read_range_at bytes.now }
        // It may be written.
        ensures in_range { IfOk result (λ r. IsRange r) }
    {
        ReadRange::parameters(bytes)
    }

    /// Appends the parameters, or nothing if they don't fit.
    pub fn write(&self, out: &mut Datagram) -> Result<(), Full>
        ensures written { Writes out.old (canon_form read_range (range_parameters self.now)) result
            out.new }
        ensures in_range { OnOk result
            (IsProperty self.now.object self.now.property self.now.index) }
    {
        let before = out.octets().len();
        let added = self.add(out);
        cut_back(out, before, added)
    }

    fn add(&self, out: &mut Datagram) -> Result<(), Full>
        ensures written { Adds out.old (canon_form read_range (range_parameters self.now)) result
            out.new }
        ensures in_range { OnOk result
            (IsProperty self.now.object self.now.property self.now.index) }
    {
        add_property(out, self.object, self.property, self.index)?;
        add_extent(out, self.extent)
    }

    #[tactic(auto, unfolding(crate::specs::FormReading::form_at))]
    fn parameters(bytes: &[u8]) -> Result<ReadRange, Reason>
        ensures { Gives range_parameters result (form_at read_range bytes.now) }
    {
        let mut parameters = Parameters::of(bytes);
        let (object, property, index) = parameters.property()?;
        let extent = extent_of(parameters)?;
        Ok(ReadRange {
            object,
            property,
            index,
            extent,
        })
    }

    /// What is written is read back.
    pub fn canon_is_read()
        ensures { (r : ReadRange) → IsProperty r.object r.property r.index → IsExtent r.extent
            → Reads read_range (canon_form read_range (range_parameters r)) (range_parameters r) }
    {}

    /// What is written is read back, with named fields.
    pub fn fields_are_read_back()
        ensures { (r : ReadRange) → IsProperty r.object r.property r.index → IsExtent r.extent
            → read_range_at (canon_form read_range (range_parameters r)) ≡ Ok r }
    {}

    /// Parameters are never read as a request with a range whose numbers are out of range.
    pub fn extents_are_in_range()
        ensures { (bytes : List ℕ) (r : ReadRange) → read_range_at bytes ≡ Ok r
            → IsExtent r.extent }
    {}

    /// A request has at most 47 octets of parameters, and 51 as an APDU: it fits every datagram.
    pub fn canon_is_short()
        ensures parameters { (r : ReadRange)
            → length (canon_form read_range (range_parameters r)) ≤ 47 }
        ensures apdu { (r : ReadRange) (size invoke : ℕ)
            → length (apdu_octets (Confirmed false size invoke read_range_service
            (canon_form read_range (range_parameters r)))) ≤ 51 }
    {}

    /// Requests that differ in any field have different parameters.
    pub fn parameters_tell_fields()
        ensures { (r s : ReadRange) → range_parameters r ≡ range_parameters s → r ≡ s }
    {}
}
