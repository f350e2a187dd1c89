//! The ACK of ReadRange (clause 15.8).

ghost use Rattle.std.specs.Prelude.{◌≡◌, ◌+◌, ◌-◌, ◌*◌, ◌%◌, ◌^◌, ◌<◌, ◌≤◌, true, false, List, ℕ};
ghost use Rattle.std.specs.Prelude.{length, take, Some, None, IfOk, IfSome, IsSomeAnd, OnOk};
ghost use Rattle.std.specs.Result.{result_ok};
ghost use Rattle.bac_wire.specs.Datagram.{Writes};
ghost use Rattle.bac_wire.specs.Number.{bits_of};
ghost use Rattle.bac_wire.specs.Primitive.{Unsigned, Bits};
ghost use Rattle.bac_wire.specs.Chain.{Gives};
ghost use Rattle.bac_wire.specs.Level.{IsLevel};
ghost use Rattle.bac_apdu.specs.Adding.{Adds};
ghost use Rattle.bac_apdu.specs.Apdu.{Complex, apdu_octets};
ghost use Rattle.bac_apdu.specs.Form.{Parameter, Value as ParameterValue, context, unsigned};
ghost use Rattle.bac_apdu.specs.Form.{bit_string, number_parameter, Reads};
ghost use Rattle.bac_apdu.specs.FormReading.{row_at, optional_at, form_at};
ghost use Rattle.bac_apdu.specs.FormCanon.{canon_form};
ghost use Rattle.bac_wire.specs.OptionChain.{GivesSome};
ghost use Rattle.bac_apdu.specs.Service.ReadProperty.{IsProperty};
ghost use Rattle.bac_apdu.specs.Service.ReadRangeAck.{read_range_ack, ack_parameters, RangeAck};
ghost use Rattle.bac_apdu.specs.Service.ReadRangeAck.{range_ack_of, range_ack_octets};
ghost use Rattle.bac_apdu.specs.Service.ReadRangeAck.{range_ack_size, read_range_ack_at, records};
ghost use Rattle.bac_apdu.specs.Service.ReadRangeAck.{record_parameters, is_three, is_first};
ghost use Rattle.bac_apdu.specs.Service.ReadRangeAck.{flag_bits, IsFirst, IsRangeAck, IsSmall};
ghost use Rattle.bac_apdu.specs.Service.ReadRangeAck.{optional_size, ack_size};

use crate::parameters::Parameters;
use crate::parameters_out::{add_close, add_context, add_open, cut_back};
use crate::reason::Reason;
use crate::service::property_reference::add_property;
use bac_wire::{Datagram, Full, ObjectId, Value, as_bits, as_unsigned, write_octets};

/// Records of a log, as octets.
#[derive(Clone, Copy, Debug, PartialEq, Eq)]
pub struct ReadRangeAck<'a> {
    pub object: ObjectId,
    pub property: u32,
    /// The element of an array.
    pub index: Option<u32>,
    /// First item 80, last item 40, more items 20; the other bits aren't sent.
    pub flags: u8,
    /// How many records there are.
    pub count: u64,
    /// Whole tags, each that opens closed again.
    pub items: &'a [u8],
    /// The sequence number of the first record, which isn't 0.
    pub first_number: Option<u32>,
}

impl<'a> ReadRangeAck<'a> {
    /// The answer that the parameters encode; `None` if they encode none.
    pub fn read(bytes: &'a [u8]) -> Option<ReadRangeAck<'a>>
        // What is read is encoded so.
        ensures found { IfSome result (λ a. Reads read_range_ack bytes.now (ack_parameters a)) }
        // What is encoded so is read.
        ensures only { (parameters : List Parameter) → Reads read_range_ack bytes.now parameters
            → IsSomeAnd result (λ a. ack_parameters a ≡ parameters) }
        // The same as a function, on which callers build.
        ensures exact { GivesSome ack_parameters result
            (result_ok (form_at read_range_ack bytes.now)) }
        // The same with named fields.
        ensures named { GivesSome range_ack_of result (read_range_ack_at bytes.now) }
        // It may be written.
        ensures in_range { IfSome result (λ a. IsRangeAck (range_ack_of a)) }
        // The five unused low bits of the flags are 0.
        ensures low { IfSome result (λ a. a.flags % 32 ≡ 0) }
    {
        match ReadRangeAck::parameters(bytes) {
            Ok(ack) => Some(ack),
            Err(_) => None,
        }
    }

    #[tactic(auto, unfolding(crate::specs::FormReading::form_at))]
    fn parameters(bytes: &'a [u8]) -> Result<ReadRangeAck<'a>, Reason>
        ensures low { IfOk result (λ a. a.flags % 32 ≡ 0) }
        ensures exact { Gives ack_parameters result (form_at read_range_ack bytes.now) }
    {
        let mut parameters = Parameters::of(bytes);
        let (object, property, index) = parameters.property()?;
        let flags = parameters.flags(3)?;
        let count = parameters.wide_number(4)?;
        parameters.open(5)?;
        let items = parameters.inside(5)?;
        let first_number = parameters.optional_first(6)?;
        parameters.end()?;
        Ok(ReadRangeAck {
            object,
            property,
            index,
            flags,
            count,
            items,
            first_number,
        })
    }

    /// Appends the parameters, or nothing if they don't fit.
    pub fn write(&self, out: &mut Datagram) -> Result<(), Full>
        ensures written { Writes out.old (canon_form read_range_ack (ack_parameters self.now))
            result out.new }
        // What was written is read back if the items are whole tags and the first number isn't 0.
        ensures in_range { OnOk result (IsProperty self.now.object self.now.property self.now.index
            × (self.now.count < 2 ^ 64)) }
    {
        let before = out.octets().len();
        let added = self.add(out);
        cut_back(out, before, added)
    }

    fn add(&self, out: &mut Datagram) -> Result<(), Full>
        ensures written { Adds out.old (canon_form read_range_ack (ack_parameters self.now)) result
            out.new }
        ensures in_range { OnOk result (IsProperty self.now.object self.now.property self.now.index
            × (self.now.count < 2 ^ 64)) }
    {
        add_property(out, self.object, self.property, self.index)?;
        self.add_records(out)
    }

    fn add_records(&self, out: &mut Datagram) -> Result<(), Full>
        ensures written { Adds out.old (canon_form records (record_parameters self.now)) result
            out.new }
        ensures in_range { OnOk result (self.now.count < 2 ^ 64) }
    {
        // Three bits, in the high bits.
        add_context(
            out,
            3,
            &Value::Bits {
                unused: 5,
                octets: &[self.flags],
            },
        )?;
        add_context(out, 4, &Value::Unsigned(self.count))?;
        add_open(out, 5)?;
        write_octets(out, self.items)?;
        add_close(out, 5)?;
        if let Some(first) = self.first_number {
            add_context(out, 6, &Value::Unsigned(first as u64))?;
        }
        Ok(())
    }

    /// What is written is read back.
    pub fn canon_is_read()
        ensures { (a : ReadRangeAck) → IsProperty a.object a.property a.index → a.count < 2 ^ 64
            → IsFirst a.first_number → IsLevel a.items.now
            → Reads read_range_ack (canon_form read_range_ack (ack_parameters a))
            (ack_parameters a) }
    {}

    /// What is written is read back, with named fields.
    pub fn fields_are_read_back()
        ensures { (a : RangeAck) → IsProperty a.object a.property a.index → a.count < 2 ^ 64
            → IsFirst a.first_number → IsLevel a.items
            → read_range_ack_at (range_ack_octets a) ≡ Some a }
    {}

    /// How many octets the parameters of an answer have, by its fields.
    pub fn fields_have_a_size()
        ensures { (a : RangeAck) → a.property < 2 ^ 32 → IsSmall a.index → a.count < 2 ^ 32
            → IsSmall a.first_number → length (range_ack_octets a) ≡ range_ack_size a }
    {}

    /// Answers that differ in any field have different parameters, if the unused low bits of their
    /// flags are 0.
    pub fn parameters_tell_fields()
        ensures { (a b : ReadRangeAck) → a.flags < 256 → b.flags < 256 → a.flags % 32 ≡ 0
            → b.flags % 32 ≡ 0 → ack_parameters a ≡ ack_parameters b
            → (a.object ≡ b.object) × (a.property ≡ b.property) × (a.index ≡ b.index)
            × (a.flags ≡ b.flags) × (a.count ≡ b.count) × (a.items.now ≡ b.items.now)
            × (a.first_number ≡ b.first_number) }
    {}

    /// How many octets the parameters have. The APDU of an answer for a property below 256 that is
    /// no array, with fewer than 256 records, has 17 octets beside them and the first number, and
    /// that adds 2 to 5.
    pub fn canon_size()
        ensures parameters { (a : ReadRangeAck) → a.property < 2 ^ 32 → IsSmall a.index
            → a.count < 2 ^ 32 → IsSmall a.first_number
            → length (canon_form read_range_ack (ack_parameters a)) ≡ ack_size a }
        ensures apdu { (a : ReadRangeAck) (invoke : ℕ) → a.property < 2 ^ 8 → a.index ≡ None
            → a.count < 2 ^ 8 → IsSmall a.first_number
            → length (apdu_octets
            (Complex false invoke 26 (canon_form read_range_ack (ack_parameters a))))
            ≡ 17 + length a.items.now + optional_size a.first_number }
        ensures first_number { (n : ℕ)
            → (2 ≤ optional_size (Some n)) × (optional_size (Some n) ≤ 5) }
    {}
}

impl<'a> Parameters<'a> {
    /// An Unsigned of 1 to 4294967295.
    #[tactic(auto, unfolding(crate::specs::FormReading::row_at))]
    fn first(&mut self, tag: u8) -> Result<u32, Reason>
        ensures { Gives (λ x. (ParameterValue (Unsigned x), self.new)) result
            (row_at (context tag unsigned is_first) self.old) }
    {
        let contents = self.contents(tag)?;
        let number = as_unsigned(contents)?;
        if number == 0 || number > u32::MAX as u64 {
            return Err(Reason::OutOfRange);
        }
        Ok(number as u32)
    }

    /// The same, if it is there.
    #[tactic(auto, unfolding(crate::specs::FormReading::optional_at))]
    fn optional_first(&mut self, tag: u8) -> Result<Option<u32>, Reason>
        ensures { Gives (λ x. (number_parameter x, self.new)) result
            (optional_at tag unsigned is_first self.old) }
    {
        if self.is_next(tag) {
            Ok(Some(self.first(tag)?))
        } else {
            Ok(None)
        }
    }

    /// Three bits, which come in the high bits.
    #[tactic(auto, unfolding(crate::specs::FormReading::row_at))]
    fn flags(&mut self, tag: u8) -> Result<u8, Reason>
        ensures low { IfOk result (λ x. x % 32 ≡ 0) }
        ensures exact { Gives (λ x. (ParameterValue (Bits (flag_bits x)), self.new)) result
            (row_at (context tag bit_string is_three) self.old) }
    {
        let contents = self.contents(tag)?;
        let (unused, octets) = as_bits(contents)?;
        if !is_three_bits(unused, octets) {
            return Err(Reason::OutOfRange);
        }
        Ok(octets[0] / 32 * 32)
    }
}

fn is_three_bits(unused: u8, octets: &[u8]) -> bool
    requires { unused ≤ 7 }
    ensures value { result
        ≡ is_three (Bits (take (8 * length octets.now - unused) (bits_of octets.now))) }
    ensures size { result ≡ true → (unused ≡ 5) × (length octets.now ≡ 1) }
{
    unused == 5 && octets.len() == 1
}
