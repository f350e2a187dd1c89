//! What a trend log logs: a BACnetDeviceObjectPropertyReference (clause 21).

ghost use Rattle.std.specs.Prelude.{◌≡◌, ◌++◌, OnOk};
ghost use Rattle.bac_wire.specs.Chain.{Gives};
ghost use Rattle.bac_wire.specs.Primitive.{Enumerated, Object, Unsigned};
ghost use Rattle.bac_query.specs.Sources.{device_text, index_text, maybe_at, maybe_number};
ghost use Rattle.bac_query.specs.Sources.{maybe_object, object_text, reference_at, reference_of};
ghost use Rattle.bac_query.specs.Sources.{source_text, tagged_at};

use bac_print::push_number;
use bac_wire::{ObjectId, Reader, WireFault, as_enumerated, as_object, as_unsigned};
use std::alloc::AllocError;

/// A property of an object.
#[derive(Clone, Copy)]
pub(crate) struct Source {
    pub(crate) object: ObjectId,
    pub(crate) property: u32,
    /// The element of an array.
    pub(crate) index: Option<u64>,
    /// The device that has the object, if it is said.
    pub(crate) device: Option<ObjectId>,
}

/// An object behind a context tag.
fn object_at(left: &mut Reader<'_>, tag: u8) -> Result<ObjectId, WireFault>
    ensures { Gives (λ object. (Object object, left.new)) result (tagged_at tag 12 left.old) }
{
    let contents = left.contents(tag)?;
    as_object(contents)
}

/// A property behind a context tag.
fn property_at(left: &mut Reader<'_>, tag: u8) -> Result<u32, WireFault>
    ensures { Gives (λ property. (Enumerated property, left.new)) result
        (tagged_at tag 9 left.old) }
{
    let contents = left.contents(tag)?;
    as_enumerated(contents)
}

/// A number behind a context tag.
fn number_at(left: &mut Reader<'_>, tag: u8) -> Result<u64, WireFault>
    ensures { Gives (λ number. (Unsigned number, left.new)) result (tagged_at tag 2 left.old) }
{
    let contents = left.contents(tag)?;
    as_unsigned(contents)
}

/// An index, which may be left out.
fn maybe_index(left: &mut Reader<'_>, tag: u8) -> Result<Option<u64>, WireFault>
    ensures { Gives (λ index. (maybe_number index, left.new)) result (maybe_at tag 2 left.old) }
{
    if !left.is_value_next(tag) {
        return Ok(None);
    }
    let index = number_at(left, tag)?;
    Ok(Some(index))
}

/// A device, which may be left out.
fn maybe_device(left: &mut Reader<'_>, tag: u8) -> Result<Option<ObjectId>, WireFault>
    ensures { Gives (λ device. (maybe_object device, left.new)) result (maybe_at tag 12 left.old) }
{
    if !left.is_value_next(tag) {
        return Ok(None);
    }
    let device = object_at(left, tag)?;
    Ok(Some(device))
}

/// The reference that octets are.
#[tactic(auto, unfolding(crate::specs::Sources::reference_at))]
pub(crate) fn source_in(octets: &[u8]) -> Result<Source, WireFault>
    ensures { Gives reference_of result (reference_at octets.now) }
{
    let mut left = Reader::of(octets);
    let object = object_at(&mut left, 0)?;
    let property = property_at(&mut left, 1)?;
    let index = maybe_index(&mut left, 2)?;
    let device = maybe_device(&mut left, 3)?;
    match left.rest() {
        [] => Ok(Source {
            object,
            property,
            index,
            device,
        }),
        [_, ..] => Err(WireFault::BadLength),
    }
}

fn push_object(text: &mut Vec<u8>, object: ObjectId) -> Result<(), AllocError>
    ensures { OnOk result (text.new.items ≡ text.old.items ++ object_text object) }
{
    text.extend_from_slice(b"object(")?;
    push_number(text, u64::from(object.kind()))?;
    text.extend_from_slice(b",")?;
    push_number(text, u64::from(object.instance()))?;
    text.extend_from_slice(b")")
}

fn push_index(text: &mut Vec<u8>, index: Option<u64>) -> Result<(), AllocError>
    ensures { OnOk result (text.new.items ≡ text.old.items ++ index_text index) }
{
    let Some(index) = index else {
        return Ok(());
    };
    text.extend_from_slice(b"[")?;
    push_number(text, index)?;
    text.extend_from_slice(b"]")
}

fn push_instance(text: &mut Vec<u8>, device: Option<ObjectId>) -> Result<(), AllocError>
    ensures { OnOk result (text.new.items ≡ text.old.items ++ device_text device) }
{
    let Some(device) = device else {
        return Ok(());
    };
    text.extend_from_slice(b"@")?;
    push_number(text, u64::from(device.instance()))
}

/// Appends what is logged: `object(TYPE,INSTANCE).PROPERTY`, `[INDEX]` behind it of an element of
/// an array, and `@INSTANCE` of the device, if it is said.
#[tactic(auto, unfolding(crate::specs::Sources::source_text))]
pub(crate) fn push_source(text: &mut Vec<u8>, source: Source) -> Result<(), AllocError>
    ensures { OnOk result (text.new.items ≡ text.old.items ++ source_text source) }
{
    push_object(text, source.object)?;
    text.extend_from_slice(b".")?;
    push_number(text, u64::from(source.property))?;
    push_index(text, source.index)?;
    push_instance(text, source.device)
}
