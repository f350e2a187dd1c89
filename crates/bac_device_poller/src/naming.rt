//! What a device tells of itself and of its logs, as texts.

ghost use Rattle.std.specs.Prelude.{◌≡◌, ◌++◌, IfOk, OnOk};
ghost use Rattle.bac_query.specs.Sources.{device_text, index_text, object_text};
ghost use Rattle.bac_device_poller.specs.Naming.{moment_text, offset_of, reference_text};
ghost use Rattle.bac_device_poller.specs.Naming.{seconds_of};
ghost use Rattle.bac_device_poller.specs.Naming.{units_text};
ghost use Rattle.bac_device_poller.specs.Rows.{text_as, text_value};

use crate::texts::text_in;
use bac_device_poll::{Offset, Reference};
use bac_print::{push_moment, push_number, push_value};
use bac_wire::{ObjectId, Stamp, Value};
use std::alloc::{AllocError, Global};

// Appends the index of an element, if there is one.
fn push_index(text: &mut Vec<u8>, index: Option<u64>) -> Result<(), AllocError>
    ensures { OnOk result (text.new.items ≡ text.old.items ++ index_text index) }
{
    let Some(index) = index else {
        return Ok(());
    };
    text.extend_from_slice(b"[")?;
    push_number(text, index)?;
    text.extend_from_slice(b"]")
}

// Appends the instance of a device, if it is said.
fn push_device(text: &mut Vec<u8>, device: Option<ObjectId>) -> Result<(), AllocError>
    ensures { OnOk result (text.new.items ≡ text.old.items ++ device_text device) }
{
    let Some(device) = device else {
        return Ok(());
    };
    text.extend_from_slice(b"@")?;
    push_number(text, u64::from(device.instance()))
}

// Appends an object.
fn push_object(text: &mut Vec<u8>, object: ObjectId) -> Result<(), AllocError>
    ensures { OnOk result (text.new.items ≡ text.old.items ++ object_text object) }
{
    text.extend_from_slice(b"object(")?;
    push_number(text, u64::from(object.kind()))?;
    text.extend_from_slice(b",")?;
    push_number(text, u64::from(object.instance()))?;
    text.extend_from_slice(b")")
}

// Appends what is logged.
#[tactic(auto, unfolding(crate::proofs::Opened::source))]
fn push_source(text: &mut Vec<u8>, source: Reference) -> Result<(), AllocError>
    ensures { OnOk result (text.new.items ≡ text.old.items ++ reference_text source) }
{
    push_object(text, source.object)?;
    text.extend_from_slice(b".")?;
    push_number(text, u64::from(source.property))?;
    push_index(text, source.index)?;
    push_device(text, source.device)
}

/// What is logged, as `bac logs` prints it.
pub(crate) fn source_text(alloc: Global, source: Reference) -> Result<Option<String>, AllocError>
    ensures { IfOk result (λ text. text_as text ≡ text_value (reference_text source)) }
{
    let mut text = Vec::new(alloc);
    push_source(&mut text, source)?;
    text_in(alloc, text.as_slice())
}

/// Units, as an Enumerated is printed.
pub(crate) fn units_text(alloc: Global, units: u32) -> Result<Option<String>, AllocError>
    ensures { IfOk result (λ text. text_as text ≡ text_value (units_text units)) }
{
    let mut text = Vec::new(alloc);
    push_value(&mut text, &Value::Enumerated(units))?;
    text_in(alloc, text.as_slice())
}

/// A moment, as a record's date and time are kept.
pub(crate) fn moment_text(alloc: Global, at: Stamp) -> Result<Option<String>, AllocError>
    ensures { IfOk result (λ text. text_as text ≡ text_value (moment_text at)) }
{
    let mut text = Vec::new(alloc);
    push_moment(&mut text, at.date(), at.time())?;
    text_in(alloc, text.as_slice())
}

// Seconds as a number with a sign.
fn seconds_of(seconds: u64) -> i64
    ensures { result ≡ seconds_of seconds }
{
    seconds.min(9_223_372_036_854_775_807) as i64
}

/// A clock minus this machine's, in seconds.
pub(crate) fn offset_of(offset: Option<Offset>) -> Option<i64>
    ensures { result ≡ offset_of offset }
{
    match offset {
        Some(Offset::Ahead(seconds)) => Some(seconds_of(seconds)),
        Some(Offset::Behind(seconds)) => Some(-seconds_of(seconds)),
        None => None,
    }
}
