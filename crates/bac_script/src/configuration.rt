//! A configuration: the lines of a script that describe a device, without an event.

ghost use Rattle.std.specs.Prelude.{◌≡◌, ◌+◌, ◌<◌, ◌≤◌, length, take, None, OnErr, OnOk, IfErr};
ghost use Rattle.std.specs.Prelude.{IfOk, IfSome};
ghost use Rattle.std.specs.Io.KnownBytes.{Consumes, IsAtEnd};
ghost use Rattle.std.specs.Str.Lines.{lines};
ghost use Rattle.bac_script.specs.Configuration.{AddsLine, Configures, Describes, IsAdded};
ghost use Rattle.bac_script.specs.Configuration.{kept_plan, plan_of, with_line, with_text};
ghost use Rattle.bac_script.specs.Configuration.{without_text};
ghost use Rattle.bac_script.specs.Reason.{IsExplainedThere, described, without_reason};
ghost use Rattle.bac_script.specs.Input.{ConsumesUpTo};
ghost use Rattle.bac_script.specs.Script.Line.{Device, Object};

use crate::replay::LIMIT;
use crate::replay::fault::{LineFault, Refused, ReplayFault};
use crate::replay::input::{Ending, fill};
use crate::script::hexadecimal::LONGEST;
use crate::script::line::{Line, is_silent};
use crate::script::lines::{split_line, without_return};
use bac_device::{DeviceLine, ObjectLine};
use std::alloc::Global;
use std::io::Read;

/// A device that is described, and its objects in the order of their lines.
#[derive(Debug, Drop)]
pub struct Configuration {
    pub device: DeviceLine,
    pub objects: Vec<ObjectLine>,
}

/// What a text describes, and the text itself.
#[derive(Debug, Drop)]
pub struct ConfigurationText {
    /// `None` if no line describes a device.
    pub configuration: Option<Configuration>,
    /// All that was read.
    pub text: Vec<u8>,
}

/// Adds the device.
fn add_device(
    alloc: Global,
    kept: &mut Option<Configuration>,
    device: DeviceLine,
) -> Result<(), LineFault>
    ensures added { IsAdded (with_line (kept_plan kept.old) (Device device)) result
        (kept_plan kept.new) }
    ensures err { OnErr result (kept_plan kept.new ≡ kept_plan kept.old) }
{
    match kept {
        None => {
            *kept = Some(Configuration {
                device,
                objects: Vec::new(alloc),
            });
            Ok(())
        }
        Some(_) => Err(LineFault::Bad),
    }
}

/// Adds an object of the device.
fn add_object(kept: &mut Option<Configuration>, object: ObjectLine) -> Result<(), LineFault>
    ensures added { IsAdded (with_line (kept_plan kept.old) (Object object)) result
        (kept_plan kept.new) }
    ensures err { OnErr result (kept_plan kept.new ≡ kept_plan kept.old) }
{
    match kept {
        Some(configuration) => match configuration.objects.push(object) {
            Ok(()) => Ok(()),
            Err(_) => Err(LineFault::Memory),
        },
        None => Err(LineFault::Bad),
    }
}

/// Adds what a text says.
#[tactic(auto, unfolding(crate::specs::Configuration::with_text))]
fn add_text(alloc: Global, kept: &mut Option<Configuration>, text: &[u8]) -> Result<(), LineFault>
    ensures added { IsAdded (with_text (kept_plan kept.old) text.now) result (kept_plan kept.new) }
    ensures err { OnErr result (kept_plan kept.new ≡ kept_plan kept.old) }
{
    if is_silent(text) {
        return Ok(());
    }
    // A datagram is of no use here: its line is bad.
    let mut room = [0; LONGEST];
    match Line::read(alloc, text, &mut room) {
        Ok(Some(Line::Device(device))) => add_device(alloc, kept, device),
        Ok(Some(Line::Object(object))) => add_object(kept, object),
        Ok(_) => Err(LineFault::Bad),
        Err(_) => Err(LineFault::Memory),
    }
}

/// Adds what a line with this number says.
fn add_line(
    alloc: Global,
    kept: &mut Option<Configuration>,
    number: usize,
    text: &[u8],
) -> Result<(), ReplayFault>
    ensures { AddsLine (with_text (kept_plan kept.old) text.now) number result
        (kept_plan kept.new) }
{
    match add_text(alloc, kept, text) {
        Ok(()) => Ok(()),
        Err(fault) => Err(fault.at_line(number)),
    }
}

/// What the lines of a text describe.
fn described(alloc: Global, text: &[u8]) -> Result<Option<Configuration>, ReplayFault>
    requires { length text.now ≤ LIMIT }
    ensures { Describes (plan_of 1 None (lines text.now)) result }
{
    let mut kept = None;
    let mut rest = text;
    let mut number = 1;
    while let Some((line, more)) = split_line(rest) {
        add_line(alloc, &mut kept, number, without_return(line))?;
        rest = more;
        number += 1;
    }
    if rest.is_empty() {
        return Ok(kept);
    }
    add_line(alloc, &mut kept, number, rest)?;
    Ok(kept)
}

/// What the lines of a text describe, up to the first that describes nothing, as an event does;
/// `None` if there is no memory for it.
pub(crate) fn described_before_events(alloc: Global, text: &[u8]) -> Option<Option<Configuration>>
    ensures { IfSome result (λ kept. kept_plan kept ≡ described None (lines text.now)) }
{
    let mut kept = None;
    let mut rest = text;
    while let Some((line, more)) = split_line(rest) {
        match add_text(alloc, &mut kept, without_return(line)) {
            Ok(()) => rest = more,
            Err(LineFault::Bad) => return Some(kept),
            Err(_) => return None,
        }
    }
    if rest.is_empty() {
        return Some(kept);
    }
    match add_text(alloc, &mut kept, rest) {
        Ok(()) | Err(LineFault::Bad) => Some(kept),
        Err(_) => None,
    }
}

/// What the reader has, which is read into the buffer. The first part of the answer says how many
/// octets came.
fn configuration_in<R: Read>(
    alloc: Global,
    limit: usize,
    buffer: &mut [u8],
    reader: &mut R,
) -> (usize, Result<Option<Configuration>, ReplayFault>)
    requires limit { limit ≤ LIMIT }
    requires room { length buffer.old ≡ limit + 1 }
    ensures within { result.0 ≤ length buffer.new }
    ensures kept { Consumes (R.remaining reader.old) (R.remaining reader.new)
        (take result.0 buffer.new) }
    ensures configures { Configures limit (R.remaining reader.old) (R.remaining reader.new)
        result.1 }
    ensures read { ConsumesUpTo (limit + 1) (R.remaining reader.old) (R.remaining reader.new) }
    ensures whole { OnOk result.1 (IsAtEnd (R.remaining reader.new)) }
{
    let (filled, ending) = fill(reader, buffer);
    match ending {
        Ending::End => (filled, described(alloc, &buffer[..filled])),
        Ending::Full => (filled, Err(ReplayFault::TooLong)),
        Ending::Refused => (filled, Err(ReplayFault::Read)),
    }
}

/// The same, with a buffer of its own.
fn configuration_within<R: Read>(
    alloc: Global,
    limit: usize,
    reader: &mut R,
) -> Result<Option<Configuration>, ReplayFault>
    requires { limit ≤ LIMIT }
    ensures configures { Configures limit (R.remaining reader.old) (R.remaining reader.new) result }
    ensures read { ConsumesUpTo (limit + 1) (R.remaining reader.old) (R.remaining reader.new) }
    ensures whole { OnOk result (IsAtEnd (R.remaining reader.new)) }
{
    match vec![in alloc; 0u8; limit + 1] {
        Ok(mut buffer) => {
            let (_, read) = configuration_in(alloc, limit, &mut buffer, reader);
            read
        }
        Err(_) => Err(ReplayFault::Memory),
    }
}

/// The same, with the text; a fault comes with what is to mend.
fn explained_within<R: Read>(
    alloc: Global,
    limit: usize,
    reader: &mut R,
) -> Result<ConfigurationText, Refused>
    requires { limit ≤ LIMIT }
    ensures configures { Configures limit (R.remaining reader.old) (R.remaining reader.new)
        (without_text (without_reason result)) }
    ensures text { IfOk result
        (λ read. IfSome (R.remaining reader.old) (λ script. read.text.items ≡ script)) }
    ensures explained { IfErr result
        (IsExplainedThere (R.remaining reader.old) (R.remaining reader.new)) }
    ensures read { ConsumesUpTo (limit + 1) (R.remaining reader.old) (R.remaining reader.new) }
    ensures whole { OnOk result (IsAtEnd (R.remaining reader.new)) }
{
    let Ok(mut buffer) = vec![in alloc; 0u8; limit + 1] else {
        return Err(Refused {
            fault: ReplayFault::Memory,
            reason: None,
        });
    };
    let (filled, read) = configuration_in(alloc, limit, &mut buffer, reader);
    match read {
        Ok(configuration) => {
            buffer.truncate(filled);
            Ok(ConfigurationText {
                configuration,
                text: buffer,
            })
        }
        Err(fault) => Err(Refused::of_configuration(&buffer[..filled], fault)),
    }
}

/// Reads a configuration as [`read_configuration`] does, and keeps its text, in which lines can be
/// found; a fault comes with what is wrong with a bad line.
pub fn read_configuration_explained<R: Read>(
    alloc: Global,
    reader: &mut R,
) -> Result<ConfigurationText, Refused>
    ensures configures { Configures LIMIT (R.remaining reader.old) (R.remaining reader.new)
        (without_text (without_reason result)) }
    ensures text { IfOk result
        (λ read. IfSome (R.remaining reader.old) (λ script. read.text.items ≡ script)) }
    ensures explained { IfErr result
        (IsExplainedThere (R.remaining reader.old) (R.remaining reader.new)) }
    ensures read { ConsumesUpTo (LIMIT + 1) (R.remaining reader.old) (R.remaining reader.new) }
    ensures whole { OnOk result (IsAtEnd (R.remaining reader.new)) }
{
    explained_within(alloc, LIMIT, reader)
}

/// Reads a configuration to its end: lines of a script that describe a device and its objects, and
/// no event, which is a bad line here. `None` if no line describes a device. Lines are looked at
/// once all is read: a refused read and a configuration of over 1,048,576 octets come before a bad
/// line.
pub fn read_configuration<R: Read>(
    alloc: Global,
    reader: &mut R,
) -> Result<Option<Configuration>, ReplayFault>
    ensures configures { Configures 1048576 (R.remaining reader.old) (R.remaining reader.new)
        result }
    ensures read { ConsumesUpTo 1048577 (R.remaining reader.old) (R.remaining reader.new) }
    ensures whole { OnOk result (IsAtEnd (R.remaining reader.new)) }
{
    configuration_within(alloc, LIMIT, reader)
}
