//! Which line is to mend if a device can't be built.

ghost use Rattle.std.specs.Prelude.{◌≡◌, None, IfSome};
ghost use Rattle.std.specs.List.{find};
ghost use Rattle.std.specs.Option.{option_map};
ghost use Rattle.std.specs.Str.{bytes_eq};
ghost use Rattle.bac_objects.specs.Build.{build_fault, name_of};
ghost use Rattle.bac_objects.specs.Misfit.{IsMisfit, device_line, earlier_named, namesake_of};
ghost use Rattle.bac_objects.specs.Misfit.{object_line};

use crate::build::{BuildFault, Faulty, Misfit, first_faulty};
use crate::database::DEVICE;
use crate::lines::{DeviceLine, LineId, ObjectLine};
use std::alloc::Global;

impl DeviceLine {
    /// The line, by its type and instance.
    fn line_id(&self) -> LineId
        ensures { result ≡ device_line self.now }
    {
        LineId {
            object_type: DEVICE,
            instance: self.instance,
        }
    }
}

impl ObjectLine {
    /// The line, by its type and instance.
    fn line_id(&self) -> LineId
        ensures { result ≡ object_line self.now }
    {
        LineId {
            object_type: self.kind(),
            instance: self.instance(),
        }
    }
}

/// The first of these lines with this name.
fn first_named(lines: &[ObjectLine], name: &[u8]) -> Option<LineId>
    ensures { result
        ≡ option_map object_line (find (λ line. bytes_eq name.now (name_of line)) lines.now) }
{
    for line in lines {
        if name == line.name().octets() {
            return Some(line.line_id());
        }
    }
    None
}

/// The first line before an object's line with this name, the device's line included.
fn earlier_named(device: &DeviceLine, before: &[ObjectLine], name: &[u8]) -> Option<LineId>
    ensures { result ≡ earlier_named device.now before.now name.now }
{
    if name == device.name.octets() {
        return Some(device.line_id());
    }
    first_named(before, name)
}

impl Faulty<'_> {
    /// The line that has the same name, if that is the fault.
    fn namesake(&self, device: &DeviceLine) -> Option<LineId>
        ensures { result
            ≡ namesake_of self.now.fault device.now self.now.before.now self.now.line.now }
    {
        match self.fault {
            BuildFault::DuplicateName => {
                earlier_named(device, self.before, self.line.name().octets())
            }
            _ => None,
        }
    }
}

/// The first line with a fault, of which [`Database::build`](crate::Database::build) tells the
/// fault; `None` if no line has one.
pub fn misfit(alloc: Global, device: &DeviceLine, lines: &[ObjectLine]) -> Option<Misfit>
    ensures some { IfSome result (IsMisfit device.now lines.now) }
    ensures none { result ≡ None → build_fault device.now lines.now ≡ None }
    ensures fault { option_map (λ misfit. misfit.fault) result ≡ build_fault device.now lines.now }
{
    if let Some(fault) = device.fault() {
        return Some(Misfit {
            line: device.line_id(),
            fault,
            namesake: None,
        });
    }
    let faulty = first_faulty(alloc, device, lines)?;
    Some(Misfit {
        line: faulty.line.line_id(),
        fault: faulty.fault,
        namesake: faulty.namesake(device),
    })
}
