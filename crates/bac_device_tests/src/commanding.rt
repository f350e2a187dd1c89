//! What a caller of a device can tell from public contracts alone.

ghost use Rattle.std.specs.Prelude.{◌≡◌, ℕ, None, Some, map, slice_get, IfOk};
ghost use Rattle.bac_objects.specs.Build.{built, id_of};
ghost use Rattle.bac_objects.specs.declared.command.Setting.{Setting};
ghost use Rattle.bac_objects.specs.declared.lines.ObjectLine.{ObjectLine as Line};
ghost use Rattle.bac_device.specs.History.{IsCommanded, after, default_of, write_asked, writes};

use bac_device::{
    BuildFault, Device, DeviceLine, ObjectLine, Reply, built_objects_are_commanded,
    refusals_change_nothing,
};
use std::alloc::Global;

/// Gives a device datagrams, one after the other.
pub fn give_all(device: &mut Device, datagrams: &[&[u8]])
    ensures { device.new ≡ after device.old (map (λ datagram. datagram.now) datagrams.now) }
{
    for datagram in datagrams {
        device.handle(datagram);
    }
}

/// A datagram that is no WriteProperty to this device alone leaves it as it was.
pub fn ask(device: &mut Device, datagram: &[u8]) -> Option<Reply>
    requires { write_asked datagram.now ≡ None }
    ensures { device.new ≡ device.old }
{
    // For the prover alone: a law that the contract follows from.
    refusals_change_nothing();
    device.handle(datagram)
}

/// Builds a device and gives it datagrams: each of its commandable objects then has at each
/// priority what the last accepted write at it set, and the present value that follows.
pub fn build_and_give(
    alloc: Global,
    line: &DeviceLine,
    lines: &[ObjectLine],
    datagrams: &[&[u8]],
) -> Result<Device, BuildFault>
    ensures { IfOk result (λ device. (i : ℕ) (object : Line) (default : Setting)
        → slice_get lines.now i ≡ Some object → default_of object ≡ Some default
        → IsCommanded device (id_of object)
        (writes (built line.now lines.now) (map (λ datagram. datagram.now) datagrams.now))
        default) }
{
    // For the prover alone: a law that the contract follows from.
    built_objects_are_commanded();
    let mut device = Device::build(alloc, line, lines)?;
    give_all(&mut device, datagrams);
    Ok(device)
}
