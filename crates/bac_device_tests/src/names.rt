//! A name that no script can give. Which other lines are refused is in examples/check/lines.rows.

use crate::plant::{name, plant};
use bac_device::{BuildFault, Device, ObjectLine};
use std::alloc::Global;

/// What is wrong with a device without a name, and with a reply size that is none.
fn fault_of_device(alloc: Global) -> Option<BuildFault> {
    let line = plant(alloc, 4_194_302, "", 49)?;
    Device::build(alloc, &line, &[]).err()
}

/// Binary Value 4194303, which is none, without a name.
fn binary(alloc: Global) -> Option<ObjectLine> {
    Some(ObjectLine::Binary {
        instance: 4_194_303,
        name: name(alloc, "")?,
        default: 0,
    })
}

/// What is wrong with a device that has that object.
fn fault_of_object(alloc: Global) -> Option<BuildFault> {
    let line = plant(alloc, 123, "plant", 1476)?;
    let object = binary(alloc)?;
    Device::build(alloc, &line, &[object]).err()
}

#[test]
fn a_name_has_an_octet(rt: HostRuntime) {
    // The fault of the name comes before that of the reply size.
    assert_eq!(rt; fault_of_device(rt.alloc()), Some(BuildFault::BadName));
    assert_eq!(rt; fault_of_object(rt.alloc()), Some(BuildFault::BadInstance));
}
