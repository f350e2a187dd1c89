//! Devices, and which of its logs of each.

ghost use Rattle.std.specs.Prelude.{◌≡◌};
ghost use Rattle.bac_command_line.specs.Groups.{are_any, are_input};

use crate::name::Name;
use crate::names::Names;
use std::marker::Model;

/// The place of a device behind a router, as `--dnet` and `--dadr` say it.
#[derive(Debug, Drop)]
pub struct Way {
    /// Its network.
    pub dnet: Name,
    /// Its address there.
    pub dadr: Name,
}

/// A device and logs of it, as the words say them.
#[derive(Debug, Drop)]
pub struct Group {
    /// The device.
    pub address: Name,
    /// The logs of the device; each of its Object_List if there are none.
    pub instances: Names,
    /// Its own place behind a router, where a line of standard input says one.
    pub way: Option<Way>,
}

/// Groups in their order.
#[derive(Debug, Drop)]
pub struct Groups {
    list: Vec<Group>,
}

impl Model for Groups {
    ghost use Rattle.std.specs.Prelude.{List};
    ghost use Rattle.bac_command_line.specs.declared.group.Group.{Group};

    ghost Value = { List Group };

    ghost view = { λ groups. groups.list.items };
}

impl Groups {
    /// These groups.
    pub fn of(list: Vec<Group>) -> Groups
        ensures { result ≡ list.items }
    {
        Groups { list }
    }

    /// All of them.
    pub fn as_slice(&self) -> &[Group]
        ensures { result.now ≡ self.now }
    {
        self.list.as_slice()
    }

    /// Whether there is one.
    pub fn are_any(&self) -> bool
        ensures { result ≡ are_any self.now }
    {
        !self.list.is_empty()
    }

    /// Whether they are the one word `-`, which stands for the lines of standard input.
    pub fn are_input(&self) -> bool
        ensures { result ≡ are_input self.now }
    {
        match self.list.as_slice() {
            [group] => group.address.octets() == b"-".as_slice() && group.instances.are_none(),
            _ => false,
        }
    }
}
