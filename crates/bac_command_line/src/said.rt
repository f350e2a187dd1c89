//! What a word or a line says, before it is a list of addresses.

ghost use Rattle.std.specs.Prelude.{◌+◌, ◌≤◌, ◌^◌};

use bac_wire::Address;

/// Hosts one after the other, each with the port of this address.
#[derive(Clone, Copy)]
pub(crate) struct Hosts {
    pub address: Address,
    pub first: u32,
    pub count: u32,
    ghost within: { first + count ≤ 2 ^ 32 },
}

/// Which stations are said.
#[derive(Clone, Copy)]
pub(crate) enum Said {
    Nothing,
    Station(Address),
    Network(Hosts),
}
