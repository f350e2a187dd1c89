//! Several addresses.

ghost use Rattle.std.specs.Prelude.{◌≡◌};

use bac_wire::Address;
use std::marker::Model;

/// Addresses in their order, each with four octets of the host and two of the port.
#[derive(Debug, Drop)]
pub struct Addresses {
    list: Vec<Address>,
}

impl Model for Addresses {
    ghost use Rattle.std.specs.Prelude.{ℕ, List};

    ghost Value = { List (List ℕ) };

    ghost view = { λ addresses. addresses.list.items };
}

impl Addresses {
    /// These addresses.
    pub fn of(list: Vec<Address>) -> Addresses
        ensures { result ≡ list.items }
    {
        Addresses { list }
    }

    /// All of them.
    pub fn as_slice(&self) -> &[Address]
        ensures { result.now ≡ self.now }
    {
        self.list.as_slice()
    }
}
