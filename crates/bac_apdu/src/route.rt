//! Places behind a router (clause 6.2.2).

ghost use Rattle.std.specs.Prelude.{◌≡◌, IfSome, IfNone};
ghost use Rattle.bac_apdu.specs.Npdu.{Place, place_of};
ghost use Rattle.bac_apdu.specs.Route.{IsRoute};

use crate::npdu::Far;
use arrayvec::ArrayVec;
use std::marker::Model;

/// The network number that stands for all networks.
const ALL_NETWORKS: u16 = 0xffff;

/// Where a device is that is reached through a router: its network and its address there.
#[derive(Clone, Debug, PartialEq, Eq, Drop)]
pub struct Route {
    net: u16,
    address: ArrayVec<u8, 15>,
}

impl Model for Route {
    ghost use Rattle.std.specs.Prelude.{◌≤◌, length};
    ghost use Rattle.bac_apdu.specs.Npdu.{Place};

    ghost Value = { Place };

    ghost view = { λ r. record { net = r.net; address = r.address.items } };

    ghost invariant = { λ r. (1 ≤ r.net) × (r.net ≤ 65534) × (1 ≤ length r.address.items) };

    ghost inverse = { λ p. record { net = p.net; address = record { items = p.address } } };
}

impl Route {
    /// The place with this address on this network. `None` unless the network is 1 to 65534 and the
    /// address has 1 to 15 octets.
    pub fn new(net: u16, address: &[u8]) -> Option<Route>
        ensures some { IfSome result
            (λ r. (r ≡ record { net = net; address = address.now }) × IsRoute r) }
        ensures none { IfNone result (IsRoute (record { net = net; address = address.now }) → ⊥) }
    {
        if net == 0 || net == ALL_NETWORKS || address.is_empty() {
            return None;
        }
        let mut made = ArrayVec::new();
        match made.try_extend_from_slice(address) {
            Ok(()) => Some(Route { net, address: made }),
            Err(_) => None,
        }
    }

    /// The place, as a network header has it.
    pub fn far(&self) -> Far
        ensures value { place_of result ≡ self.now }
        ensures route { IsRoute self.now }
    {
        Far {
            net: self.net,
            address: self.address.as_slice(),
        }
    }
}
