//! Where a device is asked, by its row.

ghost use Rattle.std.specs.Prelude.{◌≡◌, ◌≢◌, IfErr, IfOk, Some};
ghost use Rattle.std.specs.Option.{option_map};
ghost use Rattle.hex.specs.Hex.{decode_of};
ghost use Rattle.bac_plan.specs.Devices.{IsDeviceFault, IsRouteOf, IsWayOf, address_there};
ghost use Rattle.bac_plan.specs.Devices.{octets_by};
ghost use Rattle.bac_plan.specs.Pollers.{transactions_on};

use crate::address::peer_in;
use crate::fault::PlanFault;
use bac_apdu::Route;
use bac_archive::DeviceRow;
use bac_device_poll::Way;
use bac_link::Transactions;
use hex::FromHexError;
use std::alloc::{AllocError, Global};

// The octets that hexadecimal digits say, if they say some.
fn octets_of(alloc: Global, digits: &str) -> Result<Option<Vec<u8>>, AllocError>
    ensures { IfOk result (λ octets.
        option_map (λ o. o.items) octets ≡ octets_by (decode_of digits.now)) }
{
    match hex::decode(alloc, digits.as_bytes()) {
        Ok(octets) => Ok(Some(octets)),
        Err(FromHexError::OutOfMemory) => Err(AllocError),
        Err(_) => Ok(None),
    }
}

// The place with this address behind the router of a device.
fn route_at(device: &DeviceRow, address: &[u8]) -> Result<Option<Route>, PlanFault>
    requires behind { device.now.dnet ≢ 0 }
    requires there { address_there device.now ≡ Some address.now }
    ensures ok { IfOk result (IsRouteOf device.now) }
    ensures err { IfErr result (IsDeviceFault device.now) }
{
    match Route::new(device.dnet, address) {
        Some(route) => Ok(Some(route)),
        None => Err(PlanFault::Device(device.id)),
    }
}

// Its place behind its router, if it is behind one.
fn route_of(alloc: Global, device: &DeviceRow) -> Result<Option<Route>, PlanFault>
    ensures ok { IfOk result (IsRouteOf device.now) }
    ensures err { IfErr result (IsDeviceFault device.now) }
{
    if device.dnet == 0 {
        return Ok(None);
    }
    match octets_of(alloc, device.dadr.as_str())? {
        Some(address) => route_at(device, address.as_slice()),
        None => Err(PlanFault::Device(device.id)),
    }
}

/// Where it is asked.
pub(crate) fn way_of(alloc: Global, device: &DeviceRow) -> Result<Way, PlanFault>
    ensures ok { IfOk result (IsWayOf device.now) }
    ensures err { IfErr result (IsDeviceFault device.now) }
{
    match peer_in(device.address.as_bytes()) {
        Some(peer) => {
            let route = route_of(alloc, device)?;
            Ok(Way { peer, route })
        }
        None => Err(PlanFault::Device(device.id)),
    }
}

// The same place again.
fn copy_of(route: &Option<Route>) -> Option<Route>
    ensures { result ≡ route.now }
{
    match route {
        Some(route) => {
            let far = route.far();
            Route::new(far.net, far.address)
        }
        None => None,
    }
}

/// The transactions with it: none is begun.
pub(crate) fn transactions_on(way: &Way, retries: u8) -> Transactions
    ensures { result ≡ transactions_on way.now retries }
{
    match copy_of(&way.route) {
        Some(route) => Transactions::through(retries, route),
        None => Transactions::new(retries),
    }
}
