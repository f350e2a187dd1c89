//! Texts as an archive has them.

ghost use Rattle.std.specs.Prelude.{◌≡◌, IfOk};
ghost use Rattle.std.specs.String.{string_bytes};
ghost use Rattle.bac_device_poller.specs.Naming.{moment_text};
ghost use Rattle.bac_print.specs.Addresses.{address_text};
ghost use Rattle.bac_keep_command_line.specs.Devices.{mac_of};

use bac_apdu::Route;
use bac_print::{push_address, push_hex, push_moment};
use bac_wire::{Address, Stamp};
use std::alloc::{AllocError, Global};

/// The text of octets that are one.
fn text_of(octets: Vec<u8>) -> Result<String, AllocError>
    ensures { IfOk result (λ text. string_bytes text ≡ octets.items) }
{
    match String::from_utf8(octets) {
        Ok(text) => Ok(text),
        Err(_) => Err(AllocError),
    }
}

/// `A.B.C.D:PORT`.
pub(crate) fn address_text(alloc: Global, address: Address) -> Result<String, AllocError>
    ensures { IfOk result (λ text. string_bytes text ≡ address_text address) }
{
    let mut text = Vec::new(alloc);
    push_address(&mut text, address)?;
    text_of(text)
}

/// The address of a place behind a router in hexadecimal digits, or nothing.
pub(crate) fn mac_text(alloc: Global, route: &Option<Route>) -> Result<String, AllocError>
    ensures { IfOk result (λ text. string_bytes text ≡ mac_of route.now) }
{
    let mut text = Vec::new(alloc);
    if let Some(route) = route {
        push_hex(&mut text, route.far().address)?;
    }
    text_of(text)
}

/// A moment, as an archive has when a device answered.
pub(crate) fn moment_text(alloc: Global, at: Stamp) -> Result<String, AllocError>
    ensures { IfOk result (λ text. string_bytes text ≡ moment_text at) }
{
    let mut text = Vec::new(alloc);
    push_moment(&mut text, at.date(), at.time())?;
    text_of(text)
}
