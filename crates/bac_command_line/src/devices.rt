//! Devices that stand in lines, one in each.

ghost use Rattle.std.specs.Prelude.{◌≡◌, ◌==◌, ◌&&◌, ◌∷◌, [], Some, codes, map, option_map};
ghost use Rattle.std.specs.Prelude.{IfOk};
ghost use Rattle.std.specs.List.{slice_split};
ghost use Rattle.std.specs.Str.{bytes_eq};
ghost use Rattle.bac_command_line.specs.Devices.{announced, device_at, device_of, devices_in};
ghost use Rattle.bac_command_line.specs.Devices.{devices_of};
ghost use Rattle.bac_command_line.specs.Devices.{said_device, said_way, way_behind, way_if, way_of};
ghost use Rattle.bac_command_line.specs.Listing.{IsListed, Lists, listed_by, with_said};
ghost use Rattle.bac_command_line.specs.Listing.{within_list};
ghost use Rattle.bac_command_line.specs.Rows.{route_in};

use crate::address::address;
use crate::group::{Group, Groups, Way};
use crate::listing::{ListFault, MOST_LISTED, parts, without_return};
use crate::name::Name;
use crate::names::Names;
use crate::route::route;
use std::alloc::{AllocError, Global};

/// The place of a device behind a router, as a line says it.
#[derive(Clone, Copy)]
struct Behind<'a> {
    net: &'a [u8],
    address: &'a [u8],
}

/// A device, as a line says it.
#[derive(Clone, Copy)]
struct Spoken<'a> {
    address: &'a [u8],
    way: Option<Behind<'a>>,
}

/// A network and an address there, if they are ones.
fn way_if<'a>(net: &'a [u8], address: &'a [u8]) -> Option<Behind<'a>>
    ensures { option_map said_way result
        ≡ way_if net.now address.now (route_in (Some net.now) (Some address.now)) }
{
    match route(net, address) {
        Ok(_) => Some(Behind { net, address }),
        Err(_) => None,
    }
}

/// Whether a place behind a router has its word, and ends before the word `max-apdu`.
fn is_whole(mac: &[u8], next: &[u8]) -> bool
    ensures { result ≡ (bytes_eq mac.now (codes "mac") && bytes_eq next.now (codes "max-apdu")) }
{
    mac == b"mac".as_slice() && next == b"max-apdu".as_slice()
}

/// What stands behind the word `net` of a line.
#[tactic(auto, unfolding(crate::specs::Devices::way_behind))]
fn way_behind<'a>(words: &[&'a [u8]]) -> Option<Behind<'a>>
    ensures { option_map said_way result ≡ way_behind (map (λ word. word.now) words.now) }
{
    let [net, mac, address, next, ..] = words else {
        return None;
    };
    if is_whole(mac, next) {
        return way_if(net, address);
    }
    None
}

/// What stands behind the address of a line of `bac wi`.
#[tactic(auto, unfolding(crate::specs::Devices::way_of))]
fn way_of<'a>(behind: &[&'a [u8]]) -> Option<Option<Behind<'a>>>
    ensures { option_map (option_map said_way) result
        ≡ way_of (map (λ word. word.now) behind.now) }
{
    let [word, more @ ..] = behind else {
        return None;
    };
    if *word == b"max-apdu".as_slice() {
        return Some(None);
    }
    if *word == b"net".as_slice() {
        return Some(Some(way_behind(more)?));
    }
    None
}

/// The device at an address.
#[tactic(auto, unfolding(crate::specs::Devices::device_at))]
fn device_at<'a>(way: Option<Behind<'a>>, word: &'a [u8]) -> Option<Spoken<'a>>
    ensures { option_map said_device result ≡ device_at (option_map said_way way.entry) word.now }
{
    address(word)?;
    Some(Spoken { address: word, way })
}

/// The device of a line of `bac wi`.
#[tactic(auto, unfolding(crate::specs::Devices::announced))]
fn announced<'a>(word: &[u8], address: &'a [u8], behind: &[&'a [u8]]) -> Option<Spoken<'a>>
    ensures { option_map said_device result
        ≡ announced word.now address.now (map (λ word. word.now) behind.now) }
{
    if word == b"I-Am".as_slice() {
        return device_at(way_of(behind)?, address);
    }
    None
}

/// The device of the parts of a line.
fn device_of<'a>(words: &[&'a [u8]]) -> Option<Spoken<'a>>
    ensures { option_map said_device result ≡ device_of (map (λ word. word.now) words.now) }
{
    match words {
        [address] => device_at(None, address),
        [word, _, address, behind @ ..] => announced(word, address, behind),
        _ => None,
    }
}

/// The device of a line.
fn device_in(alloc: Global, line: &[u8]) -> Result<Option<Spoken<'_>>, AllocError>
    ensures { IfOk result (λ spoken. option_map said_device spoken
        ≡ device_of (slice_split (λ c. c == 32) line.now)) }
{
    let words = line.split(|c| *c == b' ').collect::<Vec<_>>(alloc)?;
    Ok(device_of(&words))
}

/// These octets as a text.
fn name_of(alloc: Global, octets: &[u8]) -> Result<Name, AllocError>
    ensures { IfOk result (λ name. name ≡ octets.now) }
{
    let mut text = Vec::new(alloc);
    text.extend_from_slice(octets)?;
    match String::from_utf8(text) {
        Ok(text) => Ok(Name::of(text)),
        Err(_) => Err(AllocError),
    }
}

/// A way as texts, if there is one.
fn way_as_texts(alloc: Global, way: Option<Behind<'_>>) -> Result<Option<Way>, AllocError>
    ensures { IfOk result (λ texts. texts ≡ option_map said_way way.entry) }
{
    match way {
        Some(way) => Ok(Some(Way {
            dnet: name_of(alloc, way.net)?,
            dadr: name_of(alloc, way.address)?,
        })),
        None => Ok(None),
    }
}

impl Spoken<'_> {
    /// The device with no log named.
    fn group(self, alloc: Global) -> Result<Group, AllocError>
        ensures { IfOk result (λ group. group ≡ said_device self.entry) }
    {
        Ok(Group {
            address: name_of(alloc, self.address)?,
            instances: Names::of(Vec::new(alloc)),
            way: way_as_texts(alloc, self.way)?,
        })
    }
}

/// A list that goes to the line with this number isn't too long.
fn within(list: &[Group], number: usize) -> Result<(), ListFault>
    ensures { IsListed (within_list number list.now) result list.now }
{
    if list.len() > MOST_LISTED {
        return Err(ListFault::TooMany(number));
    }
    Ok(())
}

/// Adds the device that a line says.
fn add_device(
    alloc: Global,
    list: &mut Vec<Group>,
    number: usize,
    line: &[u8],
) -> Result<(), ListFault>
    ensures { IsListed (with_said list.old.items number (option_map (λ device. device ∷ [])
        (device_of (slice_split (λ c. c == 32) line.now)))) result list.new.items }
{
    let Ok(spoken) = device_in(alloc, line) else {
        return Err(ListFault::Memory);
    };
    let Some(spoken) = spoken else {
        return Err(ListFault::BadLine(number));
    };
    let Ok(group) = spoken.group(alloc) else {
        return Err(ListFault::Memory);
    };
    if list.push(group).is_err() {
        return Err(ListFault::Memory);
    }
    within(list.as_slice(), number)
}

/// Adds what a line with this number says.
fn add_line(
    alloc: Global,
    list: &mut Vec<Group>,
    number: usize,
    line: &[u8],
) -> Result<(), ListFault>
    ensures { IsListed (with_said list.old.items number (devices_in line.now)) result
        list.new.items }
{
    if line.is_empty() || line[0] == b'#' {
        return within(list.as_slice(), number);
    }
    add_device(alloc, list, number, line)
}

/// The devices of these lines.
fn listed(alloc: Global, lines: &[&[u8]]) -> Result<Groups, ListFault>
    ensures { Lists (listed_by devices_in [] 1 (map (λ line. line.now) lines.now)) result }
{
    let mut list = Vec::new(alloc);
    let mut number = 1;
    for line in lines {
        add_line(alloc, &mut list, number, without_return(line))?;
        number += 1;
    }
    if list.is_empty() {
        return Err(ListFault::Empty);
    }
    Ok(Groups::of(list))
}

/// The devices of the lines of a text, one in each: an address, or a line of `bac wi`, which has
/// the device's place behind a router, too. A line ends with a line feed, before which a carriage
/// return may stand; empty lines and those that begin with `#` are passed over. It is the first
/// line that is neither, or that goes beyond 4,096 devices, which is told.
pub fn read_devices(alloc: Global, text: &[u8]) -> Result<Groups, ListFault>
    ensures { Lists (devices_of text.now) result }
{
    let Ok(lines) = parts(alloc, text) else {
        return Err(ListFault::Memory);
    };
    listed(alloc, &lines)
}
