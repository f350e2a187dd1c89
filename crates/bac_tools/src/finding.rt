//! The tool that finds devices.

ghost use Rattle.std.specs.Prelude.{◌≡◌};
ghost use Rattle.bac_tools.specs.Faults.{hears_broadcasts, of_find, unanswered};
ghost use Rattle.bac_tools.specs.Finding.{Finds, Searches, inquiry, limits_of, search_of};
ghost use Rattle.bac_ports.specs.Sockets.{socket_rules};
ghost use Rattle.bac_tools.specs.Sockets.{outside, pipes};

use crate::asking::ANY;
use crate::fault::{Fault, Unanswered};
use crate::listing::listed_addresses;
use bac_apdu::WhoIs;
use bac_command_line::{Addresses, Discovery, Stations};
use bac_ports::Sockets;
use bac_query::{FindFault, Search, find_devices};
use bac_wire::Address;
use std::alloc::Global;
use std::io::{Read, Write};

/// The address at which broadcasts are heard (Annex J.1.2).
const EVERY: Address = [0, 0, 0, 0, 0xba, 0xc0];

/// The limits of the instances that are to answer; the lowest alone is both.
fn limits(min: Option<u32>, max: Option<u32>) -> Option<(u32, u32)>
    ensures { result ≡ limits_of min max }
{
    let low = min?;
    Some((low, max.unwrap_or(low)))
}

/// The devices that are to answer.
fn search_of(said: &Discovery) -> Search
    ensures { result ≡ search_of said.now }
{
    Search {
        network: said.dnet,
        who_is: WhoIs {
            limits: limits(said.min, said.max),
        },
    }
}

/// Whether broadcasts come to this address of ours.
fn hears_broadcasts(local: Option<Address>) -> bool
    ensures { result ≡ hears_broadcasts local }
{
    match local {
        Some(local) => local == EVERY,
        None => false,
    }
}

/// Nobody answered, of these addresses.
fn unanswered(local: Option<Address>, addresses: &[Address]) -> Unanswered
    ensures { result ≡ unanswered local addresses.now }
{
    Unanswered {
        asked: addresses.len(),
        hears_broadcasts: hears_broadcasts(local),
    }
}

/// The fault of a tool that asked so, and found no device.
fn of_find(asked: Unanswered, fault: FindFault) -> Fault
    ensures { result ≡ of_find asked fault }
{
    match fault {
        FindFault::Socket => Fault::Socket,
        FindFault::Refused(address) => Fault::Refused(address),
        FindFault::NoAnswer => Fault::NoAnswer(asked),
        FindFault::Write => Fault::Write,
        FindFault::Memory => Fault::Memory,
    }
}

/// Asks each address who is there, and prints each device that announces itself.
fn search_for<S: Sockets, O: Write>(
    sockets: &mut S,
    alloc: Global,
    addresses: &Addresses,
    search: &Search,
    local: Option<Address>,
    timeout: u32,
    output: &mut O,
) -> Result<u8, Fault>
    ensures { Searches
        (socket_rules S.opens S.closes S.Socket.sends S.Socket.receives S.Socket.receives_within)
        (inquiry search.now local timeout) addresses.now
        (outside sockets.old (O.contents output.old)) result
        (outside sockets.new (O.contents output.new)) }
{
    let mut port = match sockets.open(local.unwrap_or(ANY), timeout) {
        Ok(port) => port,
        Err(why) => return Err(Fault::Unopened(why)),
    };
    let asked = addresses.as_slice();
    let found = find_devices(alloc, &mut port, asked, search, output);
    sockets.close(port);
    match found {
        Ok(()) => Ok(0),
        Err(fault) => Err(of_find(unanswered(local, asked), fault)),
    }
}

/// Asks each station that the words name, or that the input lists, who is there, and prints each
/// device that announces itself. The input is read to its end before a socket is opened.
pub(crate) fn wi<S: Sockets, I: Read, O: Write>(
    sockets: &mut S,
    alloc: Global,
    said: &Discovery,
    input: &mut I,
    output: &mut O,
) -> Result<u8, Fault>
    ensures { Finds
        (socket_rules S.opens S.closes S.Socket.sends S.Socket.receives S.Socket.receives_within)
        (inquiry (search_of said.now) said.now.local said.now.timeout) said.now.stations
        (pipes sockets.old (I.remaining input.old) (O.contents output.old)) result
        (pipes sockets.new (I.remaining input.new) (O.contents output.new)) }
{
    let search = search_of(said);
    let local = said.local;
    let timeout = said.timeout;
    match &said.stations {
        Stations::Listed(addresses) => {
            search_for(sockets, alloc, addresses, &search, local, timeout, output)
        }
        Stations::Input => match listed_addresses(alloc, input) {
            Ok(addresses) => {
                search_for(sockets, alloc, &addresses, &search, local, timeout, output)
            }
            Err(fault) => Err(Fault::List(fault)),
        },
    }
}
