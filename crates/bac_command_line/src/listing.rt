//! Addresses that stand in lines, one or a network in each.

ghost use Rattle.std.specs.Prelude.{◌≡◌, ◌==◌, [], map, option_map, IfOk};
ghost use Rattle.std.specs.List.{slice_split};
ghost use Rattle.std.specs.Str.Lines.{strip_carriage_return};
ghost use Rattle.bac_command_line.specs.Networks.{said_stations};
ghost use Rattle.bac_command_line.specs.Listing.{IsListed, Lists, addresses_of};
ghost use Rattle.bac_command_line.specs.Listing.{listed as listed_in};
ghost use Rattle.bac_command_line.specs.Listing.{said_in, with_said};

use crate::addresses::Addresses;
use crate::network::stations;
use crate::said::Said;
use bac_wire::Address;
use std::alloc::{AllocError, Global};

/// How many addresses a list has at most: as many datagrams `bac wi` takes.
pub const MOST_LISTED: usize = 4096;

/// Why a list of addresses isn't one.
#[derive(Clone, Copy, Debug, PartialEq, Eq)]
pub enum ListFault {
    /// This line, counted from 1, is no address.
    BadLine(usize),
    /// With this line there are more addresses than a list may have.
    TooMany(usize),
    /// There is no address.
    Empty,
    /// There are more octets than whoever reads the list takes.
    TooLong,
    /// The list couldn't be read.
    Read,
    /// Out of memory.
    Memory,
}

/// The parts of a text between its line feeds.
pub(crate) fn parts(alloc: Global, text: &[u8]) -> Result<Vec<&[u8]>, AllocError>
    ensures { IfOk result
        (λ parts. map (λ part. part.now) parts.items ≡ slice_split (λ c. c == 10) text.now) }
{
    text.split(|c| *c == b'\n').collect(alloc)
}

/// The line less one carriage return at its end.
pub(crate) fn without_return(line: &[u8]) -> &[u8]
    ensures { result.now ≡ strip_carriage_return line.now }
{
    match line {
        [front @ .., b'\r'] => front,
        _ => line,
    }
}

/// What a line says: stations, or nothing, if it is empty or begins with `#`.
fn said(line: &[u8]) -> Option<Said>
    ensures { option_map said_stations result ≡ said_in line.now }
{
    if line.is_empty() || line[0] == b'#' {
        return Some(Said::Nothing);
    }
    stations(line)
}

/// Adds what a line with this number says.
fn add_line(list: &mut Vec<Address>, number: usize, line: &[u8]) -> Result<(), ListFault>
    ensures { IsListed (with_said list.old.items number (said_in line.now)) result list.new.items }
{
    let Some(said) = said(line) else {
        return Err(ListFault::BadLine(number));
    };
    if said.push_to(list).is_err() {
        return Err(ListFault::Memory);
    }
    if list.len() > MOST_LISTED {
        return Err(ListFault::TooMany(number));
    }
    Ok(())
}

/// The addresses of these lines.
fn listed(alloc: Global, lines: &[&[u8]]) -> Result<Addresses, ListFault>
    ensures { Lists (listed_in [] 1 (map (λ line. line.now) lines.now)) result }
{
    let mut list = Vec::new(alloc);
    let mut number = 1;
    for line in lines {
        add_line(&mut list, number, without_return(line))?;
        number += 1;
    }
    if list.is_empty() {
        return Err(ListFault::Empty);
    }
    Ok(Addresses::of(list))
}

/// The addresses of the lines of a text, one or a network in each. A line ends with a line feed,
/// before which a carriage return may stand; empty lines and those that begin with `#` are passed
/// over. It is the first line that is neither, or that goes beyond 4,096 addresses, which is told.
pub fn read_addresses(alloc: Global, text: &[u8]) -> Result<Addresses, ListFault>
    ensures { Lists (addresses_of text.now) result }
{
    let Ok(lines) = parts(alloc, text) else {
        return Err(ListFault::Memory);
    };
    listed(alloc, &lines)
}
