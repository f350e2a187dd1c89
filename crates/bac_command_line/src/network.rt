//! The stations of a word: an address, or those of the IP network that it lies in.

ghost use Rattle.std.specs.Prelude.{◌≡◌, ◌+◌, ◌≤◌, ◌<◌, ◌^◌, ◌++◌, OnOk, option_map};
ghost use Rattle.bac_command_line.specs.Networks.{base_of, host_of, hosts_from, hosts_in};
ghost use Rattle.bac_command_line.specs.Networks.{said_stations};
ghost use Rattle.bac_command_line.specs.Networks.{size_of, stations_of, with_host};

use crate::address::{address, cut};
use crate::numbers::octet;
use crate::said::{Hosts, Said};
use bac_wire::Address;
use std::alloc::AllocError;

/// The host of an address as one number.
fn host_of(address: Address) -> u32
    ensures { result ≡ host_of address }
{
    u32::from(address[0]) * 0x100_0000
        + u32::from(address[1]) * 0x1_0000
        + u32::from(address[2]) * 0x100
        + u32::from(address[3])
}

/// The address with this host in place of its own.
fn with_host(address: Address, host: u32) -> Address
    ensures { result ≡ with_host address host }
{
    let [a, b, c, d] = host.to_be_bytes();
    [a, b, c, d, address[4], address[5]]
}

/// How many addresses a network has whose addresses agree in so many bits.
fn size_of(bits: u8) -> u32
    requires low { 20 ≤ bits }
    requires high { bits ≤ 32 }
    ensures value { result ≡ size_of bits }
    ensures some { 0 < result }
    ensures within { result ≤ 4096 }
{
    1 << (32 - bits)
}

/// The first address of the network of this size that a host lies in.
fn base_of(host: u32, bits: u8, size: u32) -> u32
    requires low { 20 ≤ bits }
    requires high { bits ≤ 32 }
    requires size { size ≡ size_of bits }
    ensures value { result ≡ base_of host size }
    ensures room { result + size ≤ 2 ^ 32 }
{
    host / size * size
}

/// The hosts of the network whose addresses agree in so many bits with this one.
fn hosts_in(address: Address, bits: u8) -> Hosts
    requires low { 20 ≤ bits }
    requires high { bits ≤ 32 }
    ensures { hosts_from result.address result.first result.count
        ≡ hosts_in address (size_of bits) }
{
    let size = size_of(bits);
    let base = base_of(host_of(address), bits, size);
    if size > 2 {
        let first = base + 1;
        let count = size - 2;
        return Hosts {
            address,
            first,
            count,
        };
    }
    Hosts {
        address,
        first: base,
        count: size,
    }
}

impl Hosts {
    /// Appends each of them.
    fn push_to(&self, list: &mut Vec<Address>) -> Result<(), AllocError>
        ensures { OnOk result (list.new.items
            ≡ list.old.items ++ hosts_from self.now.address self.now.first self.now.count) }
    {
        for k in 0..self.count {
            list.push(with_host(self.address, self.first + k))?;
        }
        Ok(())
    }
}

/// The stations that a word says.
#[tactic(auto, unfolding(crate::specs::Networks::stations_of, crate::specs::Numbers::number_in))]
pub(crate) fn stations(word: &[u8]) -> Option<Said>
    ensures { option_map said_stations result ≡ stations_of word.now }
{
    let Some((word, bits)) = cut(word, b'/') else {
        return Some(Said::Station(address(word)?));
    };
    let address = address(word)?;
    let bits = octet(bits, 20, 32)?;
    Some(Said::Network(hosts_in(address, bits)))
}

impl Said {
    /// Appends the stations that were said.
    pub fn push_to(&self, list: &mut Vec<Address>) -> Result<(), AllocError>
        ensures { OnOk result (list.new.items ≡ list.old.items ++ said_stations self.now) }
    {
        match self {
            Said::Nothing => Ok(()),
            Said::Station(address) => list.push(*address).map_err(AllocError::from),
            Said::Network(hosts) => hosts.push_to(list),
        }
    }
}
