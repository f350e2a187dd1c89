//! Where a device is asked, and how it is asked who it is: a Who-Is to it alone, and the I-Am that
//! answers it (clause 16.10).

ghost use Rattle.std.specs.Prelude.{◌≡◌};
ghost use Rattle.bac_apdu.specs.Apdu.{apdu_of};
ghost use Rattle.bac_apdu.specs.Npdu.{header_of, maybe_place_of};
ghost use Rattle.bac_apdu.specs.Route.{IsWay};
ghost use Rattle.bac_link.specs.Path.{same_place};
ghost use Rattle.bac_link.specs.Requests.{hops_to};
ghost use Rattle.bac_answers.specs.Way.{device_by, device_from, device_in, i_am_by, is_for_all};
ghost use Rattle.bac_answers.specs.Way.{is_from, who_is_octets};

use crate::who::own_device;
use bac_apdu::choice::{I_AM, WHO_IS};
use bac_apdu::{
    Apdu, Far, Frame, IAm, Npdu, Route, read_apdu, read_frame, read_npdu, write_datagram,
};
use bac_wire::{Address, Datagram, ObjectId};

/// The first octet of an Unconfirmed-Request (clause 20.1.3).
const UNCONFIRMED_REQUEST: u8 = 0x10;

/// How many routers a request may pass (clause 6.2.3).
const MOST_HOPS: u8 = 255;

/// The network number that stands for all networks (clause 6.2.2).
const ALL_NETWORKS: u16 = 0xffff;

/// Where a device is asked.
#[derive(Debug, Drop)]
pub struct Way {
    /// Four octets of IPv4 address and two of port, high octet first (Annex J.1.2): the device's,
    /// or those of the router which it is behind.
    pub peer: Address,
    /// Its place behind that router.
    pub route: Option<Route>,
}

impl Way {
    /// Its place, as a network header has it.
    pub(crate) fn dest(&self) -> Option<Far>
        ensures value { maybe_place_of result ≡ self.now.route }
        ensures way { IsWay self.now.route }
    {
        match &self.route {
            Some(route) => Some(route.far()),
            None => None,
        }
    }

    /// A Who-Is to it alone, without limits, as a datagram for the peer.
    #[tactic(auto, unfolding(crate::specs::Way::who_is_octets))]
    pub fn who_is(&self) -> Datagram
        ensures { result ≡ who_is_octets self.now.route }
    {
        let dest = self.dest();
        let npdu = Npdu {
            network: false,
            reply: false,
            priority: 0,
            dest,
            source: None,
            hops: hops_to(dest),
        };
        let mut datagram = Datagram::new();
        write_datagram(&mut datagram, &npdu, &[UNCONFIRMED_REQUEST, WHO_IS]).unwrap();
        datagram
    }

    // The device that an NPDU announces, if it comes from its place.
    #[tactic(auto, unfolding(crate::specs::Way::device_from))]
    fn device_from(&self, npdu: &[u8]) -> Option<ObjectId>
        ensures { result ≡ device_from self.now.route npdu.now }
    {
        let (header, octets) = read_npdu(npdu)?;
        if !is_from(self.dest(), &header) {
            return None;
        }
        let apdu = read_apdu(octets)?;
        device_in(&apdu)
    }

    // The same, if it comes by this address.
    fn device_by(&self, address: Address, npdu: &[u8]) -> Option<ObjectId>
        ensures { result ≡ device_by self.now address npdu.now }
    {
        if address == self.peer {
            self.device_from(npdu)
        } else {
            None
        }
    }

    /// The Device object of the I-Am that a datagram from this sender is, if it comes from that
    /// device: another one behind the same router isn't it. A Forwarded-NPDU comes from the address
    /// that it tells.
    pub fn i_am(&self, from: Address, datagram: &[u8]) -> Option<ObjectId>
        ensures { result ≡ i_am_by self.now from datagram.now }
    {
        let device = match read_frame(datagram) {
            Some(Frame::Unicast(npdu)) => self.device_by(from, npdu),
            Some(Frame::Broadcast(npdu)) => self.device_by(from, npdu),
            Some(Frame::Forwarded(address, npdu)) => self.device_by(address, npdu),
            Some(Frame::Function(_, _)) => None,
            None => None,
        };
        own_device(device)
    }
}

// How many routers a request to a place may pass.
fn hops_to(dest: Option<Far>) -> u8
    ensures { result ≡ hops_to (maybe_place_of dest.entry) }
{
    match dest {
        Some(_) => MOST_HOPS,
        None => 0,
    }
}

// Whether two headers name the same place, or none.
fn is_same_place(a: Option<Far>, b: Option<Far>) -> bool
    ensures { result ≡ same_place (maybe_place_of a.entry) (maybe_place_of b.entry) }
{
    match (a, b) {
        (Some(a), Some(b)) => a.net == b.net && a.address == b.address,
        (None, None) => true,
        _ => false,
    }
}

/// Whether a message has come to its network, or goes to all.
pub(crate) fn is_for_all(dest: Option<Far>) -> bool
    ensures { result ≡ is_for_all (maybe_place_of dest.entry) }
{
    match dest {
        Some(far) => far.net == ALL_NETWORKS,
        None => true,
    }
}

// Whether what follows a header is an APDU from this place.
fn is_from(place: Option<Far>, header: &Npdu) -> bool
    ensures { result ≡ is_from (maybe_place_of place.entry) (header_of header.now) }
{
    !header.network && is_for_all(header.dest) && is_same_place(place, header.source)
}

// The device of an I-Am.
fn device_in(apdu: &Apdu) -> Option<ObjectId>
    ensures { result ≡ device_in (apdu_of apdu.now) }
{
    match apdu {
        Apdu::Unconfirmed {
            service: I_AM,
            parameters,
        } => match IAm::read(parameters) {
            Some(said) => Some(said.device),
            None => None,
        },
        _ => None,
    }
}
