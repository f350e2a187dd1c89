//! A router rejects a message since it has no route to the network that it is for:
//! Reject-Message-To-Network (clause 6.4.4).

ghost use Rattle.std.specs.Prelude.{◌≡◌};
ghost use Rattle.bac_apdu.specs.Npdu.{header_of, maybe_place_of};
ghost use Rattle.bac_answers.specs.Rejects.{if_towards, is_message, is_towards};
ghost use Rattle.bac_answers.specs.Rejects.{reject_by, reject_from, reject_in};

use crate::way::{Way, is_for_all};
use bac_apdu::{Far, Frame, Npdu, read_frame, read_npdu};
use bac_wire::Address;

/// The type of the message.
const REJECT_MESSAGE_TO_NETWORK: u8 = 3;

/// The reason of a router that finds no route to the network. It alone is heeded, since it is true
/// of each device of that network. Every other one, such as a wrong address or a message that is
/// too long, may speak of one device alone, and the message doesn't say of which.
const NO_ROUTE: u8 = 1;

/// The router has no route to this network.
#[derive(Clone, Copy, Debug, PartialEq, Eq)]
pub struct NoRoute {
    pub network: u16,
}

impl Way {
    // The rejection that an NPDU is, of messages to its place.
    #[tactic(auto, unfolding(crate::specs::Rejects::reject_from))]
    fn reject_from(&self, npdu: &[u8]) -> Option<NoRoute>
        ensures { result ≡ reject_from self.now.route npdu.now }
    {
        let (header, octets) = read_npdu(npdu)?;
        if !is_message(&header) {
            return None;
        }
        let reject = reject_in(octets)?;
        if_towards(self.dest(), reject)
    }

    /// The rejection that a datagram from this sender is, of what is asked of the device: the
    /// router that it is behind has no route to its network.
    pub fn reject(&self, from: Address, datagram: &[u8]) -> Option<NoRoute>
        ensures { result ≡ reject_by self.now from datagram.now }
    {
        match read_frame(datagram) {
            Some(Frame::Unicast(npdu)) => {
                if from == self.peer {
                    self.reject_from(npdu)
                } else {
                    None
                }
            }
            Some(Frame::Broadcast(_)) => None,
            Some(Frame::Forwarded(_, _)) => None,
            Some(Frame::Function(_, _)) => None,
            None => None,
        }
    }
}

// A message of the network layer, by its octets.
fn reject_in(octets: &[u8]) -> Option<NoRoute>
    ensures { result ≡ reject_in octets.now }
{
    match octets {
        [REJECT_MESSAGE_TO_NETWORK, NO_ROUTE, high, low] => Some(NoRoute {
            network: u16::from(*high) * 256 + u16::from(*low),
        }),
        _ => None,
    }
}

// Whether messages to a place are for the network.
fn is_towards(place: Option<Far>, reject: NoRoute) -> bool
    ensures { result ≡ is_towards (maybe_place_of place.entry) reject }
{
    match place {
        Some(far) => far.net == reject.network,
        None => false,
    }
}

// Then it is heeded.
fn if_towards(place: Option<Far>, reject: NoRoute) -> Option<NoRoute>
    ensures { result ≡ if_towards (maybe_place_of place.entry) reject }
{
    if is_towards(place, reject) {
        Some(reject)
    } else {
        None
    }
}

// Whether what follows a header is a message of the network layer to no other network.
fn is_message(header: &Npdu) -> bool
    ensures { result ≡ is_message (header_of header.now) }
{
    header.network && is_for_all(header.dest)
}
