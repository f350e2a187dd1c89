//! Datagrams that announce a device: an I-Am (clause 16.10) in a frame to one device or to all.

ghost use Rattle.std.specs.Prelude.{◌≡◌};
ghost use Rattle.bac_apdu.specs.Npdu.{header_of};
ghost use Rattle.bac_wire.specs.OptionChain.{GivesSome};
ghost use Rattle.bac_query.specs.Announcements.{announced as announced_by, announced_at};
ghost use Rattle.bac_query.specs.Announcements.{announced_in, announcement_of, is_heard};

use bac_apdu::choice::I_AM;
use bac_apdu::{Apdu, Far, Frame, IAm, Npdu, read_apdu, read_frame, read_npdu};
use bac_ports::Heard;
use bac_wire::Address;

/// The network number that stands for all networks (clause 6.2.2).
const ALL_NETWORKS: u16 = 0xffff;

/// What a device says of itself, and where it is.
#[derive(Clone, Copy)]
pub(crate) struct Announcement<'a> {
    /// Four octets of IPv4 address and two of port, high octet first (Annex J.1.2): the device's,
    /// or that of the router which it is behind.
    pub(crate) address: Address,
    /// Its place behind a router (SNET and SADR).
    pub(crate) source: Option<Far<'a>>,
    pub(crate) i_am: IAm,
}

/// Whether what stands after a header is for us (clause 6): no network message, and for no other
/// network.
fn is_heard(header: &Npdu) -> bool
    ensures { result ≡ is_heard (header_of header.now) }
{
    let for_all = match header.dest {
        Some(far) => far.net == ALL_NETWORKS,
        None => true,
    };
    !header.network && for_all
}

/// What an NPDU from this address announces.
#[tactic(auto, unfolding(crate::specs::Announcements::announced_at))]
fn announced_at(address: Address, npdu: &[u8]) -> Option<Announcement>
    ensures { GivesSome announcement_of result (announced_at address npdu.now) }
{
    let (header, apdu) = read_npdu(npdu)?;
    if !is_heard(&header) {
        return None;
    }
    match read_apdu(apdu)? {
        Apdu::Unconfirmed {
            service: I_AM,
            parameters,
        } => {
            let i_am = IAm::read(parameters)?;
            Some(Announcement {
                address,
                source: header.source,
                i_am,
            })
        }
        _ => None,
    }
}

/// What a datagram from this sender announces. A Forwarded-NPDU has the address of the device.
fn announced_in(sender: Address, datagram: &[u8]) -> Option<Announcement>
    ensures { GivesSome announcement_of result (announced_in sender datagram.now) }
{
    match read_frame(datagram)? {
        Frame::Unicast(npdu) => announced_at(sender, npdu),
        Frame::Broadcast(npdu) => announced_at(sender, npdu),
        Frame::Forwarded(address, npdu) => announced_at(address, npdu),
        Frame::Function(_, _) => None,
    }
}

/// The device that announces itself in what came, if one does.
pub(crate) fn announced(heard: &Heard) -> Option<Announcement>
    ensures { GivesSome announcement_of result (announced_by heard.now) }
{
    match &heard.datagram {
        Some(datagram) => announced_in(heard.from, datagram.octets()),
        None => None,
    }
}
