//! What a datagram is, for one who waits for another.

ghost use Rattle.std.specs.Prelude.{◌≡◌};
ghost use Rattle.bac_apdu.specs.Apdu.{apdu_at};
ghost use Rattle.bac_apdu.specs.Frame.{frame_at};
ghost use Rattle.bac_apdu.specs.Npdu.{header_at};
ghost use Rattle.bac_socket_notes.specs.Contents.{apdu_content, frame_content};
ghost use Rattle.bac_socket_notes.specs.Contents.{message_content, npdu_content, result_content};
ghost use Rattle.bac_socket_notes.specs.Contents.{stray_of};

use bac_apdu::{Apdu, Frame, read_apdu, read_frame, read_npdu};
use bac_ports::Heard;
use bac_wire::Address;

/// What a datagram is.
#[derive(Clone, Copy, Debug, PartialEq, Eq)]
pub enum Content {
    /// A router's Reject-Message-To-Network (clause 6.4.4): its reason, and the network.
    Rejected { reason: u8, network: u16 },
    /// Another message of the network layer (clause 6.4), and its type.
    Message(u8),
    /// A BVLC-Result (Annex J.2.1), and its code.
    Bvlc(u16),
    /// A request that wants an answer.
    Confirmed,
    /// A request that wants none, and its service: 0 is I-Am.
    Unconfirmed(u8),
    /// An answer to a confirmed request, or a part of one.
    Answer,
    /// It has over 1501 octets, and was dropped.
    TooLong,
    /// None of these, or it can't be read.
    Unread,
}

/// A datagram that came, and isn't kept: its sender and what it is.
#[derive(Clone, Copy, Debug, PartialEq, Eq)]
pub struct Stray {
    /// Four octets of IPv4 address and two of port, high octet first.
    pub from: Address,
    pub content: Content,
}

impl Stray {
    /// What is remembered of a datagram.
    pub(crate) fn of(heard: &Heard) -> Stray
        ensures { result ≡ stray_of heard.now }
    {
        let content = match &heard.datagram {
            Some(datagram) => datagram_content(datagram.octets()),
            None => Content::TooLong,
        };
        Stray {
            from: heard.from,
            content,
        }
    }
}

/// What a whole datagram is.
fn datagram_content(octets: &[u8]) -> Content
    ensures { result ≡ frame_content (frame_at octets.now) }
{
    match read_frame(octets) {
        Some(Frame::Unicast(npdu)) => npdu_content(npdu),
        Some(Frame::Broadcast(npdu)) => npdu_content(npdu),
        Some(Frame::Forwarded(_, npdu)) => npdu_content(npdu),
        Some(Frame::Function(0, body)) => result_content(body),
        Some(Frame::Function(_, _)) => Content::Unread,
        None => Content::Unread,
    }
}

/// What a network header and what follows it are.
fn npdu_content(npdu: &[u8]) -> Content
    ensures { result ≡ npdu_content (header_at npdu.now) }
{
    match read_npdu(npdu) {
        Some((header, rest)) if header.network => message_content(rest),
        Some((_, rest)) => apdu_content(rest),
        None => Content::Unread,
    }
}

/// What a message of the network layer is.
fn message_content(octets: &[u8]) -> Content
    ensures { result ≡ message_content octets.now }
{
    match octets {
        [3, reason, high, low] => Content::Rejected {
            reason: *reason,
            network: u16::from(*high) * 256 + u16::from(*low),
        },
        [message, ..] => Content::Message(*message),
        [] => Content::Unread,
    }
}

/// What an APDU is.
fn apdu_content(octets: &[u8]) -> Content
    ensures { result ≡ apdu_content (apdu_at octets.now) }
{
    match read_apdu(octets) {
        Some(Apdu::Confirmed { .. }) => Content::Confirmed,
        Some(Apdu::Unconfirmed { service, .. }) => Content::Unconfirmed(service),
        Some(_) => Content::Answer,
        None => Content::Unread,
    }
}

/// What a BVLC-Result tells behind its head.
fn result_content(body: &[u8]) -> Content
    ensures { result ≡ result_content body.now }
{
    match body {
        [high, low] => Content::Bvlc(u16::from(*high) * 256 + u16::from(*low)),
        _ => Content::Unread,
    }
}
