//! The invoke IDs of what is asked over a port.

ghost use Rattle.std.specs.Prelude.{◌≡◌, ◌≤◌, IfSome, Some, length, slice_set};
ghost use Rattle.bac_wire.specs.OptionChain.{GivesSome};
ghost use Rattle.bac_apdu.specs.Apdu.{apdu_of};
ghost use Rattle.bac_invoke_ids.specs.Ids.{asked, id_in, placed_in, question_in, sent_by, taken};
ghost use Rattle.bac_invoke_ids.specs.Ids.{told};
ghost use Rattle.bac_invoke_ids.specs.Onward.{after, behind, later, shift_of};

use bac_apdu::{Apdu, Frame, read_apdu, read_frame, read_npdu};
use bac_wire::Datagram;

/// How many octets a datagram of BACnet/IP has at most (Annex J): an NPDU of 1497, and four.
const MOST: usize = 1501;

/// An invoke ID in a datagram.
#[derive(Clone, Copy, Debug, PartialEq, Eq)]
pub struct InvokeId {
    /// The place of its octet, counted from 0.
    pub at: usize,
    pub id: u8,
}

/// Where the APDU begins that a frame to one device carries, and the APDU.
#[tactic(auto, unfolding(crate::specs::Ids::placed_in, bac_link::specs::Datagrams::carried_in))]
fn placed_in(bytes: &[u8]) -> Option<(usize, Apdu)>
    ensures placed { GivesSome (λ x. (x.0, apdu_of x.1)) result (placed_in bytes.now) }
    ensures within { IfSome result (λ x. x.0 ≤ length bytes.now) }
{
    let Some(Frame::Unicast(npdu)) = read_frame(bytes) else {
        return None;
    };
    let (header, octets) = read_npdu(npdu)?;
    if header.network {
        return None;
    }
    let apdu = read_apdu(octets)?;
    Some((bytes.len().saturating_sub(octets.len()), apdu))
}

/// The invoke ID of a confirmed request, which is the third octet of its APDU (clause 20.1.2).
#[tactic(auto, unfolding(crate::specs::Ids::id_in))]
fn asked_in(bytes: &[u8]) -> Option<InvokeId>
    ensures { result ≡ id_in asked bytes.now }
{
    let (start, apdu) = placed_in(bytes)?;
    match apdu {
        Apdu::Confirmed { invoke, .. } => Some(InvokeId {
            at: start + 2,
            id: invoke,
        }),
        _ => None,
    }
}

/// The invoke ID of an answer, which is the second octet of its APDU (clauses 20.1.4 to 20.1.9).
#[tactic(auto, unfolding(crate::specs::Ids::id_in))]
fn told_in(bytes: &[u8]) -> Option<InvokeId>
    ensures { result ≡ id_in told bytes.now }
{
    let (start, apdu) = placed_in(bytes)?;
    let id = match apdu {
        Apdu::Simple { invoke, .. }
        | Apdu::Complex { invoke, .. }
        | Apdu::SegmentAck { invoke }
        | Apdu::Error { invoke, .. }
        | Apdu::Reject { invoke, .. }
        | Apdu::Abort { invoke, .. } => invoke,
        Apdu::Confirmed { .. } | Apdu::Unconfirmed { .. } => return None,
    };
    Some(InvokeId { at: start + 1, id })
}

/// The same datagram with another octet at a place, if it has that place.
fn put(datagram: &mut Datagram, at: usize, octet: u8)
    ensures { datagram.new ≡ slice_set datagram.old at octet }
{
    if at < datagram.octets().len() {
        datagram.set(at, octet);
    }
}

/// The invoke ID of a question, which is a datagram.
pub(crate) fn question_in(octets: &[u8]) -> Option<InvokeId>
    ensures { result ≡ question_in octets.now }
{
    if octets.len() > MOST {
        None
    } else {
        asked_in(octets)
    }
}

/// The question with this ID, which is so much greater then.
pub(crate) fn sent_by(octets: &[u8], id: InvokeId, shift: u8) -> Datagram
    requires { Some id ≡ question_in octets.now }
    ensures { result ≡ sent_by shift octets.now }
{
    let Some(mut datagram) = Datagram::of(octets) else {
        unreachable!()
    };
    put(&mut datagram, id.at, id.id.wrapping_add(shift));
    datagram
}

/// The last of two invoke IDs. Of several devices that are asked over one port some are behind
/// others, by 127 questions at most: what is half of all IDs ahead or more is behind.
fn later(last: u8, sent: u8) -> u8
    ensures { result ≡ later last sent }
{
    if sent.wrapping_sub(last) < 128 {
        sent
    } else {
        last
    }
}

/// The invoke IDs of the questions over a port: they go on behind those over the port that was
/// closed before.
#[derive(Clone, Copy, Debug, PartialEq, Eq)]
pub struct Ids {
    /// That of the last question.
    last: u8,
    /// By how much those over the port are moved, once one was sent.
    shift: Option<u8>,
}

impl Ids {
    /// Nothing was asked yet over the port, behind a question with this ID.
    pub(crate) fn behind(last: u8) -> Ids
        ensures { result ≡ behind last }
    {
        Ids { last, shift: None }
    }

    /// That of the last question.
    pub(crate) fn last(&self) -> u8
        ensures { result ≡ self.now.last }
    {
        self.last
    }

    /// By how much the ID of a question is moved.
    fn shift_of(&self, id: u8) -> u8
        ensures { result ≡ shift_of self.now id }
    {
        match self.shift {
            Some(shift) => shift,
            None => self.last.wrapping_add(1).wrapping_sub(id),
        }
    }

    /// Goes on behind a question with this ID: by how much it is moved.
    pub(crate) fn ask(&mut self, id: u8) -> u8
        ensures shift { result ≡ shift_of self.old id }
        ensures after { self.new ≡ after self.old id }
    {
        let shift = self.shift_of(id);
        self.shift = Some(shift);
        self.last = later(self.last, id.wrapping_add(shift));
        shift
    }

    /// The answer that came, with the ID of what was asked.
    pub(crate) fn take(&self, datagram: &mut Datagram)
        ensures { datagram.new ≡ taken self.now.shift datagram.old }
    {
        let Some(shift) = self.shift else {
            return;
        };
        if let Some(id) = told_in(datagram.octets()) {
            put(datagram, id.at, id.id.wrapping_sub(shift));
        }
    }
}
