//! What a device does with a datagram.

ghost use Rattle.std.specs.Prelude.{◌≡◌, [], is_some};
ghost use Rattle.bac_apdu.specs.Apdu.{apdu_of};
ghost use Rattle.bac_objects.specs.Sound.{IsSound};
ghost use Rattle.bac_device.specs.Answer.{answer, answer_apdu, answer_npdu};
ghost use Rattle.bac_device.specs.Answer.{answer_request, nak};
ghost use Rattle.bac_device.specs.Receiving.{heard_at};
ghost use Rattle.bac_device.specs.Reply.{datagram_octets, receiver_of, reply_octets, said_octets};

use crate::device::Device;
use crate::receiving::{heard_at, nak_code};
use crate::reply::{Receiver, Reply, abort, nak_with, reject, send_back};
use bac_apdu::choice::{READ_PROPERTY, READ_RANGE, WHO_IS, WRITE_PROPERTY};
use bac_apdu::{Apdu, Frame, read_frame};
use bac_wire::Datagram;

/// The reason that a service isn't there (clause 21, BACnetRejectReason).
const UNRECOGNIZED_SERVICE: u8 = 9;

impl Device {
    /// The answer to a confirmed request, in place of what `out` holds, and what the device is
    /// after it.
    fn answer_request(
        &mut self,
        out: &mut Datagram,
        segmented: bool,
        size: u16,
        invoke: u8,
        service: u8,
        parameters: &[u8],
    )
        ensures apdu { out.new ≡ datagram_octets
            (answer_request self.old segmented size invoke service parameters.now).0 }
        ensures state { self.new
            ≡ (answer_request self.old segmented size invoke service parameters.now).1 }
    {
        if segmented {
            return abort(out, invoke);
        }
        let limit = size.min(self.database.reply_size());
        match service {
            READ_PROPERTY => self.answer_read(out, limit, invoke, parameters),
            WRITE_PROPERTY => self.answer_write(out, invoke, parameters),
            READ_RANGE => self.answer_range(out, limit, invoke, parameters),
            _ => reject(out, invoke, UNRECOGNIZED_SERVICE),
        }
    }

    /// The answer to an APDU, whether there is one, and what the device is after it.
    fn answer_apdu(&mut self, out: &mut Datagram, to_all: bool, apdu: &Apdu) -> bool
        requires { out.old ≡ [] }
        ensures answered { result ≡ is_some (answer_apdu self.old to_all (apdu_of apdu.now)).0 }
        ensures apdu { out.new ≡ said_octets (answer_apdu self.old to_all (apdu_of apdu.now)).0 }
        ensures state { self.new ≡ (answer_apdu self.old to_all (apdu_of apdu.now)).1 }
    {
        match *apdu {
            Apdu::Confirmed {
                segmented,
                max_response,
                invoke,
                service,
                parameters,
            } => {
                if to_all {
                    return false;
                }
                self.answer_request(out, segmented, max_response, invoke, service, parameters);
                true
            }
            Apdu::Unconfirmed {
                service,
                parameters,
            } => {
                if service == WHO_IS {
                    self.answer_who_is(out, parameters)
                } else {
                    false
                }
            }
            Apdu::Simple { .. } => false,
            Apdu::Complex { .. } => false,
            Apdu::SegmentAck { .. } => false,
            Apdu::Error { .. } => false,
            Apdu::Reject { .. } => false,
            Apdu::Abort { .. } => false,
        }
    }

    /// The reply to an NPDU, who gets it, and what the device is after it.
    #[tactic(auto, using(crate::proofs::Replies::sent_nobody, crate::proofs::Replies::sent_to))]
    fn answer_npdu(
        &mut self,
        out: &mut Datagram,
        to_all: bool,
        to: Receiver,
        npdu: &[u8],
    ) -> Option<Receiver>
        requires { out.old ≡ [] }
        ensures receiver { result
            ≡ receiver_of (answer_npdu self.old to (heard_at to_all npdu.now)).0 }
        ensures octets { out.new
            ≡ reply_octets (answer_npdu self.old to (heard_at to_all npdu.now)).0 }
        ensures state { self.new ≡ (answer_npdu self.old to (heard_at to_all npdu.now)).1 }
    {
        // For the prover alone: it tells that the reply size is one that a device can have.
        let _ = self.database.reply_size();
        match heard_at(to_all, npdu) {
            Some(heard) => {
                if self.answer_apdu(out, heard.to_all, &heard.apdu) {
                    send_back(out, heard.source);
                    Some(to)
                } else {
                    None
                }
            }
            None => None,
        }
    }

    /// Takes a datagram, and gives the reply if there is one. Only an accepted WriteProperty
    /// changes the device.
    #[tactic(auto, using(crate::proofs::Replies::no_reply, crate::proofs::Replies::reply_is))]
    pub fn handle(&mut self, datagram: &[u8]) -> Option<Reply>
        ensures reply { result ≡ (answer self.old datagram.now).0 }
        ensures state { self.new ≡ (answer self.old datagram.now).1 }
        ensures was_sound { IsSound self.old }
        ensures sound { IsSound self.new }
    {
        let mut octets = Datagram::new();
        match self.answer_into(datagram, &mut octets) {
            Some(to) => Some(Reply {
                datagram: octets,
                to,
            }),
            None => None,
        }
    }

    /// Takes a datagram as [`handle`](Device::handle) does, and writes the octets of the reply into
    /// `out` in place of what it holds: none if there is no reply. Answers who gets it.
    pub fn answer_into(&mut self, datagram: &[u8], out: &mut Datagram) -> Option<Receiver>
        ensures receiver { result ≡ receiver_of (answer self.old datagram.now).0 }
        ensures octets { out.new ≡ reply_octets (answer self.old datagram.now).0 }
        ensures state { self.new ≡ (answer self.old datagram.now).1 }
        ensures was_sound { IsSound self.old }
        ensures sound { IsSound self.new }
    {
        // For the prover alone, here and at the end: a database that is looked at is sound.
        let _ = &self.database;
        out.cut(0);
        let to = self.answer(out, datagram);
        let _ = &self.database;
        to
    }

    /// The reply to a datagram, if there is one, and who gets it.
    #[tactic(auto, unfolding(crate::specs::Answer::answer))]
    fn answer(&mut self, out: &mut Datagram, datagram: &[u8]) -> Option<Receiver>
        requires { out.old ≡ [] }
        ensures receiver { result ≡ receiver_of (answer self.old datagram.now).0 }
        ensures octets { out.new ≡ reply_octets (answer self.old datagram.now).0 }
        ensures state { self.new ≡ (answer self.old datagram.now).1 }
    {
        match read_frame(datagram) {
            Some(Frame::Unicast(npdu)) => self.answer_npdu(out, false, Receiver::Sender, npdu),
            Some(Frame::Broadcast(npdu)) => self.answer_npdu(out, true, Receiver::Sender, npdu),
            Some(Frame::Forwarded(address, npdu)) => {
                self.answer_npdu(out, true, Receiver::Address(address), npdu)
            }
            Some(Frame::Function(function, _)) => refuse(out, function),
            None => None,
        }
    }
}

/// The reply to a function that a device refuses, and who gets it.
fn refuse(out: &mut Datagram, function: u8) -> Option<Receiver>
    requires { out.old ≡ [] }
    ensures receiver { result ≡ receiver_of (nak function) }
    ensures octets { out.new ≡ reply_octets (nak function) }
{
    match nak_code(function) {
        Some(code) => {
            nak_with(out, code);
            Some(Receiver::Sender)
        }
        None => None,
    }
}
