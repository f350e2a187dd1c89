//! A caller of all layers that sees their public contracts alone: a question for records and an
//! answer with two values go through frame, network header, APDU and service, and come back.

ghost use Rattle.std.specs.Prelude.{◌≡◌, ◌<◌, ◌≤◌, ◌^◌, ℕ, Bool, length, Some, true, false};
ghost use Rattle.bac_wire.specs.Canon.{IsValid};
ghost use Rattle.bac_wire.specs.OptionChain.{GivesSome};
ghost use Rattle.bac_wire.specs.Primitive.{Id, Primitive, Object};
ghost use Rattle.bac_apdu.specs.Apdu.{Apdu as ApduValue, IsApdu, apdu_of, apdu_octets};
ghost use Rattle.bac_apdu.specs.Frame.{frame_of};
ghost use Rattle.bac_apdu.specs.Service.Extent.{IsExtent};
ghost use Rattle.bac_apdu.specs.Service.ReadProperty.{IsProperty};
ghost use Rattle.bac_apdu.specs.declared.service.read_range.ReadRange.{ReadRange as Question};
ghost use Rattle.bac_encoding_tests.specs.Passage.{datagram_with, npdu_in, apdu_in, question};
ghost use Rattle.bac_encoding_tests.specs.Passage.{question_of, question_in, answer, answer_in};

use bac_apdu::{
    Apdu, Extent, Frame, Npdu, ReadPropertyAck, ReadRange, apdu_is_read, choice, frame_is_read,
    frames_have_a_size, header_is_read, read_apdu, read_frame, read_npdu, write_apdu,
    write_datagram,
};
use bac_wire::{Datagram, ObjectId, levels_are_made, value_is_read_back};
use std::test::Fail;

/// An APDU that a device sends and another reads is the same.
fn apdus_come_back()
    ensures { (reply : Bool) (apdu : ApduValue) → IsApdu apdu → length (apdu_octets apdu) ≤ 1495
        → apdu_in (datagram_with reply apdu) ≡ Some apdu }
{
    // For the prover alone: the laws that the contract follows from.
    frame_is_read();
    header_is_read();
    apdu_is_read();
    frames_have_a_size();
}

/// A question for records comes back as that question.
fn questions_come_back()
    ensures { (r : Question) (invoke : ℕ) → IsProperty r.object r.property r.index
        → IsExtent r.extent → question_in (datagram_with true (question r invoke)) ≡ Some r }
{
    apdus_come_back();
    ReadRange::canon_is_short();
    ReadRange::fields_are_read_back();
}

/// An answer with two values comes back as these values.
fn answers_come_back()
    ensures { (object : Id) (property invoke : ℕ) (v w : Primitive) → IsValid (Object object)
        → property < 2 ^ 32 → IsValid v → IsValid w
        → length (apdu_octets (answer object property v w invoke)) ≤ 1495
        → answer_in (datagram_with false (answer object property v w invoke)) ≡ Some (v, w) }
{
    apdus_come_back();
    // For the prover alone: the laws that the contract follows from.
    levels_are_made();
    value_is_read_back();
    ReadPropertyAck::fields_are_read_back();
}

/// An APDU in a frame to one device, without a route.
#[tactic(auto, unfolding(crate::specs::Passage::datagram_with))]
fn sent(reply: bool, apdu: &Apdu) -> Datagram
    requires apdu { IsApdu (apdu_of apdu.now) }
    requires short { length (apdu_octets (apdu_of apdu.now)) ≤ 1495 }
    ensures { result ≡ datagram_with reply (apdu_of apdu.now) }
{
    // For the prover alone: a law that the contract follows from.
    frames_have_a_size();
    let npdu = Npdu {
        network: false,
        reply,
        priority: 0,
        dest: None,
        source: None,
        hops: 0,
    };
    let mut octets = Datagram::new();
    match write_apdu(&mut octets, apdu) {
        Ok(()) => {}
        Err(_) => unreachable!(),
    }
    let mut datagram = Datagram::new();
    match write_datagram(&mut datagram, &npdu, octets.octets()) {
        Ok(()) => datagram,
        Err(_) => unreachable!(),
    }
}

/// The APDU in a frame to one device.
#[tactic(auto, unfolding(crate::specs::Passage::apdu_in))]
fn received(datagram: &[u8]) -> Option<Apdu>
    ensures { GivesSome apdu_of result (apdu_in datagram.now) }
{
    let npdu = npdu_of(read_frame(datagram)?)?;
    let (_, apdu) = read_npdu(npdu)?;
    read_apdu(apdu)
}

fn npdu_of(frame: Frame) -> Option<&[u8]>
    ensures { GivesSome (λ x. x.now) result (npdu_in (frame_of frame.entry)) }
{
    match frame {
        Frame::Unicast(npdu) => Some(npdu),
        Frame::Broadcast(_) => None,
        Frame::Forwarded(_, _) => None,
        Frame::Function(_, _) => None,
    }
}

/// A question for records as a datagram. It always fits.
fn question_sent(range: &ReadRange, invoke: u8) -> Datagram
    ensures datagram { result ≡ datagram_with true (question range.now invoke) }
    ensures in_range { IsProperty range.now.object range.now.property range.now.index }
{
    ReadRange::canon_is_short();
    let mut parameters = Datagram::new();
    match range.write(&mut parameters) {
        Ok(()) => {}
        Err(_) => unreachable!(),
    }
    let apdu = Apdu::Confirmed {
        segmented: false,
        max_response: 1476,
        invoke,
        service: choice::READ_RANGE,
        parameters: parameters.octets(),
    };
    sent(true, &apdu)
}

/// The question for records that a datagram is.
#[tactic(auto, unfolding(crate::specs::Passage::question_in))]
fn question_received(datagram: &[u8]) -> Option<ReadRange>
    ensures { result ≡ question_in datagram.now }
{
    let apdu = received(datagram)?;
    question_of(&apdu)
}

fn question_of(apdu: &Apdu) -> Option<ReadRange>
    ensures { result ≡ question_of (apdu_of apdu.now) }
{
    match *apdu {
        Apdu::Confirmed {
            service,
            parameters,
            ..
        } => {
            if service == choice::READ_RANGE {
                ReadRange::read(parameters).ok()
            } else {
                None
            }
        }
        Apdu::Unconfirmed { .. } => None,
        Apdu::Simple { .. } => None,
        Apdu::Complex { .. } => None,
        Apdu::SegmentAck { .. } => None,
        Apdu::Error { .. } => None,
        Apdu::Reject { .. } => None,
        Apdu::Abort { .. } => None,
    }
}

/// A question that is sent and received is the same.
fn question_comes_back(range: &ReadRange, invoke: u8) -> Option<ReadRange>
    requires { IsExtent range.now.extent }
    ensures { result ≡ Some range.now }
{
    questions_come_back();
    let datagram = question_sent(range, invoke);
    question_received(datagram.octets())
}

#[test]
fn a_question_by_number_comes_back(rt: HostRuntime) -> Result<(), Fail> {
    let Some(object) = ObjectId::new(20, 1) else {
        return Err(Fail::from("no such identifier"));
    };
    let range = ReadRange {
        object,
        property: 131,
        index: None,
        extent: Extent::ByNumber {
            reference: 4294967295,
            count: -100,
        },
    };
    assert!(rt; question_comes_back(&range, 255) == Some(range));
    Ok(())
}
