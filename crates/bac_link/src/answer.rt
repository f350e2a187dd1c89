//! Answers to confirmed requests (clause 5.4), and which datagram answers which request.

ghost use Rattle.std.specs.Prelude.{◌≡◌};
ghost use Rattle.bac_wire.specs.OptionChain.{GivesSome};
ghost use Rattle.bac_apdu.specs.Apdu.{apdu_of};
ghost use Rattle.bac_apdu.specs.Npdu.{header_of, maybe_place_of};
ghost use Rattle.bac_link.specs.Datagrams.{apdu_in, carried_in, message_in, path_in};
ghost use Rattle.bac_link.specs.Datagrams.{asked_id as asked_id_of, answer_in as answer_in_of};
ghost use Rattle.bac_link.specs.Datagrams.{answers_to, same_id, same_path};
ghost use Rattle.bac_link.specs.Path.{path_of, same_place};
ghost use Rattle.bac_link.specs.Transactions.{maybe_answer_of};

use bac_apdu::{Apdu, Far, Frame, Npdu, read_apdu, read_frame, read_npdu};

/// What a server answers to a confirmed request.
#[derive(Clone, Copy, Debug, PartialEq, Eq)]
pub enum Answer<'a> {
    /// A SimpleACK: the service was done.
    Simple,
    /// A ComplexACK: the service was done; its parameters.
    Complex(&'a [u8]),
    /// A ComplexACK in segments, which aren't put together here.
    Segmented,
    /// Error class and error code.
    Error(u32, u32),
    /// The reject reason.
    Reject(u8),
    /// The abort reason.
    Abort(u8),
}

/// The header and the octets of the APDU in a frame to one device, other than a network message.
#[tactic(auto, unfolding(crate::specs::Datagrams::carried_in))]
fn carried(bytes: &[u8]) -> Option<(Npdu, &[u8])>
    ensures { GivesSome (λ x. (path_of (header_of x.0), x.1.now)) result (carried_in bytes.now) }
{
    let npdu = match read_frame(bytes) {
        Some(Frame::Unicast(npdu)) => npdu,
        _ => return None,
    };
    let (header, apdu) = read_npdu(npdu)?;
    if header.network {
        return None;
    }
    Some((header, apdu))
}

/// The header and the APDU in a frame to one device.
#[tactic(auto, unfolding(crate::specs::Datagrams::message_in))]
fn message(bytes: &[u8]) -> Option<(Npdu, Apdu)>
    ensures { GivesSome (λ x. (path_of (header_of x.0), apdu_of x.1)) result
        (message_in bytes.now) }
{
    let (header, octets) = carried(bytes)?;
    let apdu = read_apdu(octets)?;
    Some((header, apdu))
}

/// The APDU in a frame to one device, by whatever networks it goes.
pub fn read_datagram(bytes: &[u8]) -> Option<Apdu>
    ensures { GivesSome apdu_of result (apdu_in bytes.now) }
{
    let (_, apdu) = message(bytes)?;
    Some(apdu)
}

fn asked_id(bytes: &[u8]) -> Option<u8>
    ensures { result ≡ asked_id_of (apdu_in bytes.now) }
{
    match read_datagram(bytes) {
        Some(Apdu::Confirmed { invoke, .. }) => Some(invoke),
        _ => None,
    }
}

/// The invoke ID of an answer by a server, and the answer.
pub(crate) fn answer_in(bytes: &[u8]) -> Option<(u8, Answer)>
    ensures { maybe_answer_of result ≡ answer_in_of (apdu_in bytes.now) }
{
    match read_datagram(bytes) {
        Some(Apdu::Simple { invoke, .. }) => Some((invoke, Answer::Simple)),
        Some(
            Apdu::Complex {
                segmented,
                invoke,
                parameters,
                ..
            },
        ) => {
            if segmented {
                Some((invoke, Answer::Segmented))
            } else {
                Some((invoke, Answer::Complex(parameters)))
            }
        }
        Some(
            Apdu::Error {
                invoke,
                class,
                code,
                ..
            },
        ) => Some((invoke, Answer::Error(class, code))),
        Some(Apdu::Reject { invoke, reason }) => Some((invoke, Answer::Reject(reason))),
        Some(
            Apdu::Abort {
                by_server,
                invoke,
                reason,
            },
        ) => {
            if by_server {
                Some((invoke, Answer::Abort(reason)))
            } else {
                None
            }
        }
        _ => None,
    }
}

/// Whether two headers name the same place, or none.
fn is_same_place(a: Option<Far>, b: Option<Far>) -> bool
    ensures { result ≡ same_place (maybe_place_of a.entry) (maybe_place_of b.entry) }
{
    match (a, b) {
        (Some(a), Some(b)) => a.net == b.net && a.address == b.address,
        (None, None) => true,
        _ => false,
    }
}

/// Whether a datagram comes from where a request went, and goes nowhere else.
fn comes_back(request: &[u8], datagram: &[u8]) -> bool
    ensures { result ≡ same_path (path_in request.now) (path_in datagram.now) }
{
    let Some((asked, _)) = message(request) else {
        return false;
    };
    let Some((told, _)) = message(datagram) else {
        return false;
    };
    asked.source.is_none() && told.dest.is_none() && is_same_place(asked.dest, told.source)
}

/// Whether a datagram answers a request: the request is a confirmed one, the datagram a SimpleACK,
/// ComplexACK, Error, Reject or a server's Abort with its invoke ID; both are frames to one device
/// (Original-Unicast-NPDU) without a network message; and the datagram's SNET and SADR are the
/// request's DNET and DADR, or it has none if the request has none. A datagram with a DNET is no
/// answer, and a request with an SNET has none here.
#[tactic(auto, unfolding(crate::specs::Datagrams::answers_to))]
pub fn answers(request: &[u8], datagram: &[u8]) -> bool
    ensures { result ≡ answers_to request.now datagram.now }
{
    same_id(request, datagram) && comes_back(request, datagram)
}

/// Whether a datagram answers with the invoke ID of a request.
fn same_id(request: &[u8], datagram: &[u8]) -> bool
    ensures { result
        ≡ same_id (asked_id_of (apdu_in request.now)) (answer_in_of (apdu_in datagram.now)) }
{
    match asked_id(request) {
        Some(invoke) => match answer_in(datagram) {
            Some((answered, _)) => invoke == answered,
            None => false,
        },
        None => false,
    }
}
