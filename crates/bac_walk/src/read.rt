//! What a walk reads of an ACK.
ghost use Rattle.std.specs.Prelude.{◌≡◌};
ghost use Rattle.bac_wire.specs.OptionChain.{GivesSome};
ghost use Rattle.bac_link.specs.Datagrams.{apdu_in};
ghost use Rattle.bac_link.specs.Heard.{parameters_in};
ghost use Rattle.std.specs.Result.{result_ok};
ghost use Rattle.bac_log.specs.RecordReading.{entry_at};
ghost use Rattle.bac_link.specs.Heard.{is_of_log, records_in, same_id};
ghost use Rattle.bac_walk.specs.Reads.{IsCounted, IsSaid};
ghost use Rattle.bac_walk.specs.Spelled.{LiesAt, data_held, data_in};
ghost use Rattle.bac_apdu.specs.Service.ReadRangeAck.{range_ack_of};

use crate::reply::Reply;
use bac_apdu::choice::READ_RANGE;
use bac_apdu::property_id::LOG_BUFFER;
use bac_apdu::{Apdu, ReadRangeAck};
use bac_link::read_datagram;
use bac_log::{Entry, read_entry, record_len};
use bac_wire::ObjectId;

/// The service parameters of the ACK of ReadRange in a datagram.
pub(crate) fn ack_parameters(datagram: &[u8]) -> Option<&[u8]>
    ensures { GivesSome (λ p. p.now) result (parameters_in (apdu_in datagram.now)) }
{
    match read_datagram(datagram) {
        Some(
            Apdu::Complex {
                segmented,
                service,
                parameters,
                ..
            },
        ) => {
            if segmented {
                return None;
            }
            if service != READ_RANGE {
                return None;
            }
            Some(parameters)
        }
        _ => None,
    }
}

/// The item data of the ACK of ReadRange in a datagram; no octets if there is none.
fn data_of(datagram: &[u8]) -> &[u8]
    ensures { result.now ≡ data_held datagram.now }
{
    match ack_parameters(datagram) {
        Some(parameters) => data_in(parameters),
        None => &datagram[..0],
    }
}

/// The item data of an ACK of ReadRange with these parameters; no octets if there is none.
fn data_in(parameters: &[u8]) -> &[u8]
    ensures { result.now ≡ data_in parameters.now }
{
    match ReadRangeAck::read(parameters) {
        Some(ack) => ack.items,
        None => &parameters[..0],
    }
}

/// What an ACK says of a walk's log, how many records it has, and its item data.
#[derive(Clone, Copy)]
pub(crate) struct Said<'a> {
    pub(crate) first: Option<u32>,
    pub(crate) count: u64,
    pub(crate) total: usize,
    pub(crate) items: &'a [u8],
}

/// Where in a datagram these octets are its item data: before the tag that closes them and a first
/// number in its usual form. `None` if they aren't there.
pub(crate) fn place_of(octets: &[u8], first: u32, items: &[u8]) -> Option<(usize, usize)>
    ensures { LiesAt result octets.now items.now }
{
    let number = match first {
        0..0x100 => 2,
        0x100..0x1_0000 => 3,
        0x1_0000..0x100_0000 => 4,
        _ => 5,
    };
    let end = octets.len().checked_sub(1 + number)?;
    let start = end.checked_sub(items.len())?;
    if &octets[start..end] != items {
        return None;
    }
    Some((start, end))
}

/// The item data of a reply: where they lie, or read again.
pub(crate) fn items_of(reply: &Reply) -> &[u8]
    ensures { result.now ≡ data_held reply.now.datagram }
{
    match reply.place {
        Some((start, end)) => &reply.datagram.octets()[start..end],
        None => data_of(reply.datagram.octets()),
    }
}

/// The record at the front, and the octets after it.
#[inline(always)]
pub(crate) fn next_record(octets: &[u8]) -> Option<(Entry, &[u8])>
    ensures { GivesSome (λ x. (x.0, x.1.now)) result (result_ok (entry_at octets.now)) }
{
    match read_entry(octets) {
        Some((entry, used)) => Some((entry, &octets[used..])),
        None => None,
    }
}

/// How many records there are, if all octets are records.
pub(crate) fn count_of(octets: &[u8]) -> Option<usize>
    ensures { IsCounted result (records_in octets.now) }
{
    let mut rest = octets;
    for taken in 0..octets.len() {
        if rest.is_empty() {
            return Some(taken);
        }
        match record_len(rest) {
            Some(len) => rest = &rest[len..],
            None => return None,
        }
    }
    if rest.is_empty() {
        Some(octets.len())
    } else {
        None
    }
}

/// Whether two identifiers are the same.
pub(crate) fn is_same(a: ObjectId, b: ObjectId) -> bool
    ensures { result ≡ same_id a b }
{
    a.kind() == b.kind() && a.instance() == b.instance()
}

/// Whether an ACK is that of a log's records.
pub(crate) fn is_of(ack: &ReadRangeAck, log: ObjectId) -> bool
    ensures { result ≡ is_of_log log (range_ack_of ack.now) }
{
    is_same(ack.object, log) && ack.property == LOG_BUFFER && ack.index.is_none()
}

/// What the parameters of an ACK say of a log, of which all records are read.
pub(crate) fn said_of<'a>(log: ObjectId, parameters: &'a [u8]) -> Option<Said<'a>>
    ensures { IsSaid log parameters.now result }
{
    let Some(ack) = ReadRangeAck::read(parameters) else {
        return None;
    };
    if !is_of(&ack, log) {
        return None;
    }
    let Some(total) = count_of(ack.items) else {
        return None;
    };
    Some(Said {
        first: ack.first_number,
        count: ack.count,
        total,
        items: ack.items,
    })
}
