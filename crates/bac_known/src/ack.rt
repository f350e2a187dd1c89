//! What is read of an ACK of ReadRange.

ghost use Rattle.std.specs.Prelude.{◌≡◌};
ghost use Rattle.bac_apdu.specs.Service.ReadRangeAck.{range_ack_of};
ghost use Rattle.bac_link.specs.Datagrams.{apdu_in};
ghost use Rattle.bac_link.specs.Heard.{is_of_log, parameters_in};
ghost use Rattle.bac_wire.specs.OptionChain.{GivesSome};
ghost use Rattle.bac_known.specs.Ack.{ack_in};

use bac_apdu::choice::READ_RANGE;
use bac_apdu::property_id::LOG_BUFFER;
use bac_apdu::{Apdu, ReadRangeAck};
use bac_link::read_datagram;
use bac_walk::Numbered;
use bac_wire::ObjectId;

/// A reply: its records, and two of its result flags (clause 15.8.1.1).
#[derive(Drop)]
pub struct Reply {
    pub records: Vec<Numbered>,
    /// LAST_ITEM: it holds the newest record.
    pub last: bool,
    /// MORE_ITEMS: more were asked for than it holds.
    pub more: bool,
}

// The service parameters of the ACK of ReadRange in a datagram.
fn parameters_of(datagram: &[u8]) -> Option<&[u8]>
    ensures { GivesSome (λ p. p.now) result (parameters_in (apdu_in datagram.now)) }
{
    match read_datagram(datagram) {
        Some(
            Apdu::Complex {
                segmented,
                service,
                parameters,
                ..
            },
        ) => {
            if segmented {
                return None;
            }
            if service != READ_RANGE {
                return None;
            }
            Some(parameters)
        }
        _ => None,
    }
}

/// That ACK.
pub fn ack_of(datagram: &[u8]) -> Option<ReadRangeAck>
    ensures { GivesSome range_ack_of result (ack_in datagram.now) }
{
    match parameters_of(datagram) {
        Some(parameters) => ReadRangeAck::read(parameters),
        None => None,
    }
}

/// Whether it is that of the records of a log.
pub fn is_of(ack: &ReadRangeAck, log: ObjectId) -> bool
    ensures { result ≡ is_of_log log (range_ack_of ack.now) }
{
    ack.object.kind() == log.kind()
        && ack.object.instance() == log.instance()
        && ack.property == LOG_BUFFER
        && ack.index.is_none()
}

/// Whether it has LAST_ITEM set, the second of its result flags.
pub fn says_last(ack: &ReadRangeAck) -> bool
    ensures { result ≡ (range_ack_of ack.now).last_item }
{
    ack.flags / 0x40 % 2 == 1
}

/// Whether it has MORE_ITEMS set, the third.
pub fn says_more(ack: &ReadRangeAck) -> bool
    ensures { result ≡ (range_ack_of ack.now).more_items }
{
    ack.flags / 0x20 % 2 == 1
}
