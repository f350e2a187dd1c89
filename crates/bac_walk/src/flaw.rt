//! What is wrong with a reply that a walk can't take.

ghost use Rattle.std.specs.Prelude.{◌≡◌, ◌≤◌, length};
ghost use Rattle.bac_apdu.specs.Service.ReadRangeAck.{range_ack_of, read_range_ack_at};
ghost use Rattle.bac_walk.specs.Flaws.{ack_flaw, extent_flaw, flaw_in, head_flaw, records_before};
ghost use Rattle.bac_walk.specs.Flaws.{span_flaw};

use crate::read::{count_of, is_of, is_same};
use crate::walk::Walk;
use bac_apdu::choice::READ_RANGE;
use bac_apdu::{Apdu, ReadRangeAck};
use bac_link::read_datagram;
use bac_log::record_len;
use bac_wire::ObjectId;

/// What is wrong with a reply to a walk's question: the first of these.
#[derive(Clone, Copy, Debug, PartialEq, Eq)]
pub enum ReplyFlaw {
    /// It is no ComplexACK.
    NotComplex,
    /// It is a ComplexACK in segments.
    Segmented,
    /// It is the ACK of this service.
    Service(u8),
    /// Its parameters aren't those of an ACK of ReadRange.
    Parameters,
    /// It is of this object.
    Object(ObjectId),
    /// It has this array index.
    Index(u32),
    /// It is of this property.
    Property(u32),
    /// The item in this place, from 1 on, is no record.
    Item(usize),
    /// It has so many records, and no number of the first.
    NoNumber(usize),
    /// Its item count is another than that of its records.
    Count {
        count: u64,
        records: usize,
    },
    /// It has so many records, more than the `asked` ones.
    TooMany {
        records: usize,
        asked: usize,
    },
    /// It has so many records from this number on, and the `asked` ones from `next` on were asked
    /// for.
    Unasked {
        first: u32,
        records: usize,
        next: u32,
        asked: usize,
    },
}

/// How many records stand in front of the first octets that are none.
fn records_before(octets: &[u8]) -> usize
    ensures records { result ≡ records_before (length octets.now) octets.now }
    ensures few { result ≤ length octets.now }
{
    let mut rest = octets;
    for taken in 0..octets.len() {
        match record_len(rest) {
            Some(len) => rest = &rest[len..],
            None => return taken,
        }
    }
    octets.len()
}

/// Why an ACK isn't that of a log's records.
fn head_flaw(ack: &ReadRangeAck, log: ObjectId) -> ReplyFlaw
    ensures { result ≡ head_flaw log (range_ack_of ack.now) }
{
    if !is_same(ack.object, log) {
        return ReplyFlaw::Object(ack.object);
    }
    match ack.index {
        Some(index) => ReplyFlaw::Index(index),
        None => ReplyFlaw::Property(ack.property),
    }
}

impl Walk {
    /// What is wrong with a datagram as the reply to the question; nothing if the walk can take it.
    pub fn flaw(&self, datagram: &[u8]) -> Option<ReplyFlaw>
        ensures { result ≡ flaw_in self.now datagram.now }
    {
        match read_datagram(datagram) {
            Some(
                Apdu::Complex {
                    segmented,
                    service,
                    parameters,
                    ..
                },
            ) => {
                if segmented {
                    return Some(ReplyFlaw::Segmented);
                }
                if service != READ_RANGE {
                    return Some(ReplyFlaw::Service(service));
                }
                self.ack_flaw(parameters)
            }
            _ => Some(ReplyFlaw::NotComplex),
        }
    }

    // What is wrong with the parameters of an ACK.
    fn ack_flaw(&self, parameters: &[u8]) -> Option<ReplyFlaw>
        ensures { result ≡ ack_flaw self.now (read_range_ack_at parameters.now) }
    {
        let Some(ack) = ReadRangeAck::read(parameters) else {
            return Some(ReplyFlaw::Parameters);
        };
        if !is_of(&ack, self.log()) {
            return Some(head_flaw(&ack, self.log()));
        }
        match count_of(ack.items) {
            Some(records) => self.extent_flaw(ack.first_number, ack.count, records),
            None => Some(ReplyFlaw::Item(records_before(ack.items) + 1)),
        }
    }

    // What is wrong with so many records.
    fn extent_flaw(&self, first: Option<u32>, count: u64, records: usize) -> Option<ReplyFlaw>
        ensures { result ≡ extent_flaw self.now first count records }
    {
        if records == 0 {
            return None;
        }
        let Some(first) = first else {
            return Some(ReplyFlaw::NoNumber(records));
        };
        if self.is_past(first) || (count == records as u64 && self.fits(first, records)) {
            return None;
        }
        Some(self.span_flaw(first, count, records))
    }

    // Why records from this number on can't be taken.
    fn span_flaw(&self, first: u32, count: u64, records: usize) -> ReplyFlaw
        ensures { result ≡ span_flaw self.now first count records }
    {
        if count != records as u64 {
            return ReplyFlaw::Count { count, records };
        }
        let asked = self.asked_count();
        if records > asked {
            return ReplyFlaw::TooMany { records, asked };
        }
        ReplyFlaw::Unasked {
            first,
            records,
            next: self.next_number(),
            asked,
        }
    }
}
