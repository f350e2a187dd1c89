//! What is heard of a trend log, as a reply. It is read once.

ghost use Rattle.std.specs.Prelude.{◌≡◌, ◌≤◌, true, IfOk};
ghost use Rattle.bac_apdu.specs.Service.ReadRangeAck.{range_ack_of};
ghost use Rattle.bac_link.specs.Heard.{heard_of};
ghost use Rattle.bac_walk.specs.Walks.{fits};
ghost use Rattle.bac_poll_steps.specs.State.{maybe_reply};
ghost use Rattle.bac_poll_steps.specs.Asked.{are_asked, are_from, are_up_to, reply_from, reply_in};
ghost use Rattle.bac_poll_steps.specs.Reading.{is_taken};

use crate::stage::Stage;
use crate::state::LogState;
use bac_apdu::ReadRangeAck;
use bac_known::{Reply, ack_of, distance, is_of, number_told, records_in, says_last, says_more};
use bac_walk::Numbered;
use std::alloc::{AllocError, Global};

impl LogState {
    /// A datagram as a reply, if it is one by the question.
    pub fn read(&self, alloc: Global, datagram: &[u8]) -> Result<Option<Reply>, AllocError>
        ensures { IfOk result (λ reply. maybe_reply reply ≡ reply_in self.now datagram.now) }
    {
        match ack_of(datagram) {
            Some(ack) => self.read_ack(alloc, &ack),
            None => Ok(None),
        }
    }

    // An ACK as a reply.
    fn read_ack(&self, alloc: Global, ack: &ReadRangeAck) -> Result<Option<Reply>, AllocError>
        ensures { IfOk result (λ reply. maybe_reply reply ≡ reply_from self.now
            (heard_of self.now.walk.log (range_ack_of ack.now))
            (range_ack_of ack.now).last_item (range_ack_of ack.now).more_items) }
    {
        if !is_of(ack, self.log) {
            return Ok(None);
        }
        let first = number_told(ack.first_number);
        let Some(records) = records_in(alloc, first, ack.items)? else {
            return Ok(None);
        };
        if !self.takes(first, ack.count, records.as_slice().len()) {
            return Ok(None);
        }
        Ok(Some(Reply {
            records,
            last: says_last(ack),
            more: says_more(ack),
        }))
    }

    // Whether so many records from this number on are taken, of which a reply says that they are
    // as many as that.
    fn takes(&self, first: u32, told: u64, count: usize) -> bool
        ensures { result ≡ is_taken self.now first told count }
    {
        if count == 0 {
            return true;
        }
        if !self.fits(first, count) {
            return false;
        }
        told == count as u64 && self.are_asked(first, count)
    }

    // Whether there may be so many, from a number on.
    fn fits(&self, first: u32, count: usize) -> bool
        ensures value { result ≡ fits self.now.walk first count }
        ensures few { result ≡ true → count ≤ 100 }
    {
        count <= usize::from(self.count.number()) && 0 < first
    }

    // Whether so many records from this number on were asked for.
    fn are_asked(&self, first: u32, count: usize) -> bool
        requires { count ≤ 100 }
        ensures { result ≡ are_asked self.now self.now.stage first count }
    {
        let asked = usize::from(self.count.number());
        match self.stage {
            Stage::Oldest(_) => true,
            Stage::UpTo(_) => are_up_to(asked, self.reference, first, count),
            Stage::Back(_) => are_up_to(asked, self.reference, first, count),
            Stage::Joins => are_from(asked, self.reference, first, count),
            Stage::Prior => are_from(asked, self.reference, first, count),
            Stage::Ahead => are_from(asked, self.reference, first, count),
            Stage::Again => are_from(asked, self.reference, first, count),
            Stage::Each => are_from(asked, self.reference, first, count),
            Stage::ByNumber => are_from(asked, self.reference, first, count),
            Stage::Counts(_) => false,
            Stage::Revision => false,
            Stage::Restart => false,
        }
    }
}

// Whether so many records lie among as many from a number on.
fn are_from(asked: usize, reference: u32, first: u32, count: usize) -> bool
    requires { count ≤ 100 }
    ensures { result ≡ are_from asked reference first count }
{
    distance(reference, first) + count as u64 <= asked as u64
}

// Or among as many up to a number.
fn are_up_to(asked: usize, reference: u32, first: u32, count: usize) -> bool
    requires { count ≤ 100 }
    ensures { result ≡ are_up_to asked reference first count }
{
    distance(first, reference) < asked as u64 && count as u64 <= distance(first, reference) + 1
}
