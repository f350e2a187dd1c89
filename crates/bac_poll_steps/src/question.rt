//! What is asked of a trend log, and what is an answer to it.

ghost use Rattle.std.specs.Prelude.{◌≡◌};
ghost use Rattle.bac_link.specs.Datagrams.{apdu_in};
ghost use Rattle.bac_link.specs.Exchanges.{verdict_of};
ghost use Rattle.bac_link.specs.Links.{question};
ghost use Rattle.bac_link.specs.Path.{towards};
ghost use Rattle.bac_link.specs.Requests.{IsSendable, IsTooLong, next_invoke, request_octets};
ghost use Rattle.bac_link.specs.Transactions.{begun_with};
ghost use Rattle.bac_walk.specs.Walks.{question_of};
ghost use Rattle.bac_poll_steps.specs.Asked.{asked_by_poll, back_question, number_question};
ghost use Rattle.bac_poll_steps.specs.Asked.{property_question};

use crate::stage::Stage;
use crate::state::LogState;
use bac_apdu::property_id::LOG_BUFFER;
use bac_apdu::{Extent, ReadProperty, ReadRange};
use bac_link::{Request, Transactions, Verdict, judge};
use bac_wire::{Datagram, Date4, ObjectId, Time4};

/// Total_Record_Count of a trend log (clause 12.25).
const TOTAL_RECORD_COUNT: u32 = 145;

/// Database_Revision of a device (clause 12.11).
const DATABASE_REVISION: u32 = 155;

/// Time_Of_Device_Restart of a device (clause 12.11).
const TIME_OF_DEVICE_RESTART: u32 = 203;

impl LogState {
    /// What is asked next. It always fits a request.
    pub fn question(&self) -> Request
        ensures asks { result ≡ asked_by_poll self.now }
        ensures fits { IsTooLong result → ⊥ }
        ensures sendable { IsSendable result }
    {
        match self.stage {
            Stage::Joins => self.number_question(),
            Stage::Prior => self.number_question(),
            Stage::Ahead => self.number_question(),
            Stage::Again => self.number_question(),
            Stage::Each => self.number_question(),
            Stage::ByNumber => self.number_question(),
            Stage::Oldest(_) => self.oldest_question(),
            Stage::Counts(_) => property_question(self.log, TOTAL_RECORD_COUNT),
            Stage::UpTo(_) => self.back_question(),
            Stage::Back(_) => self.back_question(),
            Stage::Revision => property_question(self.device, DATABASE_REVISION),
            Stage::Restart => property_question(self.device, TIME_OF_DEVICE_RESTART),
        }
    }

    // So many of the oldest, as those newer than 1900-01-01T00:00:00.00.
    fn oldest_question(&self) -> Request
        ensures asks { result ≡ question self.now.walk.log (question_of self.now.walk) }
        ensures fits { IsTooLong result → ⊥ }
        ensures sendable { IsSendable result }
    {
        let object = self.log;
        let count = i32::from(self.count.number());
        let date = Date4 {
            year: 0,
            month: 1,
            day: 1,
            weekday: 1,
        };
        let time = Time4 {
            hour: 0,
            minute: 0,
            second: 0,
            hundredth: 0,
        };
        Request::ReadRange(ReadRange {
            object,
            property: LOG_BUFFER,
            index: None,
            extent: Extent::ByTime { date, time, count },
        })
    }

    // So many records from a number on.
    fn number_question(&self) -> Request
        ensures asks { result ≡ number_question self.now }
        ensures fits { IsTooLong result → ⊥ }
        ensures sendable { IsSendable result }
    {
        let object = self.log;
        let count = i32::from(self.count.number());
        Request::ReadRange(ReadRange {
            object,
            property: LOG_BUFFER,
            index: None,
            extent: Extent::ByNumber {
                reference: self.reference,
                count,
            },
        })
    }

    // So many up to it.
    fn back_question(&self) -> Request
        ensures asks { result ≡ back_question self.now }
        ensures fits { IsTooLong result → ⊥ }
        ensures sendable { IsSendable result }
    {
        let object = self.log;
        let count = -i32::from(self.count.number());
        Request::ReadRange(ReadRange {
            object,
            property: LOG_BUFFER,
            index: None,
            extent: Extent::ByNumber {
                reference: self.reference,
                count,
            },
        })
    }

    /// Its question as the next transaction: the datagram that is sent.
    pub fn ask(&self, transactions: &mut Transactions) -> Datagram
        ensures datagram { result ≡ request_octets (towards transactions.old.route)
            (next_invoke transactions.old.invoke) (asked_by_poll self.now) }
        ensures begun { transactions.new ≡ begun_with (asked_by_poll self.now) transactions.old }
    {
        // In a list of one, since the prover doesn't take a request that is lent from a variable.
        let questions = [self.question()];
        match transactions.begin(&questions[0]) {
            Ok(datagram) => datagram,
            Err(_) => unreachable!(),
        }
    }

    /// What an answer is to its question.
    pub fn judge(&self, datagram: &[u8]) -> Verdict
        ensures { result ≡ verdict_of (asked_by_poll self.now) (apdu_in datagram.now) }
    {
        let questions = [self.question()];
        judge(&questions[0], datagram)
    }
}

// A question for a property of an object.
fn property_question(object: ObjectId, property: u32) -> Request<'static>
    ensures asks { result ≡ property_question object property }
    ensures fits { IsTooLong result → ⊥ }
    ensures sendable { IsSendable result }
{
    Request::ReadProperty(ReadProperty {
        object,
        property,
        index: None,
    })
}
