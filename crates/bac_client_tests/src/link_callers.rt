//! What a user of transactions and links needs, proved from their public contracts alone.

ghost use Rattle.std.specs.Prelude.{◌≡◌, ◌≢◌, ◌↔◌, ◌+◌, ℕ, pos, List, IfSome, IsNone, IsOkAnd};
ghost use Rattle.std.specs.Prelude.{OnErr};
ghost use Rattle.bac_apdu.specs.declared.service.extent.Extent.TheVariants.{ByNumber as by_number};
ghost use Rattle.bac_link.specs.Delivery.{History, Moment, later};
ghost use Rattle.bac_link.specs.Links.{IsReply, RisesBy, our_question};
ghost use Rattle.bac_link.specs.Path.{towards};
ghost use Rattle.bac_link.specs.Requests.{IsSendable, IsTooLong};

use bac_apdu::{Extent, ReadRange};
use bac_link::{
    ExchangeFault, LogLink, Request, Timeout, Transactions, answers_tell_requests_apart, exchange,
};
use bac_wire::{Datagram, ObjectId};

/// A request that nobody answers is sent a second time if one retry is given: the same octets.
pub fn sent_twice(request: &Request) -> Option<(Datagram, Datagram)>
    requires { IsSendable request.now }
    ensures same { IfSome result (λ sent. sent.0 ≡ sent.1) }
    ensures fits { IsNone result ↔ IsTooLong request.now }
{
    let mut transactions = Transactions::new(1);
    let Ok(first) = transactions.begin(request) else {
        return None;
    };
    match transactions.timeout() {
        Timeout::Resend(second) => Some((first, second)),
        Timeout::GaveUp => unreachable!(),
    }
}

/// Over any link, of two requests one after the other the second doesn't take the answer to the
/// first, however often that comes.
pub fn no_answer_is_taken_twice<L: LogLink>(
    link: &mut L,
    first: &Request,
    second: &Request,
) -> Option<(Datagram, Datagram)>
    requires first { IsSendable first.now }
    requires second { IsSendable second.now }
    ensures { IfSome result (λ both. both.0 ≢ both.1) }
{
    // For the prover alone: a law that the contract follows from.
    answers_tell_requests_apart();
    let mut transactions = Transactions::new(3);
    let Ok(early) = exchange(link, &mut transactions, first) else {
        return None;
    };
    let Ok(late) = exchange(link, &mut transactions, second) else {
        return None;
    };
    Some((early, late))
}

/// Over a sure link that is ours for a log, a question for its records from a number on brings
/// the reply of the next moment.
pub fn records_from<L: LogLink>(
    link: &mut L,
    transactions: &mut Transactions,
    log: ObjectId,
    from: u32,
) -> Result<Datagram, ExchangeFault>
    ensures replied { (r : ℕ) (M : List Moment) (H : History) → L.is_ours link.old log r M H
        → L.is_sure link.old (towards transactions.old.route)
        → IsOkAnd result (λ d. ((invoke : ℕ)
        × IsReply (our_question r M H log (by_number from (pos 100))
        (towards transactions.old.route)) invoke d)
        × L.is_ours link.new log r (later M) H) }
    ensures lost { (r : ℕ) (M : List Moment) (H : History) → L.is_ours link.old log r M H
        → OnErr result
        (RisesBy (transactions.old.retries + 1) (L.failures link.old) (L.failures link.new)) }
{
    // For the prover alone, both: their numbers are small enough for a request.
    let _kind = log.kind();
    let _instance = log.instance();
    let request = Request::ReadRange(ReadRange {
        object: log,
        property: 131,
        index: None,
        extent: Extent::ByNumber {
            reference: from,
            count: 100,
        },
    });
    exchange(link, transactions, &request)
}
