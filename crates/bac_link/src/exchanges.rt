//! The exchange of a request for its answer, over any link.

ghost use Rattle.std.specs.Prelude.{◌≡◌, ℕ, ◌≤◌, ◌↔◌, true, List, Option, Err, IfSome, IsSome};
ghost use Rattle.bac_wire.specs.Primitive.{Id};
ghost use Rattle.bac_apdu.specs.declared.service.extent.Extent.{Extent as AnyExtent};
ghost use Rattle.bac_link.specs.Datagrams.{answers_to, apdu_in};
ghost use Rattle.bac_link.specs.Delivery.{History, Moment};
ghost use Rattle.bac_link.specs.Exchanges.{
  verdict_of,
  Concludes,
  Exchanges,
  Leaves,
  IsExchanged,
  IsExchangedOfNone,
  IsNotLost,
  IsHeard,
  IsHeardOfNone,
  IsTried,
  next_way,
};
ghost use Rattle.bac_link.specs.Links.{AsksFor, IsQuestion, our_question};
ghost use Rattle.bac_apdu.specs.Npdu.{Place};
ghost use Rattle.bac_link.specs.Path.{Path, towards};
ghost use Rattle.bac_link.specs.Requests.{next_invoke, IsSendable, IsTooLong};

use crate::answer::{answers, read_datagram};
use crate::link::{LogLink, Lost};
use crate::request::Request;
use crate::transactions::Transactions;
use bac_apdu::Apdu;
use bac_wire::Datagram;

/// How a device refused a request.
#[derive(Clone, Copy, Debug, PartialEq, Eq)]
pub enum Refusal {
    /// Error class and error code (clause 18).
    Error(u32, u32),
    /// The reject reason (clause 18.9).
    Reject(u8),
    /// The abort reason (clause 18.10).
    Abort(u8),
}

/// Why an exchange brought no ACK.
#[derive(Clone, Copy, Debug, PartialEq, Eq)]
pub enum ExchangeFault {
    /// No answer came to the request, nor to any of its repeats.
    Lost,
    /// The device refused the request.
    Refused(Refusal),
    /// An answer came that doesn't belong to the request: the ACK of another service, a SimpleACK
    /// in place of a ComplexACK or the reverse, or one in segments.
    BadReply,
    /// The request's APDU has over 1476 octets; nothing was sent.
    TooLong,
}

/// What an answer is to its request.
#[derive(Clone, Copy, Debug, PartialEq, Eq)]
pub enum Verdict {
    /// The ACK that belongs to the request.
    Ack,
    /// The device refused the request.
    Refused(Refusal),
    /// It doesn't belong to the request.
    BadReply,
}

/// Whether an answer to the request is its ACK, a refusal or neither.
pub fn judge(request: &Request, datagram: &[u8]) -> Verdict
    ensures { result ≡ verdict_of request.now (apdu_in datagram.now) }
{
    match read_datagram(datagram) {
        Some(Apdu::Simple { service, .. }) => {
            if !request.has_result() && service == request.service() {
                Verdict::Ack
            } else {
                Verdict::BadReply
            }
        }
        Some(
            Apdu::Complex {
                segmented,
                service,
                ..
            },
        ) => {
            if request.has_result() && !segmented && service == request.service() {
                Verdict::Ack
            } else {
                Verdict::BadReply
            }
        }
        Some(Apdu::Error { class, code, .. }) => Verdict::Refused(Refusal::Error(class, code)),
        Some(Apdu::Reject { reason, .. }) => Verdict::Refused(Refusal::Reject(reason)),
        Some(Apdu::Abort { reason, .. }) => Verdict::Refused(Refusal::Abort(reason)),
        _ => Verdict::BadReply,
    }
}

/// One try: the datagram that answers the request, if one came.
fn heard<L: LogLink>(link: &mut L, request: &[u8]) -> Option<Datagram>
    ensures never_falls { L.failures link.old ≤ L.failures link.new }
    ensures answers { IfSome result (λ d. answers_to request.now d ≡ true) }
    ensures tried { IsTried L.asks request.now link.old result link.new }
    ensures ours { (id : Id) (r : ℕ) (M : List Moment) (H : History) (extent : AnyExtent)
        (place : Option Place) (invoke : ℕ) → L.is_ours link.old id r M H
        → IsQuestion id extent (towards place) invoke request.now
        → IsHeard (λ N. L.is_ours link.new id r N H)
        (our_question r M H id extent (towards place)) invoke
        (record { before = L.failures link.old; after = L.failures link.new }) result
        × (L.is_sure link.old (towards place) → IsSome result) }
    ensures lacking { (id : Id) (extent : AnyExtent) (place : Option Place) (invoke : ℕ)
        → L.lacks link.old id → IsQuestion id extent (towards place) invoke request.now
        → IsHeardOfNone (towards place) invoke (L.failures link.old) (L.failures link.new) result
        × L.lacks link.new id × (L.is_sure link.old (towards place) → IsSome result) }
    ensures stays_sure { (path : Path) → L.is_sure link.old path → L.is_sure link.new path }
    ensures kept { (id : Id) (extent : AnyExtent) (place : Option Place) (invoke : ℕ)
        → L.is_sure link.old (towards place)
        → IsQuestion id extent (towards place) invoke request.now → L.keeps link.old link.new }
{
    match link.ask(request) {
        Ok(reply) => {
            if answers(request, reply.octets()) {
                return Some(reply);
            }
            None
        }
        Err(Lost) => None,
    }
}

/// Sends a request until an answer to it comes, once and then as often as the transactions' retries
/// say, each time the same octets. A datagram that doesn't answer the request counts as none.
/// It gives the datagram with the ACK that belongs to the request. `TooLong` exactly if the
/// request doesn't fit, and then nothing is sent and no transaction is begun.
pub fn exchange<L: LogLink>(
    link: &mut L,
    transactions: &mut Transactions,
    request: &Request,
) -> Result<Datagram, ExchangeFault>
    requires { IsSendable request.now }
    // Over any link, whatever the request: it is asked once, and then as often as the retries say,
    // until an answer comes over the link; what is returned is the verdict on that answer.
    ensures exchanges { Exchanges L.asks (next_way transactions.old) request.now link.old result
        link.new }
    // So what is returned is the verdict on a datagram that answers the request.
    ensures answers { Concludes (towards transactions.old.route)
        (next_invoke transactions.old.invoke) request.now result }
    ensures too_long { (result ≡ Err ExchangeFault.TooLong) ↔ IsTooLong request.now }
    ensures leaves { Leaves request.now transactions.old result transactions.new }
    ensures never_falls { L.failures link.old ≤ L.failures link.new }
    // Over a link of ours: the reply of the next moment, or Lost after more failures than retries.
    ensures ours { (id : Id) (r : ℕ) (M : List Moment) (H : History) (extent : AnyExtent)
        → L.is_ours link.old id r M H → AsksFor id extent request.now
        → IsExchanged (λ N. L.is_ours link.new id r N H)
        (our_question r M H id extent (towards transactions.old.route)) transactions.old.retries
        (record { before = L.failures link.old; after = L.failures link.new }) result
        × (L.is_sure link.old (towards transactions.old.route) → IsNotLost result) }
    // Over a link without the log: the Error that says so, or Lost likewise.
    ensures lacking { (id : Id) (extent : AnyExtent) → L.lacks link.old id
        → AsksFor id extent request.now
        → IsExchangedOfNone transactions.old.retries (L.failures link.old) (L.failures link.new)
        result × L.lacks link.new id
        × (L.is_sure link.old (towards transactions.old.route) → IsNotLost result) }
    ensures stays_sure { (path : Path) → L.is_sure link.old path → L.is_sure link.new path }
    // A question changes nothing.
    ensures kept { (id : Id) (extent : AnyExtent)
        → L.is_sure link.old (towards transactions.old.route) → AsksFor id extent request.now
        → L.keeps link.old link.new }
{
    let mut datagram = Datagram::new();
    let Ok(()) = transactions.pass(request, &mut datagram) else {
        return Err(ExchangeFault::TooLong);
    };
    let tries = u16::from(transactions.retries()) + 1;
    for tried in 0..tries {
        if let Some(reply) = heard(link, datagram.octets()) {
            return match judge(request, reply.octets()) {
                Verdict::Ack => Ok(reply),
                Verdict::Refused(refusal) => Err(ExchangeFault::Refused(refusal)),
                Verdict::BadReply => Err(ExchangeFault::BadReply),
            };
        }
    }
    Err(ExchangeFault::Lost)
}
