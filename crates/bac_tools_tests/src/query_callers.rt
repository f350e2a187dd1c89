//! What a user of the queries needs, proved from their public contracts alone.

ghost use Rattle.std.specs.Prelude.{◌≡◌, ◌+◌, ◌<◌, ◌≤◌, ◌++◌, ℕ, List, None, true, length, Err};
ghost use Rattle.std.specs.Prelude.{IfOk, IfSome};
ghost use Rattle.std.specs.Io.KnownBytes.{Appends};
ghost use Rattle.bac_log.specs.TrendLog.{sequence_number};
ghost use Rattle.bac_link.specs.Delivery.{History, Moment, DeliversTo};
ghost use Rattle.bac_link.specs.Exchanges.{Unanswered};
ghost use Rattle.bac_link.specs.Path.{towards};
ghost use Rattle.bac_link.specs.Requests.{next_invoke, request_octets, IsSendable};
ghost use Rattle.bac_link.specs.declared.item.Item.{Item};
ghost use Rattle.bac_query.specs.Ahead.{port_asks};
ghost use Rattle.bac_query.specs.Fetching.{PrintsItems};
ghost use Rattle.bac_form.specs.declared.form.Form.TheVariants.{Lines};
ghost use Rattle.bac_query.specs.Ends.{end_line};
ghost use Rattle.bac_query.specs.Items.{items_text};
ghost use Rattle.bac_link.specs.Moments.{NeverGoesBack};
ghost use Rattle.bac_link.specs.Honest.{IsHonest, asked_log};
ghost use Rattle.bac_walk.specs.declared.outcome.WalkFault.{WalkFault as WalkFaultOf};
ghost use Rattle.bac_walk.specs.declared.outcome.WalkFault.TheVariants.{Lost as Loss};
ghost use Rattle.bac_walk.specs.Came.{Came, answers_of};
ghost use Rattle.bac_walk.specs.Collects.{start_of};
ghost use Rattle.bac_link.specs.Moments.{AreInWindow};

use bac_form::Form;
use bac_link::{ExchangeFault, LogLink, Request, Transactions};
use bac_ports::{Port, UdpLink};
use bac_query::{Fetched, QueryFault, fetch_log_ahead, write_property};
use bac_walk::{Walk, Why, honest_is_delivered, links_are_honest, transacted_is_brought};
use bac_wire::ObjectId;
use std::alloc::Global;
use std::io::Write;

/// Over a port that is honest for a log, what is fetched from the oldest record on begins at the
/// oldest record that the log holds when the first reply with records is given: none of those is
/// left out.
pub fn fetched_from_the_oldest<P: Port, W: Write>(
    alloc: Global,
    link: &mut UdpLink<P>,
    log: ObjectId,
    steps: u32,
    out: &mut W,
) -> Option<Result<Fetched, QueryFault>>
    ensures { IfSome result (λ fetched. (M : List Moment) (H : History) (low : ℕ)
        → IsHonest (port_asks P.sends P.receives)
        (asked_log (towards None) log 100) H low link.old M
        → 0 < length M → NeverGoesBack M → AreInWindow low M
        → (came : List Came) × (items : List Item) × (t : ℕ)
        × PrintsItems Lines items fetched (W.contents out.old) (W.contents out.new)
        × DeliversTo H (start_of true 1 M (answers_of came)) items t M (length came)) }
{
    // For the prover alone, all three: laws that the contract follows from.
    honest_is_delivered::<UdpLink<P>>();
    links_are_honest::<UdpLink<P>>();
    transacted_is_brought::<UdpLink<P>>();
    let walk = Walk::oldest(log)?;
    let mut transactions = Transactions::new(3);
    Some(fetch_log_ahead(
        alloc,
        link,
        &mut transactions,
        walk,
        steps,
        Form::Lines,
        out,
    ))
}

/// Over any link, a write that ends as lost was asked once, and as often again as the retries say:
/// each time the same octets, and no answer came.
pub fn written_until_lost<L: LogLink, W: Write>(
    link: &mut L,
    transactions: &mut Transactions,
    asked: &Request,
    out: &mut W,
) -> Result<(), QueryFault>
    requires { IsSendable asked.now }
    ensures { result ≡ Err (QueryFault.Exchange ExchangeFault.Lost)
        → Unanswered L.asks (request_octets (towards transactions.old.route)
        (next_invoke transactions.old.invoke) asked.now) (transactions.old.retries + 1)
        link.old link.new }
{
    write_property(link, transactions, asked, out)
}

/// Over a port that is honest for a log, whatever records it holds: what is printed from
/// number s on, if no write was refused, are the lines of the records that the log holds when each
/// is reached, each once, in rising order, with the gaps before them, and the end line; and the
/// only fault that it tells is a loss.
pub fn printed_by_the_standard<P: Port, W: Write>(
    alloc: Global,
    link: &mut UdpLink<P>,
    log: ObjectId,
    s: u32,
    steps: u32,
    out: &mut W,
) -> Option<Result<Fetched, QueryFault>>
    ensures { IfSome result (λ fetched. IfOk fetched
        (λ done. (M : List Moment) (H : History) (k low : ℕ)
        → IsHonest (port_asks P.sends P.receives)
        (asked_log (towards None) log 100) H low link.old M
        → s ≡ sequence_number k → 0 < length M → NeverGoesBack M → AreInWindow low M
        → low ≤ k → k < low + 2147483648 → (items : List Item) × (a : ℕ) × (t : ℕ)
        × (done.next ≡ sequence_number t) × DeliversTo H k items t M a
        × Appends (W.contents out.old) (W.contents out.new)
        (items_text items ++ end_line done.why done.next)
        × ((e : WalkFaultOf) → done.why ≡ Why.Fault e → e ≡ Loss))) }
{
    // For the prover alone, all three: laws that the contract follows from.
    honest_is_delivered::<UdpLink<P>>();
    links_are_honest::<UdpLink<P>>();
    transacted_is_brought::<UdpLink<P>>();
    let walk = Walk::from_number(log, s)?;
    let mut transactions = Transactions::new(3);
    Some(fetch_log_ahead(
        alloc,
        link,
        &mut transactions,
        walk,
        steps,
        Form::Lines,
        out,
    ))
}
