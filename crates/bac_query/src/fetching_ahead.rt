//! Fetching the records of a trend log, whose lines are printed while the next answer is waited
//! for.

ghost use Rattle.std.specs.Prelude.{◌≡◌, ◌≢◌, ◌≤◌, ◌+◌, ◌*◌, [], false, List, Option, None, IfOk};
ghost use Rattle.std.specs.Prelude.{OnOk};
ghost use Rattle.bac_link.specs.Exchanges.{client};
ghost use Rattle.bac_link.specs.Path.{towards};
ghost use Rattle.bac_link.specs.declared.item.Item.{Item as ItemOf};
ghost use Rattle.bac_walk.specs.declared.outcome.Ended.{Ended as EndedOf};
ghost use Rattle.bac_walk.specs.declared.outcome.WalkFault.{WalkFault as FaultOf};
ghost use Rattle.bac_query.specs.Ahead.{FetchesAhead, IsRunOver, PrintsLeft, PrintsOn, PrintsRun};
ghost use Rattle.bac_query.specs.Ahead.{errand, pending, port_asks};
ghost use Rattle.bac_query.specs.Fetching.{course, failing};
ghost use Rattle.bac_query.specs.Flaws.{IsBadlyFetched, IsFlawed, TellsFlaw, last_flaw, with_flaw};
ghost use Rattle.bac_query.specs.Flaws.{log_place};
ghost use Rattle.bac_query.specs.Reading.{printing};

use crate::ahead::{Ahead, Reply};
use crate::fault::QueryFault;
use crate::fetching::Fetched;
use crate::more::more_last;
use bac_form::Form;
use bac_link::Transactions;
use bac_ports::{Port, UdpLink};
use bac_walk::{Ended, ReplyFlaw, Walk, WalkFault, Why, deliver};
use bac_wire::Datagram;
use std::alloc::Global;
use std::io::Write;

/// Walks a log over a port for at most so many steps, and prints a line for each record and each
/// gap, those of a reply with one write; at the end the line that says why, and which number comes
/// next. The lines of a reply are made and written once the next question is sent, while its answer
/// is on its way. If a write is refused, the records of the reply after it have come too; if there
/// is no memory for the lines of a reply, none of them is printed, and the next number is the one
/// before it. Of a bad reply it tells what is wrong, and of a walk that is caught up whether the
/// last reply with records said that more is there. As CSV there are rows in place of lines, and no
/// line at the end; the row of names is [`begin_layout`](crate::begin_layout)'s.
pub fn fetch_log_ahead<P: Port, W: Write>(
    alloc: Global,
    link: &mut UdpLink<P>,
    transactions: &mut Transactions,
    walk: Walk,
    steps: u32,
    layout: Form,
    out: &mut W,
) -> Result<Fetched, QueryFault>
    // What is printed are the lines of items, and the line that says how their run ended: so many
    // steps, or what the last exchange told.
    ensures printed { PrintsRun (errand layout walk steps) (port_asks P.sends P.receives)
        (failing link.old.failures link.new.failures)
        (printing (client link.old transactions.old) (W.contents out.old)) result
        (printing (client link.new transactions.new) (W.contents out.new)) }
    // Over any port, whoever answers, they are the lines of what the replies brought that came over
    // it from here on, each to the next transaction; and if these say what one log holds, of what
    // it held.
    ensures came { FetchesAhead (errand layout walk steps) (port_asks P.sends P.receives)
        (printing (client link.old transactions.old) (W.contents out.old)) result
        (printing (client link.new transactions.new) (W.contents out.new)) }
    // At most two transactions a step are begun.
    ensures begun { transactions.new.begun ≤ transactions.old.begun + 2 * steps }
    // If the walk ended with a bad reply, and only then, this is wrong with that reply.
    ensures flaw { TellsFlaw (port_asks P.sends P.receives) (towards transactions.old.route)
        transactions.old.retries walk.log result link.new }
{
    let mut left = Vec::new(alloc);
    let mut text = Vec::new(alloc);
    let mut ahead = Ahead::new(alloc, layout, link, out, &mut left, &mut text);
    fetch_told(alloc, &mut ahead, transactions, walk, steps)
}

/// The run, and what is wrong with a bad reply.
fn fetch_told<P: Port, W: Write>(
    alloc: Global,
    ahead: &mut Ahead<'_, P, W>,
    transactions: &mut Transactions,
    walk: Walk,
    steps: u32,
) -> Result<Fetched, QueryFault>
    requires well { ahead.old.is_refused ≡ false }
    requires none { ahead.old.left.now.items ≡ [] }
    requires unsaid { ahead.old.said_more ≡ false }
    ensures printed { PrintsRun (errand ahead.old.layout walk steps) (port_asks P.sends P.receives)
        (failing ahead.old.link.now.failures ahead.new.link.now.failures)
        (printing (client ahead.old.link.now transactions.old) (W.contents ahead.old.out.now))
        result
        (printing (client ahead.new.link.now transactions.new) (W.contents ahead.new.out.now)) }
    ensures came { FetchesAhead (errand ahead.old.layout walk steps) (port_asks P.sends P.receives)
        (printing (client ahead.old.link.now transactions.old) (W.contents ahead.old.out.now))
        result
        (printing (client ahead.new.link.now transactions.new) (W.contents ahead.new.out.now)) }
    ensures begun { transactions.new.begun ≤ transactions.old.begun + 2 * steps }
    ensures flaw { TellsFlaw (port_asks P.sends P.receives) (towards transactions.old.route)
        transactions.old.retries walk.log result ahead.new.link.now }
    ensures same_link { ahead.new.link.ghost_name ≡ ahead.old.link.ghost_name }
    ensures same_out { ahead.new.out.ghost_name ≡ ahead.old.out.ghost_name }
{
    match fetch(alloc, ahead, transactions, walk, steps) {
        Ok(fetched) => Ok(with_flaw(fetched, ahead.flaw)),
        Err(fault) => Err(fault),
    }
}

/// The same end, and if it was a bad reply, what is wrong with it.
fn with_flaw(fetched: Fetched, flaw: Option<ReplyFlaw>) -> Fetched
    ensures { result ≡ with_flaw fetched flaw }
{
    let flaw = match fetched.why {
        Why::Fault(WalkFault::BadReply) => flaw,
        _ => None,
    };
    Fetched {
        why: fetched.why,
        next: fetched.next,
        flaw,
        said_more: fetched.said_more,
    }
}

fn fetch<P: Port, W: Write>(
    alloc: Global,
    ahead: &mut Ahead<'_, P, W>,
    transactions: &mut Transactions,
    mut walk: Walk,
    steps: u32,
) -> Result<Fetched, QueryFault>
    requires well { ahead.old.is_refused ≡ false }
    requires none { ahead.old.left.now.items ≡ [] }
    requires unsaid { ahead.old.said_more ≡ false }
    ensures printed { PrintsRun (errand ahead.old.layout walk steps) (port_asks P.sends P.receives)
        (failing ahead.old.link.now.failures ahead.new.link.now.failures)
        (printing (client ahead.old.link.now transactions.old) (W.contents ahead.old.out.now))
        result
        (printing (client ahead.new.link.now transactions.new) (W.contents ahead.new.out.now)) }
    ensures came { FetchesAhead (errand ahead.old.layout walk steps) (port_asks P.sends P.receives)
        (printing (client ahead.old.link.now transactions.old) (W.contents ahead.old.out.now))
        result
        (printing (client ahead.new.link.now transactions.new) (W.contents ahead.new.out.now)) }
    ensures begun { transactions.new.begun ≤ transactions.old.begun + 2 * steps }
    ensures flaw { IfOk result (λ fetched. fetched.why ≡ Why.Fault FaultOf.BadReply
        → IsBadlyFetched (port_asks P.sends P.receives) (towards transactions.old.route)
        transactions.old.retries (log_place walk.log fetched.next) ahead.new.flaw
        ahead.new.link.now) }
    ensures same_link { ahead.new.link.ghost_name ≡ ahead.old.link.ghost_name }
    ensures same_out { ahead.new.out.ghost_name ≡ ahead.old.out.ghost_name }
{
    let mut reply = Reply {
        items: Vec::new(alloc),
    };
    // The number before the items that are left.
    let mut told = walk.next_number();
    for done in 0..steps {
        let before = walk.next_number();
        let ended = match turn(ahead, transactions, &mut walk, &mut reply) {
            Ok(ended) => ended,
            Err(QueryFault::Memory) => return ahead.end(Why::Memory, told),
            Err(fault) => return Err(fault),
        };
        let why = match ended {
            Ended::Stopped => return ahead.end(Why::Memory, before),
            ended => ended.why(),
        };
        if let Some(why) = why {
            return ahead.finish(why, walk.next_number(), before);
        }
        told = before;
    }
    ahead.finish(Why::StepLimit, walk.next_number(), told)
}

/// One step of a walk. Beside it the lines of what was left are printed, and then what the step
/// brought is left.
fn turn<P: Port, W: Write>(
    ahead: &mut Ahead<'_, P, W>,
    transactions: &mut Transactions,
    walk: &mut Walk,
    reply: &mut Reply,
) -> Result<Ended, QueryFault>
    requires { ahead.old.is_refused ≡ false }
    ensures ran { (ended : EndedOf) × (items : List ItemOf)
        × IfOk result
        (λ is. (is ≡ ended) × (ended ≢ Ended.Stopped → ahead.new.left.now.items ≡ items))
        × IsRunOver (port_asks P.sends P.receives) (client ahead.old.link.now transactions.old)
        walk.old (course items 1 ended walk.new) (client ahead.new.link.now transactions.new)
        ahead.old.said_more ahead.new.said_more }
    ensures prints { PrintsLeft ahead.old.layout ahead.old.left.now.items result
        (W.contents ahead.old.out.now) (W.contents ahead.new.out.now) }
    ensures well { OnOk result (ahead.new.is_refused ≡ false) }
    ensures layout { ahead.new.layout ≡ ahead.old.layout }
    ensures begun { transactions.new.begun ≤ transactions.old.begun + 2 }
    ensures flaw { IfOk result (λ ended. ended ≡ Ended.Fault FaultOf.BadReply
        → IsFlawed (port_asks P.sends P.receives) (towards transactions.old.route)
        transactions.old.retries walk.new ahead.new.flaw ahead.new.link.now) }
    ensures log { walk.new.log ≡ walk.old.log }
    ensures retries { transactions.new.retries ≡ transactions.old.retries }
    ensures route { transactions.new.route ≡ transactions.old.route }
    ensures same_link { ahead.new.link.ghost_name ≡ ahead.old.link.ghost_name }
    ensures same_out { ahead.new.out.ghost_name ≡ ahead.old.out.ghost_name }
{
    let ended = step(ahead, transactions, walk, reply);
    match ahead.print_left() {
        Ok(()) => {
            std::mem::swap(&mut *ahead.left, &mut reply.items);
            Ok(ended)
        }
        Err(fault) => Err(fault),
    }
}

/// One step of a walk, and what it brought.
fn step<P: Port, W: Write>(
    ahead: &mut Ahead<'_, P, W>,
    transactions: &mut Transactions,
    walk: &mut Walk,
    reply: &mut Reply,
) -> Ended
    ensures ran { (items : List ItemOf) × (result ≢ Ended.Stopped → reply.new.items.items ≡ items)
        × IsRunOver (port_asks P.sends P.receives) (client ahead.old.link.now transactions.old)
        walk.old (course items 1 result walk.new) (client ahead.new.link.now transactions.new)
        ahead.old.said_more ahead.new.said_more }
    ensures beside { PrintsOn (pending ahead.old.layout ahead.old.is_refused
        ahead.old.left.now.items (W.contents ahead.old.out.now))
        (pending ahead.new.layout ahead.new.is_refused ahead.new.left.now.items
        (W.contents ahead.new.out.now))
        × (ahead.new.link.ghost_name ≡ ahead.old.link.ghost_name)
        × (ahead.new.out.ghost_name ≡ ahead.old.out.ghost_name) }
    ensures begun { transactions.new.begun ≤ transactions.old.begun + 2 }
    ensures flaw { result ≡ Ended.Fault FaultOf.BadReply
        → IsFlawed (port_asks P.sends P.receives) (towards transactions.old.route)
        transactions.old.retries walk.new ahead.new.flaw ahead.new.link.now }
    ensures log { walk.new.log ≡ walk.old.log }
    ensures retries { transactions.new.retries ≡ transactions.old.retries }
    ensures route { transactions.new.route ≡ transactions.old.route }
{
    reply.items.clear();
    let said_more = ahead.said_more;
    let ended = deliver(ahead, transactions, walk, 1, reply);
    ahead.flaw = last_flaw(ended, walk, &ahead.last);
    ahead.said_more = more_last(said_more, ended, &ahead.last);
    ended
}

/// What is wrong with the last reply, if a step ended with a bad one.
fn last_flaw(ended: Ended, walk: &Walk, last: &Option<Datagram>) -> Option<ReplyFlaw>
    ensures { result ≡ last_flaw ended walk.now last.now }
{
    let Ended::Fault(WalkFault::BadReply) = ended else {
        return None;
    };
    match last {
        Some(datagram) => walk.flaw(datagram.octets()),
        None => None,
    }
}
