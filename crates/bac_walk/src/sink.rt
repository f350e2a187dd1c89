//! Walks that hand on one record at a time.

ghost use Rattle.std.specs.Prelude.{◌≡◌, ◌≤◌, ◌+◌, ◌*◌, ℕ, Bool, Option, List};
ghost use Rattle.bac_log.specs.TrendLog.{sequence_number};
ghost use Rattle.bac_link.specs.Delivery.{History, Moment};
ghost use Rattle.bac_link.specs.Path.{towards};
ghost use Rattle.bac_walk.specs.declared.batch.Gap.{Gap as GapOf};
ghost use Rattle.bac_walk.specs.declared.batch.Numbered.{Numbered as NumberedOf};
ghost use Rattle.bac_walk.specs.Near.{StaysNear};
ghost use Rattle.bac_walk.specs.Sinks.{Call, PutAll, Delivery, IsDelivered, IsDeliveredNear, Takes};
ghost use Rattle.bac_walk.specs.Sinks.{sink_filled, ours_around};
ghost use Rattle.bac_walk.specs.Sinks.{is_stopped, put_items};
ghost use Rattle.bac_walk.specs.Handing.{HandedOn};
ghost use Rattle.bac_walk.specs.Replied.{step_of};
ghost use Rattle.bac_walk.specs.Spelled.{IsWhole, records_from};
ghost use Rattle.bac_walk.specs.Collects.{FoundEnd, MissingEnd, losses_of};
ghost use Rattle.bac_walk.specs.Told.{Told};
ghost use Rattle.bac_walk.specs.Came.{BroughtInto, walk_over, reaching_by};
ghost use Rattle.bac_walk.specs.Transacted.{BroughtIntoBy, spare, walk_by};
ghost use Rattle.bac_walk.specs.Growing.{DeliversGrowing};
ghost use Rattle.bac_walk.specs.Honest.{DeliversSaid};

use crate::batch::{Gap, Numbered};
use crate::outcome::{Ended, WalkFault};
use crate::read::{items_of, next_record};
use crate::reply::Replied;
use crate::walk::{Walk, number_after};
use bac_link::{LogLink, Transactions};

/// Takes records one at a time.
pub trait Sink {
    /// What putting a record makes of it: the sink before, the gap, the record, the answer, the
    /// sink after.
    ghost puts: { Self → Option GapOf → NumberedOf → Bool → Self → Type 0 };

    /// Takes a record, with the gap before it; false if it wants no more.
    fn put(&mut self, gap: Option<Gap>, item: Numbered) -> bool
        ensures { puts self.old gap item result self.new };
}

/// At most so many steps of a walk, whose records are put into a sink one after the other, until
/// one is answered with false: then it ends as `Stopped`, drops the rest of that reply, and the
/// walk goes on after that record. A reply is kept as the octets that came and checked whole before
/// its first record is put; each record is decoded as it is put. It takes no memory. Over every
/// link it puts at most 100 records a step, at most one of them with a gap, and begins at most two
/// transactions a step.
pub fn deliver<L: LogLink, S: Sink>(
    link: &mut L,
    transactions: &mut Transactions,
    walk: &mut Walk,
    steps: u32,
    sink: &mut S,
) -> Ended
    ensures never_falls { L.failures link.old ≤ L.failures link.new }
    ensures retries { transactions.new.retries ≡ transactions.old.retries }
    ensures route { transactions.new.route ≡ transactions.old.route }
    ensures begun { transactions.new.begun ≤ transactions.old.begun + 2 * steps }
    ensures log { walk.new.log ≡ walk.old.log }
    ensures count { walk.new.count ≡ walk.old.count }
    // Without steps nothing happens.
    ensures none { steps ≡ 0 → (result ≡ Ended.StepLimit) × (sink.new ≡ sink.old)
        × (walk.new ≡ walk.old) × (link.new ≡ link.old)
        × (transactions.new ≡ transactions.old) }
    // Over any link, the last exchange told the fault, or that there is no more.
    ensures told { Told L.asks (towards transactions.old.route) transactions.old.retries result
        walk.new link.new }
    // Over any link: what came, and that what is put is what these replies brought.
    ensures brought { BroughtInto (reaching_by L.asks transactions.old)
        (sink_filled S.puts sink.old sink.new) (walk_over link.old walk.old) steps result
        (walk_over link.new walk.new) }
    // Each exchange is the next of the transactions, and none is open after it: two replies a batch
    // at most, and two more.
    ensures transacted { BroughtIntoBy L.asks (sink_filled S.puts sink.old sink.new)
        (walk_by link.old transactions.old walk.old) steps result
        (walk_by link.new transactions.new walk.new) }
    // The headline: over a link that is honest for the log, whatever records it holds and however
    // it encodes them, it delivers the records from its number on that the log holds when each is
    // reached, each once, in rising order, with one exact gap for what is gone; and the only fault
    // is a loss.
    ensures headline { (calls : List Call)
        × Takes S.puts sink.old calls (is_stopped result) sink.new
        × DeliversSaid L.asks (towards transactions.old.route) (spare result)
        (walk_over link.old walk.old) (put_items calls) result (walk_over link.new walk.new) }
    // So it does over a link that stays honest while its log goes on, between any two asks, and
    // that may lose any: for as many asks as these steps may make, and then for the asks that are
    // left.
    ensures growing { (calls : List Call) × Takes S.puts sink.old calls (is_stopped result) sink.new
        × DeliversGrowing (reaching_by L.asks transactions.old)
        (walk_over link.old walk.old) steps (put_items calls) result (walk_over link.new walk.new) }
    // Over a link of ours it does so too, and the link is ours still, at the moments that are left.
    ensures ours { (calls : List Call) × Takes S.puts sink.old calls (is_stopped result) sink.new
        × IsDelivered (λ r M H. L.is_ours link.old walk.old.log r M H)
        (λ r M H. L.is_ours link.new walk.old.log r M H) walk.old walk.new (put_items calls) }
    // So it does if the walk is near its log wherever these steps bring it.
    ensures near { (calls : List Call) × Takes S.puts sink.old calls (is_stopped result) sink.new
        × IsDeliveredNear (λ r M H. L.is_ours link.old walk.old.log r M H)
        (λ r M H. L.is_ours link.new walk.old.log r M H) walk.old walk.new steps
        (put_items calls) }
    // It is a run of so many steps, with all that its answers brought and how it ended.
    ensures delivers { Delivery (sink_filled S.puts sink.old sink.new)
        (ours_around (λ r M H. L.is_ours link.old walk.old.log r M H)
        (λ r M H. L.is_ours link.new walk.old.log r M H))
        (losses_of transactions.old.retries (L.failures link.old) (L.failures link.new)) walk.old
        walk.new steps result }
    // Over a link that loses nothing, nothing is lost, and asking changes nothing.
    ensures sure { L.is_sure link.old (towards transactions.old.route)
        → L.is_sure link.new (towards transactions.new.route) }
    ensures kept { L.is_sure link.old (towards transactions.old.route) → L.keeps link.old link.new }
    ensures answered { (r : ℕ) (M : List Moment) (H : History) (s : ℕ)
        → L.is_sure link.old (towards transactions.old.route)
        → L.is_ours link.old walk.old.log r M H → walk.old.next ≡ sequence_number s
        → StaysNear r walk.old.count H M walk.old.fresh s steps → FoundEnd result }
    // A device without the log says so.
    ensures lacking { L.lacks link.old walk.old.log
        → MissingEnd steps result × (sink.new ≡ sink.old) × (walk.new.next ≡ walk.old.next)
        × L.lacks link.new walk.old.log }
    ensures refused { L.lacks link.old walk.old.log
        → L.is_sure link.old (towards transactions.old.route) → FoundEnd result }
{
    for done in 0..steps {
        match deliver_step(link, transactions, walk, sink) {
            Ended::StepLimit => {}
            ended => return ended,
        }
    }
    Ended::StepLimit
}

// One step of a walk into a sink.
fn deliver_step<L: LogLink, S: Sink>(
    link: &mut L,
    transactions: &mut Transactions,
    walk: &mut Walk,
    sink: &mut S,
) -> Ended
    ensures never_falls { L.failures link.old ≤ L.failures link.new }
    ensures retries { transactions.new.retries ≡ transactions.old.retries }
    ensures route { transactions.new.route ≡ transactions.old.route }
    ensures begun { transactions.new.begun ≤ transactions.old.begun + 2 }
    ensures log { walk.new.log ≡ walk.old.log }
    ensures count { walk.new.count ≡ walk.old.count }
    ensures told { Told L.asks (towards transactions.old.route) transactions.old.retries result
        walk.new link.new }
    ensures brought { BroughtInto (reaching_by L.asks transactions.old)
        (sink_filled S.puts sink.old sink.new) (walk_over link.old walk.old) 1 result
        (walk_over link.new walk.new) }
    ensures transacted { BroughtIntoBy L.asks (sink_filled S.puts sink.old sink.new)
        (walk_by link.old transactions.old walk.old) 1 result
        (walk_by link.new transactions.new walk.new) }
    ensures delivers { Delivery (sink_filled S.puts sink.old sink.new)
        (ours_around (λ r M H. L.is_ours link.old walk.old.log r M H)
        (λ r M H. L.is_ours link.new walk.old.log r M H))
        (losses_of transactions.old.retries (L.failures link.old) (L.failures link.new)) walk.old
        walk.new 1 result }
    ensures sure { L.is_sure link.old (towards transactions.old.route)
        → L.is_sure link.new (towards transactions.new.route) }
    ensures kept { L.is_sure link.old (towards transactions.old.route) → L.keeps link.old link.new }
    ensures answered { (r : ℕ) (M : List Moment) (H : History) (s : ℕ)
        → L.is_sure link.old (towards transactions.old.route)
        → L.is_ours link.old walk.old.log r M H → walk.old.next ≡ sequence_number s
        → StaysNear r walk.old.count H M walk.old.fresh s 1 → FoundEnd result }
    ensures lacking { L.lacks link.old walk.old.log
        → MissingEnd 1 result × (sink.new ≡ sink.old) × (walk.new.next ≡ walk.old.next)
        × L.lacks link.new walk.old.log }
    ensures refused { L.lacks link.old walk.old.log
        → L.is_sure link.old (towards transactions.old.route) → FoundEnd result }
{
    let replied = walk.reply(link, transactions);
    // For the prover alone: the next number is a sequence number.
    let _next = walk.next_number();
    hand_on(walk, replied, sink)
}

// Puts the records of a step's reply into a sink. The walk goes back to the record that stops it.
fn hand_on<S: Sink>(walk: &mut Walk, replied: Result<Replied, WalkFault>, sink: &mut S) -> Ended
    ensures { HandedOn S.puts sink.old walk.old (step_of replied) result walk.new sink.new }
{
    let reply = match replied {
        Err(fault) => return Ended::Fault(fault),
        Ok(Replied::CaughtUp) => return Ended::CaughtUp,
        Ok(Replied::Reply(reply)) => reply,
    };
    match put_all(sink, reply.gap, reply.first, items_of(&reply)) {
        None => Ended::StepLimit,
        Some(number) => {
            walk.go_on_at(number_after(number, 1));
            Ended::Stopped
        }
    }
}

// Puts the records of octets that are right as a whole, each decoded as it is put, until one is
// answered with false: the number of that one. The gap goes with the first.
fn put_all<S: Sink>(sink: &mut S, gap: Option<Gap>, first: u32, octets: &[u8]) -> Option<u32>
    requires { IsWhole first octets.now }
    ensures { PutAll S.puts sink.old gap (records_from first octets.now) result sink.new }
{
    let mut before = gap;
    let mut number = first;
    let mut rest = octets;
    for taken in 0..octets.len() {
        let Some((entry, after)) = next_record(rest) else {
            return None;
        };
        if !sink.put(before, Numbered { number, entry }) {
            return Some(number);
        }
        before = None;
        number = number_after(number, 1);
        rest = after;
    }
    None
}
