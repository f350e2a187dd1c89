//! What a user of walks needs, proved from their public contracts alone.

ghost use Rattle.std.specs.Prelude.{ℕ, ◌≡◌, ◌+◌, ◌-◌, ◌<◌, ◌≤◌, ◌⊎◌, max, List, [], ◌∷◌, None};
ghost use Rattle.std.specs.Prelude.{IfSome};
ghost use Rattle.bac_log.specs.TrendLog.{sequence_number};
ghost use Rattle.bac_link.specs.Delivery.{History, Moment, DeliversTo};
ghost use Rattle.bac_link.specs.Laws.{after_answers};
ghost use Rattle.bac_link.specs.Exchanges.{Unanswered};
ghost use Rattle.bac_link.specs.Links.{question};
ghost use Rattle.bac_link.specs.Path.{towards};
ghost use Rattle.bac_link.specs.Requests.{request_octets};
ghost use Rattle.bac_walk.specs.declared.outcome.Why.TheVariants as why;
ghost use Rattle.bac_walk.specs.Collects.{MissingWhy};
ghost use Rattle.bac_link.specs.Moments.{AreInWindow};
ghost use Rattle.bac_walk.specs.Near.{IsNear};
ghost use Rattle.bac_walk.specs.Rests.{Misses, rest_all};
ghost use Rattle.bac_walk.specs.Told.{ToldFault};
ghost use Rattle.bac_walk.specs.Walks.{question_of};
ghost use Rattle.bac_walk.specs.declared.outcome.WalkFault.TheVariants as fault;

use bac_link::{LogLink, Transactions};
use bac_memory_link::RoutedLink;
use bac_walk::{Outcome, Walk, collect, replies_are_loggable, rests_all};
use bac_wire::ObjectId;
use std::alloc::Global;

/// Over every link of ours whose moments lie within half of the count, steps from number s on
/// deliver the records from its ordinal on that the log holds when each is reached, and the link
/// has that many moments less.
pub fn records_from<L: LogLink>(
    alloc: Global,
    link: &mut L,
    log: ObjectId,
    s: u32,
    steps: u32,
) -> Option<Outcome>
    ensures { IfSome result (λ outcome. (r : ℕ) (M : List Moment) (H : History) (k low : ℕ)
        → L.is_ours link.old log r M H → s ≡ sequence_number k → AreInWindow low M → low ≤ k
        → k < low + 2147483648 → (count : ℕ) × (t : ℕ) × (outcome.next ≡ sequence_number t)
        × DeliversTo H k outcome.items.items t M count
        × L.is_ours link.new log r (after_answers count M) H) }
{
    let Some(mut walk) = Walk::from_number(log, s) else {
        return None;
    };
    let mut transactions = Transactions::new(3);
    Some(collect(alloc, link, &mut transactions, &mut walk, steps))
}

/// Over a link that loses nothing, of a log that doesn't change, more steps than records bring all
/// that it holds from the ordinal of number s on which is near, unless memory runs out.
pub fn all_records_from<L: LogLink>(
    alloc: Global,
    link: &mut L,
    log: ObjectId,
    s: u32,
    steps: u32,
) -> Option<Outcome>
    ensures { IfSome result (λ outcome. (r : ℕ) (m : Moment) (H : History) (k : ℕ)
        → L.is_sure link.old (towards None) → L.is_ours link.old log r (m ∷ []) H
        → s ≡ sequence_number k → IsNear k m → (m.newest + 1) - max k m.oldest < steps
        → (outcome.why ≡ why.Memory) ⊎ (outcome.items.items ≡ (rest_all H m k).items)) }
{
    // For the prover alone, all four: laws, and numbers small enough for a request.
    rests_all();
    replies_are_loggable::<L>();
    let _kind = log.kind();
    let _instance = log.instance();
    let Some(mut walk) = Walk::from_number(log, s) else {
        return None;
    };
    let mut transactions = Transactions::new(0);
    Some(collect(alloc, link, &mut transactions, &mut walk, steps))
}

/// Without steps nothing is asked, over any link.
pub fn no_steps<L: LogLink>(
    alloc: Global,
    link: &mut L,
    transactions: &mut Transactions,
    walk: &mut Walk,
) -> Outcome
    ensures { (result.why ≡ why.StepLimit) × (result.items.items ≡ []) × (link.new ≡ link.old)
        × (transactions.new ≡ transactions.old) }
{
    collect(alloc, link, transactions, walk, 0)
}

/// Over any link, a walk that ends as lost asked its last question once, and as often again as the
/// retries say, and no answer came.
pub fn lost_after_all_tries<L: LogLink>(
    alloc: Global,
    link: &mut L,
    transactions: &mut Transactions,
    walk: &mut Walk,
    steps: u32,
) -> Outcome
    ensures { result.why ≡ why.Fault fault.Lost
        → (before : L) × (invoke : ℕ) × Unanswered L.asks
        (request_octets (towards transactions.old.route) invoke
        (question walk.new.log (question_of walk.new))) (transactions.old.retries + 1)
        before link.new }
{
    collect(alloc, link, transactions, walk, steps)
}

/// Over any link, a walk that ends with a bad reply had one to its last question: an answer of
/// another service, or an ACK that a walk there can't take. The retries stay as they were.
pub fn bad_replies_came<L: LogLink>(
    alloc: Global,
    link: &mut L,
    transactions: &mut Transactions,
    walk: &mut Walk,
    steps: u32,
) -> Outcome
    ensures told { result.why ≡ why.Fault fault.BadReply
        → ToldFault L.asks (towards transactions.old.route) transactions.old.retries fault.BadReply
        walk.new link.new }
    ensures retries { transactions.new.retries ≡ transactions.old.retries }
{
    collect(alloc, link, transactions, walk, steps)
}

/// Over a link that loses nothing and lacks the log, a second walk ends as the first does.
pub fn missing_twice<L: LogLink>(
    alloc: Global,
    link: &mut L,
    log: ObjectId,
    s: u32,
    steps: u32,
) -> Option<(Outcome, Outcome)>
    ensures { IfSome result (λ both. L.lacks link.old log → L.is_sure link.old (towards None)
        → Misses steps s both.0.items.items both.0.next both.0.why
        × Misses steps s both.1.items.items both.1.next both.1.why) }
{
    let mut walk = Walk::from_number(log, s)?;
    let mut again = Walk::from_number(log, s)?;
    let mut transactions = Transactions::new(0);
    let first = collect(alloc, link, &mut transactions, &mut walk, steps);
    let second = collect(alloc, link, &mut transactions, &mut again, steps);
    Some((first, second))
}

/// Through a router a walk of a log that the link behind it lacks brings nothing and stays where it
/// is, whether questions are lost or not: it ends as lost or refused, or has no memory.
pub fn nothing_through_a_router<L: LogLink>(
    alloc: Global,
    link: &mut RoutedLink<L>,
    transactions: &mut Transactions,
    log: ObjectId,
    s: u32,
    steps: u32,
) -> Option<Outcome>
    ensures { IfSome result (λ outcome. L.lacks link.old.inner log →
        (outcome.items.items ≡ []) × (outcome.next ≡ s) × MissingWhy steps outcome.why) }
{
    let mut walk = Walk::from_number(log, s)?;
    Some(collect(alloc, link, transactions, &mut walk, steps))
}
