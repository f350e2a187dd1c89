//! Walks whose items are kept.

ghost use Rattle.std.specs.Prelude.{true, false, [], ◌∷◌, ◌≡◌, ℕ, ◌+◌, ◌*◌, ◌<◌, ◌≤◌, List, length};
ghost use Rattle.std.specs.Prelude.{vec_capacity};
ghost use Rattle.bac_log.specs.TrendLog.{sequence_number};
ghost use Rattle.bac_link.specs.Delivery.{History, Moment, DeliversTo};
ghost use Rattle.bac_link.specs.Path.{towards};
ghost use Rattle.bac_link.specs.Laws.{after_answers};
ghost use Rattle.bac_walk.specs.declared.outcome.Ended.{Ended as EndedOf};
ghost use Rattle.bac_link.specs.Moments.{AreInWindow};
ghost use Rattle.bac_walk.specs.Near.{IsNear, StaysNear};
ghost use Rattle.bac_walk.specs.Sinks.{IsRun, ours_around};
ghost use Rattle.bac_walk.specs.Collects.{MissingWhy, losses_of};
ghost use Rattle.bac_walk.specs.Kept.{IsKept};
ghost use Rattle.bac_walk.specs.Outcomes.{IsRunOf};
ghost use Rattle.bac_walk.specs.Rests.{rest, Rests, Misses};
ghost use Rattle.bac_walk.specs.Told.{Told, ended_of};
ghost use Rattle.bac_walk.specs.Came.{Came, Brought, walk_over, reaching_by};
ghost use Rattle.bac_walk.specs.Transacted.{BroughtBy, spare, walk_by};
ghost use Rattle.bac_walk.specs.Growing.{DeliversGrowing};
ghost use Rattle.bac_walk.specs.Honest.{DeliversSaid};

use crate::batch::{Gap, Numbered};
use crate::outcome::{Outcome, Why};
use crate::sink::{Sink, deliver};
use crate::walk::Walk;
use bac_link::{Item, LogLink, Transactions};
use std::alloc::Global;

// A sink that keeps what it is given, as far as it has room.
#[derive(Drop)]
struct Kept {
    items: Vec<Item>,
}

impl Sink for Kept {
    ghost puts = { λ old gap item taken new. IsKept (vec_capacity old.items) old.items.items gap
        item taken (vec_capacity new.items) new.items.items };

    fn put(&mut self, gap: Option<Gap>, item: Numbered) -> bool {
        let needed = match gap {
            Some(_) => 2,
            None => 1,
        };
        if self.items.capacity() - self.items.len() < needed {
            return false;
        }
        if let Some(gap) = gap {
            self.items.push_reserved(Item::Gap {
                first: gap.first,
                before: gap.before,
            });
        }
        self.items.push_reserved(Item::Logged {
            number: item.number,
            entry: item.entry,
        });
        true
    }
}

/// At most so many steps of a walk, and what they brought: a step is one batch, or the finding that
/// there is none. Room for 101 items is made before each step, so if there is none (`Memory`)
/// nothing of that step was asked, and the next number is right. After a fault the items and the
/// next number of all steps before it stand. "Caught up" says that at some answer after the last
/// batch no record was as new as the next number, not that nothing was logged since.
pub fn collect<L: LogLink>(
    alloc: Global,
    link: &mut L,
    transactions: &mut Transactions,
    walk: &mut Walk,
    steps: u32,
) -> Outcome
    ensures next { result.next ≡ walk.new.next }
    ensures oldest { walk.new.fresh ≡ true → result.next ≡ 1 }
    ensures log { walk.new.log ≡ walk.old.log }
    ensures count { walk.new.count ≡ walk.old.count }
    ensures begun { transactions.new.begun ≤ transactions.old.begun + 2 * steps }
    ensures retries { transactions.new.retries ≡ transactions.old.retries }
    ensures route { transactions.new.route ≡ transactions.old.route }
    ensures never_falls { L.failures link.old ≤ L.failures link.new }
    // Without steps nothing happens.
    ensures none { steps ≡ 0 → (result.why ≡ Why.StepLimit) × (result.items.items ≡ [])
        × (walk.new ≡ walk.old) × (link.new ≡ link.old)
        × (transactions.new ≡ transactions.old) }
    // Over any link, so many steps brought a record each at least, or the last exchange told the
    // fault, or that there is no more.
    ensures limit { result.why ≡ Why.StepLimit → steps ≤ length result.items.items }
    ensures told { Told L.asks (towards transactions.old.route) transactions.old.retries
        (ended_of result.why) walk.new link.new }
    // Over any link: what came, and that the items are those of these replies.
    ensures brought { (n : ℕ) × (ended : EndedOf) × IsRunOf result.why steps n ended
        × ((came : List Came)
        × Brought (reaching_by L.asks transactions.old) (walk_over link.old walk.old) n came
        result.items.items ended (walk_over link.new walk.new)) }
    // Each exchange is the next of the transactions, and none is open after it: two replies a batch
    // at most, and two more.
    ensures transacted { (n : ℕ) × (ended : EndedOf) × IsRunOf result.why steps n ended
        × ((came : List Came)
        × BroughtBy L.asks (walk_by link.old transactions.old walk.old) n came result.items.items
        ended (walk_by link.new transactions.new walk.new)) }
    // The headline: over a link that is honest for the log, whatever records it holds and however
    // it encodes them, it delivers the records from its number on that the log holds when each is
    // reached, each once, in rising order, with one exact gap for what is gone; and the only fault
    // is a loss. The number is that of ordinal s; it and all moments lie within half of the count
    // from one ordinal on.
    ensures headline { DeliversSaid L.asks (towards transactions.old.route)
        (spare (ended_of result.why)) (walk_over link.old walk.old) result.items.items
        (ended_of result.why) (walk_over link.new walk.new) }
    // So it does over a link that stays honest while its log goes on, between any two asks, and
    // that may lose any: for as many asks as these steps may make, and then for the asks that are
    // left.
    ensures growing { DeliversGrowing (reaching_by L.asks transactions.old)
        (walk_over link.old walk.old) steps result.items.items (ended_of result.why)
        (walk_over link.new walk.new) }
    // Over a link of ours it does so too, and the link is ours still, at the moments that are left.
    ensures ours { (r : ℕ) (M : List Moment) (H : History) (s low : ℕ)
        → L.is_ours link.old walk.old.log r M H → walk.old.next ≡ sequence_number s
        → AreInWindow low M → (walk.old.fresh ≡ false → (low ≤ s) × (s < low + 2147483648))
        → (b : ℕ) × (a : ℕ) × (t : ℕ) × (walk.old.fresh ≡ false → b ≡ s)
        × (walk.new.next ≡ sequence_number t) × DeliversTo H b result.items.items t M a
        × L.is_ours link.new walk.old.log r (after_answers a M) H }
    // So it does if the walk is near its log wherever these steps bring it: less than half of the
    // count away from the oldest record held.
    ensures near { (r : ℕ) (M : List Moment) (H : History) (s : ℕ)
        → L.is_ours link.old walk.old.log r M H → walk.old.next ≡ sequence_number s
        → StaysNear r walk.old.count H M walk.old.fresh s steps
        → (b : ℕ) × (a : ℕ) × (t : ℕ) × (walk.old.fresh ≡ false → b ≡ s)
        × (walk.new.next ≡ sequence_number t) × DeliversTo H b result.items.items t M a
        × L.is_ours link.new walk.old.log r (after_answers a M) H }
    // It is a run of so many steps, or of fewer that had no memory for the next, of which nothing
    // was asked: over any link, and over one of ours with all that its answers brought and how it
    // ended.
    ensures delivers { (n : ℕ) × (ended : EndedOf) × IsRunOf result.why steps n ended
        × IsRun (ours_around (λ r M H. L.is_ours link.old walk.old.log r M H)
        (λ r M H. L.is_ours link.new walk.old.log r M H))
        (losses_of transactions.old.retries (L.failures link.old) (L.failures link.new)) walk.old
        walk.new n ended result.items.items
        × (length result.items.items ≤ 101 * n)
        × (transactions.new.begun ≤ transactions.old.begun + 2 * n) }
    // Over a link that loses nothing, of a log that doesn't change, or that the link lacks.
    ensures resting { (r : ℕ) (m : Moment) (H : History) (s : ℕ)
        → L.is_sure link.old (towards transactions.old.route)
        → L.is_ours link.old walk.old.log r (m ∷ []) H → walk.old.next ≡ sequence_number s
        → (walk.old.fresh ≡ false → IsNear s m)
        → Rests (rest r walk.old.count H m walk.old.fresh s steps) steps result.items.items
        result.next result.why }
    ensures missing { L.lacks link.old walk.old.log
        → L.is_sure link.old (towards transactions.old.route)
        → Misses steps walk.old.next result.items.items result.next result.why }
    // Whether it loses questions or not, nothing comes of a log that the link lacks.
    ensures unknown { L.lacks link.old walk.old.log →
        (result.items.items ≡ []) × (result.next ≡ walk.old.next) × MissingWhy steps result.why }
    ensures lacking { L.lacks link.old walk.old.log → L.lacks link.new walk.old.log }
    ensures sure { L.is_sure link.old (towards transactions.old.route)
        → L.is_sure link.new (towards transactions.new.route) }
    // Asking over such a link changes nothing.
    ensures kept { L.is_sure link.old (towards transactions.old.route) → L.keeps link.old link.new }
{
    let mut kept = Kept {
        items: Vec::new(alloc),
    };
    for done in 0..steps {
        if !make_room(&mut kept) {
            return Outcome {
                items: kept.items,
                next: walk.next_number(),
                why: Why::Memory,
            };
        }
        let ended = deliver(link, transactions, walk, 1, &mut kept);
        if let Some(why) = ended.why() {
            return Outcome {
                items: kept.items,
                next: walk.next_number(),
                why,
            };
        }
    }
    Outcome {
        items: kept.items,
        next: walk.next_number(),
        why: Why::StepLimit,
    }
}

// Makes room for the items of a step; false if there is no memory.
fn make_room(kept: &mut Kept) -> bool
    ensures items { kept.new.items.items ≡ kept.old.items.items }
    ensures room { result ≡ true → length kept.new.items.items + 101 ≤ vec_capacity kept.new.items }
{
    kept.items.reserve(101).is_ok()
}
