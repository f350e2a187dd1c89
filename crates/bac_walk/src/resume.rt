//! Walks that are stopped and gone on with.

ghost use Rattle.std.specs.Prelude.{false, ◌≡◌, ◌+◌, ◌<◌, ◌≤◌, ◌++◌, ℕ, List, length};
ghost use Rattle.bac_log.specs.TrendLog.{sequence_number};
ghost use Rattle.bac_link.specs.Delivery.{History, Moment, DeliversTo};
ghost use Rattle.bac_link.specs.Path.{towards};
ghost use Rattle.bac_walk.specs.Came.{BroughtInto, walk_over, reaching_by};
ghost use Rattle.bac_link.specs.declared.transactions.Transactions.{Transactions as TransactionsOf};
ghost use Rattle.bac_walk.specs.Transacted.{BroughtIntoBy, spare, walk_by};
ghost use Rattle.bac_walk.specs.Place.{WalkPlace, resumed};
ghost use Rattle.bac_link.specs.Moments.{AreInWindow};
ghost use Rattle.bac_walk.specs.Sinks.{Call, Takes, put_items, is_stopped, sink_filled};
ghost use Rattle.bac_walk.specs.Honest.{DeliversSaid};

use crate::outcome::Ended;
use crate::sink::{Sink, deliver};
use crate::walk::Walk;
use bac_link::{LogLink, Transactions};

/// A walk into one sink, and a new walk from the number where it ended into another. Over any link
/// a walk that ends at its step limit put a record at least for each step; over one of ours, all of
/// whose moments lie within half of the count, the two together deliver as one.
pub fn stop_and_resume<L: LogLink, S: Sink, R: Sink>(
    link: &mut L,
    transactions: &mut Transactions,
    walk: &mut Walk,
    steps: u32,
    sink: &mut S,
    more: u32,
    rest: &mut R,
) -> (Ended, Ended)
    ensures resumed { (first : List Call) × (second : List Call)
        × Takes S.puts sink.old first (is_stopped result.0) sink.new
        × Takes R.puts rest.old second (is_stopped result.1) rest.new
        × (result.0 ≡ Ended.StepLimit → steps ≤ length first)
        × (result.1 ≡ Ended.StepLimit → more ≤ length second)
        × ((r : ℕ) (M : List Moment) (H : History) (s low : ℕ) → walk.old.fresh ≡ false
        → L.is_ours link.old walk.old.log r M H → walk.old.next ≡ sequence_number s
        → AreInWindow low M → low ≤ s → s < low + 2147483648
        → (a : ℕ) × (t : ℕ) × (walk.new.next ≡ sequence_number t)
        × DeliversTo H s (put_items first ++ put_items second) t M a) }
    // So do they over a link that is honest for the log, unless the first walk was one
    // from the oldest record.
    ensures headline { walk.old.fresh ≡ false
        → (first : List Call) × (second : List Call)
        × Takes S.puts sink.old first (is_stopped result.0) sink.new
        × Takes R.puts rest.old second (is_stopped result.1) rest.new
        × DeliversSaid L.asks (towards transactions.old.route) (spare result.0 + spare result.1)
        (walk_over link.old walk.old) (put_items first ++ put_items second) result.1
        (walk_over link.new walk.new) }
    // Over any link: what came to the first walk, and to the second, which began at the number, and
    // on the link, where the first ended, and asks for as many records.
    ensures brought { (here : WalkPlace) × (half : L)
        × BroughtInto (reaching_by L.asks transactions.old)
        (sink_filled S.puts sink.old sink.new) (walk_over link.old walk.old) steps result.0
        (walk_over half here)
        × BroughtInto (reaching_by L.asks transactions.old)
        (sink_filled R.puts rest.old rest.new) (walk_over half (resumed here)) more result.1
        (walk_over link.new walk.new) }
    // The second went on with the transactions as the first left them.
    ensures transacted { (here : WalkPlace) × (half : L) × (between : TransactionsOf)
        × BroughtIntoBy L.asks (sink_filled S.puts sink.old sink.new)
        (walk_by link.old transactions.old walk.old) steps result.0 (walk_by half between here)
        × BroughtIntoBy L.asks (sink_filled R.puts rest.old rest.new)
        (walk_by half between (resumed here)) more result.1
        (walk_by link.new transactions.new walk.new) }
{
    let first = deliver(link, transactions, walk, steps, sink);
    *walk = walk.resumed();
    let second = deliver(link, transactions, walk, more, rest);
    (first, second)
}
