//! What a user of walks needs who walks again, proved from their public contracts alone.

ghost use Rattle.std.specs.Prelude.{ℕ, ◌≡◌, ◌≢◌, ◌+◌, ◌-◌, ◌<◌, ◌≤◌, ◌⊎◌, max, [], ◌∷◌, None};
ghost use Rattle.std.specs.Prelude.{IfSome, All};
ghost use Rattle.bac_log.specs.Entry.{IsLoggable};
ghost use Rattle.bac_log.specs.TrendLog.{sequence_number};
ghost use Rattle.bac_link.specs.Delivery.{History, Moment};
ghost use Rattle.bac_link.specs.Moments.{log_at};
ghost use Rattle.bac_link.specs.Path.{towards};
ghost use Rattle.bac_walk.specs.declared.outcome.Why.TheVariants as why;
ghost use Rattle.bac_link.specs.Moments.{IsInWindow};
ghost use Rattle.bac_walk.specs.Near.{IsNear};

use bac_link::{LogLink, Transactions};
use bac_walk::{Outcome, Walk, collect, rests_all};
use bac_wire::ObjectId;
use std::alloc::Global;

/// Over a link that loses nothing, of a log that doesn't change: after a walk with steps enough,
/// another brings nothing and is caught up at the same number, unless memory runs out.
pub fn nothing_more<L: LogLink>(
    alloc: Global,
    link: &mut L,
    log: ObjectId,
    s: u32,
    steps: u32,
) -> Option<(Outcome, Outcome)>
    ensures { IfSome result (λ both. (r : ℕ) (m : Moment) (H : History) (k low : ℕ)
        → L.is_sure link.old (towards None) → L.is_ours link.old log r (m ∷ []) H
        → s ≡ sequence_number k → IsNear k m → IsInWindow low m → low ≤ k → k < low + 2147483648
        → All IsLoggable (log_at m H).entries → (m.newest + 1) - max k m.oldest < steps
        → both.0.why ≢ why.Memory → (both.1.why ≡ why.Memory)
        ⊎ ((both.1.items.items ≡ []) × (both.1.next ≡ both.0.next)
        × (both.1.why ≡ why.CaughtUp))) }
{
    rests_all();
    let mut walk = Walk::from_number(log, s)?;
    let mut transactions = Transactions::new(0);
    let first = collect(alloc, link, &mut transactions, &mut walk, steps);
    let mut more = Walk::from_number(log, first.next)?;
    let second = collect(alloc, link, &mut transactions, &mut more, steps);
    Some((first, second))
}
