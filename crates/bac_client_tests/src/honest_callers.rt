//! What a user of walks needs who goes by what came, proved from public contracts alone.

ghost use Rattle.std.specs.Prelude.{ℕ, ◌≡◌, ◌+◌, ◌<◌, ◌≤◌, List, IfSome};
ghost use Rattle.bac_log.specs.TrendLog.{sequence_number};
ghost use Rattle.bac_link.specs.Delivery.{History, Moment, DeliversTo};
ghost use Rattle.bac_walk.specs.declared.outcome.Why.TheVariants as why;
ghost use Rattle.bac_walk.specs.declared.outcome.WalkFault.{WalkFault as WalkFaultOf};
ghost use Rattle.bac_walk.specs.declared.outcome.WalkFault.TheVariants as fault;
ghost use Rattle.bac_link.specs.Moments.{AreInWindow};
ghost use Rattle.bac_memory_link.specs.Ahead.{history_ahead, IsThere, moments_ahead, placed_all};

use bac_device::Device;
use bac_link::{LogLink, Transactions};
use bac_memory_link::{DirectLink, LinkEvent};
use bac_walk::{
    Outcome, Walk, collect, honest_is_delivered, moments_never_go_back, ours_are_honest,
};
use bac_wire::ObjectId;
use std::alloc::Global;

/// Over a link of ours whose moments lie within half of the count, the headline follows from what
/// came: the records from the ordinal of number s on that the log holds
/// when each is reached. The walk ends with no fault but a loss.
pub fn records_that_came<L: LogLink>(
    alloc: Global,
    link: &mut L,
    log: ObjectId,
    s: u32,
    steps: u32,
) -> Option<Outcome>
    ensures { IfSome result (λ outcome. (r : ℕ) (M : List Moment) (H : History) (k low : ℕ)
        → L.is_ours link.old log r M H → s ≡ sequence_number k → AreInWindow low M → low ≤ k
        → k < low + 2147483648 → ((count : ℕ) × (t : ℕ) × (outcome.next ≡ sequence_number t)
        × DeliversTo H k outcome.items.items t M count)
        × ((e : WalkFaultOf) → outcome.why ≡ why.Fault e → e ≡ fault.Lost)) }
{
    // For the prover alone, all five: laws, and numbers small enough for a request.
    honest_is_delivered::<L>();
    ours_are_honest::<L>();
    moments_never_go_back();
    let _kind = log.kind();
    let _instance = log.instance();
    let mut walk = Walk::from_number(log, s)?;
    let mut transactions = Transactions::new(3);
    Some(collect(alloc, link, &mut transactions, &mut walk, steps))
}

/// So it does over a link straight to a device, whatever happens there between its answers.
pub fn records_of_a_device(
    alloc: Global,
    device: &mut Device,
    events: &[LinkEvent],
    log: ObjectId,
    s: u32,
    steps: u32,
) -> Option<Outcome>
    ensures { IfSome result (λ outcome. (rounds k low : ℕ) → log.kind ≡ 20
        → IsThere device.old log.instance → s ≡ sequence_number k
        → AreInWindow low (placed_all rounds (moments_ahead device.old log.instance events.now))
        → low ≤ k → k < low + 2147483648
        → ((count : ℕ) × (t : ℕ) × (outcome.next ≡ sequence_number t)
        × DeliversTo (history_ahead rounds device.old log.instance events.now) k
        outcome.items.items t
        (placed_all rounds (moments_ahead device.old log.instance events.now))
        count) × ((e : WalkFaultOf) → outcome.why ≡ why.Fault e → e ≡ fault.Lost)) }
{
    let mut link = DirectLink::new(device, events);
    let outcome = records_that_came(alloc, &mut link, log, s, steps)?;
    Some(outcome)
}
