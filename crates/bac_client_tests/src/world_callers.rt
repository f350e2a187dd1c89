//! What a user of a walk over a network needs, proved from public contracts alone.

ghost use Rattle.std.specs.Prelude.{ℕ, ◌≡◌, ◌+◌, ◌<◌, ◌≤◌, ◌↔◌, ◌∷◌, ◌++◌, List, length, IfOk};
ghost use Rattle.std.specs.Prelude.{IfSome, IsSome};
ghost use Rattle.bac_log.specs.TrendLog.{sequence_number};
ghost use Rattle.bac_link.specs.Delivery.{DeliversTo};
ghost use Rattle.bac_link.specs.Moments.{AreInWindow};
ghost use Rattle.bac_walk.specs.Place.{walk_at};
ghost use Rattle.bac_memory_link.specs.Ahead.{IsThere};
ghost use Rattle.bac_world.specs.declared.event.WorldEvent.TheVariants.{Deliver as Delivers};
ghost use Rattle.bac_world.specs.Network.{started};
ghost use Rattle.bac_world.specs.Runs.{history_of, moments_of};
ghost use Rattle.bac_world.specs.Sources.{WasAnswered};
ghost use Rattle.bac_world.specs.Views.{network_of};

use bac_device::Device;
use bac_walk::Walk;
use bac_wire::ObjectId;
use bac_world::{Memory, World, WorldEvent, windows_stay_near};
use std::alloc::Global;

/// Whatever a network makes of the packets between a device and a walk from number s on, the walk
/// delivers the records from its ordinal on that the log held when it answered: the moments and the
/// history are those that the device and the events lead to, however many rounds of numbers further
/// on, if they lie within half of the count.
pub fn records_over_a_network(
    alloc: Global,
    device: Device,
    log: ObjectId,
    s: u32,
    retries: u8,
    events: &[WorldEvent],
) -> Option<Result<World, Memory>>
    ensures is_some { IsSome result ↔ (0 < s) × (log.kind ≡ 20) }
    ensures delivers { IfSome result (λ played. IfOk played
        (λ world. (rounds k low : ℕ) → IsThere device log.instance → s ≡ sequence_number k
        → AreInWindow low (moments_of rounds log.instance
        (started device (walk_at log s) retries) events.now) → low ≤ k
        → k < low + 2147483648 → (t : ℕ)
        × ((network_of world).walk.next ≡ sequence_number t)
        × DeliversTo (history_of rounds log.instance
        (started device (walk_at log s) retries) events.now) k
        (network_of world).items t (moments_of rounds log.instance
        (started device (walk_at log s) retries) events.now)
        (length (moments_of rounds log.instance
        (started device (walk_at log s) retries) events.now)))) }
    // What the walk takes as a reply is the device's: an event before brought the device the open
    // request, and this is its answer to it.
    ensures answered { IfSome result (λ played. IfOk played
        (λ world. IsThere device log.instance
        → (before : List WorldEvent) (k : ℕ) (after : List WorldEvent)
        → events.now ≡ before ++ Delivers k ∷ after
        → WasAnswered (started device (walk_at log s) retries) before k)) }
{
    // For the prover alone: a law that the contract follows from.
    windows_stay_near();
    let Some(walk) = Walk::from_number(log, s) else {
        return None;
    };
    let mut world = World::new(alloc, device, walk, retries);
    match world.play_all(events) {
        Ok(_) => Some(Ok(world)),
        Err(Memory) => Some(Err(Memory)),
    }
}
