//! What a user of walks over a device in memory needs, proved from public contracts alone.

ghost use Rattle.std.specs.Prelude.{ℕ, ◌≡◌, ◌+◌, ◌<◌, ◌≤◌, ◌↔◌, List, [], Option, Some, None};
ghost use Rattle.std.specs.Prelude.{length, IfSome, IsSome, ◌⊎◌};
ghost use Rattle.bac_apdu.specs.Service.Extent.{IsExtent};
ghost use Rattle.bac_apdu.specs.declared.service.extent.Extent.{Extent as AnyExtent};
ghost use Rattle.bac_log.specs.TrendLog.{Log, sequence_number};
ghost use Rattle.bac_objects.specs.Sampling.{log_id, log_of};
ghost use Rattle.bac_objects.specs.Sound.{IsSound};
ghost use Rattle.bac_objects.specs.State.{State};
ghost use Rattle.bac_device.specs.Answer.{answer};
ghost use Rattle.bac_device.specs.declared.reply.Receiver.TheVariants as Receiver;
ghost use Rattle.bac_link.specs.Delivery.{DeliversTo};
ghost use Rattle.bac_link.specs.Links.{HasReply, question};
ghost use Rattle.bac_apdu.specs.Npdu.{Place};
ghost use Rattle.bac_apdu.specs.Route.{IsWay};
ghost use Rattle.bac_link.specs.Path.{back, towards};
ghost use Rattle.bac_link.specs.Requests.{request_octets};
ghost use Rattle.bac_link.specs.Moments.{AreInWindow};
ghost use Rattle.bac_walk.specs.Near.{IsNear};
ghost use Rattle.bac_walk.specs.Rests.{Misses, rest_all};
ghost use Rattle.bac_walk.specs.declared.outcome.Why.TheVariants as why;
ghost use Rattle.bac_memory_link.specs.Ahead.{history_ahead, IsThere, log_with, moment_of};
ghost use Rattle.bac_memory_link.specs.Ahead.{moments_ahead, placed, placed_all};
ghost use Rattle.bac_client_tests.specs.Day.{day, day_moments, plant as plant_of};
ghost use Rattle.bac_client_tests.specs.Held.{held_from};

use crate::direct_link::{PURGE, absent, brought, device_line, gap, name, purged};
use crate::walk_callers;
use bac_device::{Device, DeviceLine, Name, ObjectLine, questions_are_answered};
use bac_link::Transactions;
use bac_memory_link::{DirectLink, LinkEvent, questions_are_the_devices, replies_are_the_devices};
use bac_walk::{Outcome, Walk, Why, collect, numbers_have_ordinals, rests_all};
use bac_wire::{Datagram, ObjectId};
use std::alloc::Global;

/// A link's question for the records of a log of a device brings the reply of that log, and
/// changes nothing.
pub fn questions_bring_replies()
    ensures { (d : State) (source : Option Place) (n : ℕ) (log : Log) (invoke : ℕ)
        (extent : AnyExtent) → IsSound d → IsWay source → log_of d n ≡ Some log
        → IsExtent extent → (octets : List ℕ)
        × (answer d (request_octets (back (towards source)) invoke (question (log_id n) extent))
        ≡ (Some (record { datagram = octets; to = Receiver.Sender }), d))
        × HasReply d.reply_size log (log_id n) extent (back (towards source)) invoke octets }
{
    // For the prover alone: the laws that the contract follows from.
    questions_are_the_devices();
    questions_are_answered();
    replies_are_the_devices();
}

/// Whatever happens at a device between its answers, steps of a walk from number s on deliver the
/// records from its ordinal on that the log holds when each is reached: the moments and the history
/// are those that the device and the events lead to, however many rounds of numbers further on,
/// if they lie within half of the count.
pub fn records_from(
    alloc: Global,
    device: &mut Device,
    events: &[LinkEvent],
    log: ObjectId,
    s: u32,
    steps: u32,
) -> Option<Outcome>
    ensures is_some { IsSome result ↔ (0 < s) × (log.kind ≡ 20) }
    ensures delivers { IfSome result (λ outcome. (rounds k low : ℕ)
        → IsThere device.old log.instance → s ≡ sequence_number k
        → AreInWindow low (placed_all rounds (moments_ahead device.old log.instance events.now))
        → low ≤ k → k < low + 2147483648
        → (count : ℕ) × (t : ℕ) × (outcome.next ≡ sequence_number t)
        × DeliversTo (history_ahead rounds device.old log.instance events.now) k
        outcome.items.items t
        (placed_all rounds (moments_ahead device.old log.instance events.now)) count) }
{
    let Some(mut walk) = Walk::from_number(log, s) else {
        return None;
    };
    let mut link = DirectLink::new(device, events);
    let mut transactions = Transactions::new(3);
    Some(collect(alloc, &mut link, &mut transactions, &mut walk, steps))
}

/// If nothing happens at a device, more steps than its log has records bring all that the log holds
/// from the ordinal of number s on which is near, unless memory runs out, and leave the device as
/// it was.
pub fn all_records_from(
    alloc: Global,
    device: &mut Device,
    log: ObjectId,
    s: u32,
    steps: u32,
) -> Option<Outcome>
    ensures is_some { IsSome result ↔ (0 < s) × (log.kind ≡ 20) }
    ensures records { IfSome result (λ outcome. (k : ℕ) → IsThere device.old log.instance
        → s ≡ sequence_number k → IsNear k (moment_of (log_with device.old log.instance))
        → length (log_with device.old log.instance).entries < steps
        → (outcome.why ≡ why.Memory)
        ⊎ (outcome.items.items ≡ held_from (log_with device.old log.instance) k)) }
    // Without the log, the device says so.
    ensures missing { IfSome result (λ outcome. log_of device.old log.instance ≡ None →
        Misses steps s outcome.items.items outcome.next outcome.why) }
    ensures unchanged { device.new ≡ device.old }
{
    // For the prover alone: a law that the contract follows from.
    rests_all();
    let Some(mut walk) = Walk::from_number(log, s) else {
        return None;
    };
    let mut link = DirectLink::new(device, &[]);
    let mut transactions = Transactions::new(0);
    Some(collect(alloc, &mut link, &mut transactions, &mut walk, steps))
}

/// Whatever number isn't 0, a walk from there over a device to which nothing happens has a near
/// ordinal, one round of numbers further on, and brings all that the log holds from it on, unless
/// memory runs out.
pub fn all_records_from_any_number(
    alloc: Global,
    device: &mut Device,
    log: ObjectId,
    s: u32,
    steps: u32,
) -> Option<Outcome>
    ensures { IfSome result (λ outcome. 0 < s → log.kind ≡ 20 → IsThere device.old log.instance
        → length (log_with device.old log.instance).entries < steps
        → (k : ℕ) × (s ≡ sequence_number k)
        × IsNear k (placed 1 (moment_of (log_with device.old log.instance)))
        × ((outcome.why ≡ why.Memory) ⊎ (outcome.items.items
        ≡ (rest_all (history_ahead 1 device.old log.instance [])
        (placed 1 (moment_of (log_with device.old log.instance))) k).items))) }
{
    // For the prover alone: a law that the contract follows from.
    numbers_have_ordinals();
    let mut link = DirectLink::new(device, &[]);
    let outcome = walk_callers::all_records_from(alloc, &mut link, log, s, steps)?;
    Some(outcome)
}

/// A day at a device with one log of three records: appends that overwrite, a purge, and a loss,
/// between answers. Steps of a walk from number 1 on deliver exactly what the log holds at the
/// moments of its answers, which are computed here.
pub fn records_of_a_day(
    alloc: Global,
    device: &DeviceLine,
    name: Name,
    source: ObjectId,
    steps: u32,
) -> Option<Outcome>
    ensures { IfSome result (λ outcome. (count : ℕ) × (t : ℕ) × (outcome.next ≡ sequence_number t)
        × DeliversTo (history_ahead 0 (plant_of device.now name source) 1 day) 1
        outcome.items.items t day_moments count) }
{
    let log = ObjectId::new(20, 1)?;
    let purge = Datagram::of(&PURGE)?;
    let lines = [ObjectLine::Log {
        instance: 1,
        name,
        source,
        capacity: 3,
        interval: 0,
        logged: 0,
    }];
    let Ok(mut built) = Device::build(alloc, device, &lines) else {
        return None;
    };
    let events = [
        LinkEvent::Sample(1),
        LinkEvent::Sample(1),
        LinkEvent::Answer,
        LinkEvent::Sample(1),
        LinkEvent::Sample(1),
        LinkEvent::Lose,
        LinkEvent::Sample(1),
        LinkEvent::Sample(1),
        LinkEvent::Answer,
        LinkEvent::Sample(1),
        LinkEvent::Handle(purge),
    ];
    let outcome = records_from(alloc, &mut built, &events, log, 1, steps)?;
    Some(outcome)
}

/// The day at device 123, of a log whose source isn't there.
fn ten_steps_of_a_day(alloc: Global) -> Option<Outcome> {
    let source = ObjectId::new(5, 1)?;
    let name = name(alloc, "trend")?;
    let device = device_line(alloc)?;
    records_of_a_day(alloc, &device, name, source, 10)
}

#[test]
fn a_day_is_delivered(rt: HostRuntime) {
    let outcome = ten_steps_of_a_day(rt.alloc()).expect(&rt, "a walk");
    let items = [
        absent(1),
        absent(2),
        gap(3, 4),
        absent(4),
        absent(5),
        absent(6),
        gap(7, 8),
        purged(8),
    ];
    brought(&rt, &outcome, &items, 9, Why::CaughtUp);
}
