//! A walk over a network that keeps, repeats and reorders datagrams.

use crate::direct_link::{PURGE, gap, plant_with, purged, state};
use crate::walk::walk_from;
use bac_link::Item;
use bac_wire::Datagram;
use bac_world::{Memory, World, WorldEvent};
use std::process::Abort;

/// A walk from number 1 of a log with the records before this number.
fn world(rt: &(impl Abort + AllocGlobal), end: u32, retries: u8) -> World {
    let walk = walk_from(1).expect(rt, "a walk");
    World::new(rt.alloc(), plant_with(rt, 10, end), walk, retries)
}

/// A request that is answered twice, one that is repeated and answered in another order, and one
/// that finds nothing newer.
const LATE: [WorldEvent; 13] = [
    WorldEvent::Ask,
    WorldEvent::Deliver(0),
    WorldEvent::Deliver(1),
    WorldEvent::Deliver(1),
    WorldEvent::Ask,
    WorldEvent::Timeout,
    WorldEvent::Deliver(3),
    WorldEvent::Deliver(2),
    WorldEvent::Deliver(4),
    WorldEvent::Deliver(5),
    WorldEvent::Ask,
    WorldEvent::Deliver(6),
    WorldEvent::Deliver(7),
];

/// Which of them happen.
const HAPPENS: [bool; 13] = [
    true, true, true, false, true, true, true, true, true, false, true, true, true,
];

fn delivered(rt: &impl Abort, world: &World, items: &[Item], caught: Option<u32>) {
    assert_eq!(rt; (world.items(), world.caught_up()), (items, caught));
}

fn play_late(world: &mut World) -> Result<usize, Memory> {
    world.play_all(&LATE)
}

#[test]
fn repeated_and_reordered_packets_bring_a_record_once(rt: HostRuntime) {
    let mut world = world(&rt, 2, 3);
    assert_eq!(rt; play_late(&mut world), Ok(11));
    delivered(&rt, &world, &[state(1)], Some(2));
}

/// A question is asked and given up.
fn give_up(world: &mut World) -> Result<usize, Memory> {
    world.play_all(&[WorldEvent::Ask, WorldEvent::Timeout])
}

/// Whether so many questions are.
fn gives_up(world: &mut World, questions: u32) -> bool {
    for _ in 0..questions {
        if give_up(world) != Ok(2) {
            return false;
        }
    }
    true
}

/// A question is asked, and then another. Each time the first packet of all comes, and its answer.
fn ask_twice(world: &mut World) -> Result<usize, Memory> {
    world.play_all(&[
        WorldEvent::Ask,
        WorldEvent::Deliver(0),
        WorldEvent::Deliver(256),
        WorldEvent::Timeout,
        WorldEvent::Ask,
        WorldEvent::Deliver(0),
        WorldEvent::Deliver(256),
    ])
}

#[test]
fn a_packet_of_256_transactions_ago_never_comes(rt: HostRuntime) {
    let mut world = world(&rt, 2, 0);
    assert!(rt; gives_up(&mut world, 255));
    assert_eq!(rt; ask_twice(&mut world), Ok(4));
    delivered(&rt, &world, &[], None);
}

/// The log is purged, and then a question is asked and answered.
fn purge_and_ask(world: &mut World) -> Option<Result<usize, Memory>> {
    let purge = Datagram::of(&PURGE)?;
    let events = [
        WorldEvent::Handle(purge),
        WorldEvent::Ask,
        WorldEvent::Deliver(0),
        WorldEvent::Deliver(1),
    ];
    Some(world.play_all(&events))
}

#[test]
fn a_purge_before_the_answer_is_a_gap(rt: HostRuntime) {
    let mut world = world(&rt, 4, 3);
    assert_eq!(rt; purge_and_ask(&mut world), Some(Ok(4)));
    delivered(&rt, &world, &[gap(1, 4), purged(4)], None);
}

/// Plays an event, and once more if memory is refused.
fn played(world: &mut World, event: &WorldEvent) -> Result<bool, Memory> {
    match world.play(event) {
        Ok(moved) => Ok(moved),
        Err(Memory) => world.play(event),
    }
}

/// How many events happen as they should, one after the other, up to the first that doesn't.
fn played_so(world: &mut World, events: &[WorldEvent; 13]) -> usize {
    for place in 0..13usize {
        if played(world, &events[place]) != Ok(HAPPENS[place]) {
            return place;
        }
    }
    13
}

fn play_each(world: &mut World) -> usize {
    played_so(world, &LATE)
}

/// If memory is refused, the events before stand, and the refused one can be played again.
#[test]
fn refused_memory_leaves_the_events_before(rt: HostRuntime) {
    let mut world = world(&rt, 2, 3);
    assert_eq!(rt; play_each(&mut world), 13);
    delivered(&rt, &world, &[state(1)], Some(2));
}
