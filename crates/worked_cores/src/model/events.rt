//! Orders of events, each played through in one call.
use crate::checks::{equal, holds};
use event_world::World;
use page_model::{Entry, Event, Request};
use std::process::Abort;

/// Plays these events, of guests that the world has.
fn play(rt: &impl Abort, world: &mut World, events: &[Event]) {
    for event in events {
        let (Event::Send(guest, _) | Event::Take(guest) | Event::Give(guest) | Event::Get(guest)) =
            event;
        holds(rt, usize::from(*guest) < world.guests());
        world.happen(event).expect(rt, "memory");
    }
}

/// Returns how many requests this guest sent, how many were taken, and how many verdicts were given and got.
fn counts(rt: &impl Abort, world: &World, guest: u8) -> [usize; 4] {
    holds(rt, usize::from(guest) < world.guests());
    let traffic = world.traffic(guest);
    [
        traffic.sent().len(),
        traffic.taken().len(),
        traffic.given().len(),
        traffic.got().len(),
    ]
}

#[test]
fn events_out_of_order(rt: HostRuntime) {
    let mut world = World::new(rt.alloc(), 1).expect(&rt, "memory");
    let events = [
        Event::Get(0),
        Event::Take(0),
        Event::Send(0, Request::Count),
        Event::Take(0),
        Event::Get(0),
        Event::Give(0),
        Event::Get(0),
    ];
    play(&rt, &mut world, &events);
    equal(&rt, counts(&rt, &world, 0), [1, 1, 1, 1]);
    let entry = Entry {
        guest: 0,
        request: Request::Count,
    };
    equal(&rt, world.journal(), [entry].as_slice());
}
