//! The world of events of several guests.
ghost use Rattle.std.specs.Prelude.{◌≡◌, ◌<◌, length, OnOk, OnErr, IfOk};
ghost use Rattle.page_model.specs.Events.{start, happens};
ghost use Rattle.event_world.specs.Played.{world_of, AreAlike, guest_of};

use crate::Traffic;
use page_model::{Entry, Event};
use std::alloc::{AllocError, Allocator, Global};
use std::marker::Model;

/// The traffic of each guest, by its number, and the merger's journal.
#[derive(Drop)]
pub struct World<A: Allocator = Global> {
    guests: Vec<Traffic<A>, A>,
    journal: Vec<Entry, A>,
}

impl<A: Allocator> Model for World<A> {
    ghost use Rattle.event_world.specs.Played.{Played};

    ghost Value = { Played };

    ghost view = { λ w. record { guests = w.guests.items; journal = w.journal.items } };
}

impl<A: Allocator> World<A> {
    /// Makes the world of the guests below this number, before the first event.
    pub fn new(alloc: A, guests: u8) -> Result<World<A>, AllocError>
    where
        A: Clone,
        ensures start { IfOk result (λ world. AreAlike (world_of world) start) }
        ensures guests { IfOk result (λ world. length world.guests ≡ guests) }
    {
        let for_guests = alloc.clone()?;
        let for_journal = alloc.clone()?;
        let mut list = Vec::with_capacity(for_guests, guests as usize)?;
        for _ in 0..guests {
            list.push_reserved(Traffic::new(alloc.clone()?)?);
        }
        Ok(World {
            guests: list,
            journal: Vec::new(for_journal),
        })
    }

    /// Plays one event of one of the guests. An event with nothing to move changes nothing. Nothing changes either if memory is
    /// refused.
    pub fn happen(&mut self, event: &Event) -> Result<(), AllocError>
        requires { guest_of event.now < length self.old.guests }
        ensures happens { OnOk result (AreAlike (world_of self.new) (happens (world_of self.old) event.now)) }
        ensures guests { length self.new.guests ≡ length self.old.guests }
        ensures err { OnErr result (self.new ≡ self.old) }
    {
        match event {
            Event::Send(guest, request) => {
                let request = request.clone()?;
                self.guests[*guest as usize].send(request)
            }
            Event::Take(guest) => self.guests[*guest as usize].take(*guest, &mut self.journal),
            Event::Give(guest) => {
                self.guests[*guest as usize].give(*guest, self.journal.as_slice())
            }
            Event::Get(guest) => self.guests[*guest as usize].get(),
        }
    }

    /// Returns how many guests there are.
    pub fn guests(&self) -> usize
        ensures { result ≡ length self.now.guests }
    {
        self.guests.len()
    }

    /// Returns what has passed between this guest and the merger.
    pub fn traffic(&self, guest: u8) -> &Traffic<A>
        requires { guest < length self.now.guests }
        ensures { result.now ≡ (world_of self.now).traffic guest }
    {
        &self.guests[guest as usize]
    }

    /// Returns the merger's journal.
    pub fn journal(&self) -> &[Entry]
        ensures { result.now ≡ self.now.journal }
    {
        self.journal.as_slice()
    }
}
