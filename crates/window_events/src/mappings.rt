//! The protocol as a program, from its start.
ghost use Rattle.std.specs.Prelude.{◌≡◌, IfOk, is_some, unwrap_or, slice_get};
ghost use Rattle.window_events.specs.Windows.{step, start, shown, last};
ghost use Rattle.window_events.specs.Played.{refused_from, played};

use crate::parts::Parts;
use crate::{Event, Page};
use std::alloc::{AllocError, Allocator, Global};
use std::marker::Model;

/// The pages of all guests of all processes, and what the host's frames contain: made by `new`, and changed by events
/// alone.
#[derive(Drop)]
pub struct Mappings<A: Allocator = Global> {
    parts: Parts<A>,
}

impl<A: Allocator> Model for Mappings<A> {
    ghost use Rattle.window_events.specs.Windows as windows;
    ghost use Rattle.window_events.specs.Whole.{IsWhole};

    ghost Value = { windows.Mappings };

    ghost view = { λ w. w.parts };

    ghost invariant = { λ w. IsWhole w.parts };
}

impl<A: Allocator> Mappings<A> {
    /// Makes the mappings before the first event: a page with each of the contents, which its guest wrote last, and a
    /// frame with each of the numbers in `frames`.
    pub fn new(alloc: A, contents: &[u64], frames: &[u64]) -> Result<Mappings<A>, AllocError>
    where
        A: Clone,
        ensures { IfOk result (λ made. made ≡ start contents.now frames.now) }
    {
        let parts = Parts::new(alloc, contents, frames)?;
        Ok(Mappings { parts })
    }

    /// Plays one event, and returns whether it was possible. An impossible event changes nothing.
    pub fn apply(&mut self, event: &Event) -> bool
        ensures possible { result ≡ is_some (step self.old event.now) }
        ensures mappings { self.new ≡ unwrap_or (step self.old event.now) self.old }
    {
        self.parts.apply(event)
    }

    /// Plays events up to the first impossible one, and returns the place of that, if there is one.
    #[tactic(auto, using(crate::proofs::Played::refused_on, crate::proofs::Played::refused_here, crate::proofs::Played::played_on, crate::proofs::Played::played_here))]
    pub fn play(&mut self, events: &[Event]) -> Option<usize>
        ensures refused { result ≡ refused_from 0 self.old events.now }
        ensures mappings { self.new ≡ played self.old events.now }
    {
        for (place, event) in events.iter().enumerate() {
            if !self.apply(event) {
                return Some(place);
            }
        }
        None
    }

    /// Returns what a page shows, which is what its guest wrote last, if there is a page of this number.
    pub fn shown(&self, page: u32) -> Option<u64>
        ensures shown { result ≡ shown self.now page }
        ensures last { result ≡ last self.now page }
    {
        self.parts.shown(page)
    }

    /// Returns a page, with what its lender and the host know of it, if there is one of this number.
    pub fn page(&self, number: u32) -> Option<Page>
        ensures { result ≡ slice_get self.now.pages number }
    {
        self.parts.page(number)
    }

    /// Returns what the frames contain.
    pub fn frames(&self) -> &[u64]
        ensures { result.now ≡ self.now.frames }
    {
        self.parts.frames()
    }
}
