//! One guest's part of the world of events.
ghost use Rattle.std.specs.Prelude.{◌≡◌, ◌++◌, OnOk, OnErr, IfOk};
ghost use Rattle.page_model.specs.Journal.{places};
ghost use Rattle.page_model.specs.Events.{no_traffic, next, sends, takes, gives, gets, entries_of};

use crate::looks::{has_close, place_of};
use page_model::{Entry, Request};
use std::alloc::{AllocError, Allocator, Global};
use std::marker::Model;

/// What has passed between one guest and the merger. Requests: those that the guest sent and those that the merger took.
/// Verdicts, by their places in the journal: those that the merger gave and those that the guest got.
#[derive(Drop)]
pub struct Traffic<A: Allocator = Global> {
    sent: Vec<Request, A>,
    taken: Vec<Request, A>,
    given: Vec<usize, A>,
    got: Vec<usize, A>,
}

impl<A: Allocator> Model for Traffic<A> {
    ghost use Rattle.page_model.specs.Events as events;

    ghost Value = { events.Traffic };

    ghost view = { λ t. record { sent = t.sent.items; taken = t.taken.items; given = t.given.items; got = t.got.items } };
}

impl<A: Allocator> Traffic<A> {
    // Makes the traffic of a guest before anything has passed, without taking memory.
    pub(crate) fn new(alloc: A) -> Result<Traffic<A>, AllocError>
    where
        A: Clone,
        ensures { IfOk result (λ traffic. traffic ≡ no_traffic) }
    {
        let for_sent = alloc.clone()?;
        let for_taken = alloc.clone()?;
        let for_given = alloc.clone()?;
        Ok(Traffic {
            sent: Vec::new(for_sent),
            taken: Vec::new(for_taken),
            given: Vec::new(for_given),
            got: Vec::new(alloc),
        })
    }

    // Sends a request, unless the guest has sent a close.
    pub(crate) fn send(&mut self, request: Request) -> Result<(), AllocError>
        ensures ok { OnOk result (self.new ≡ sends request self.old) }
        ensures err { OnErr result (self.new ≡ self.old) }
    {
        if has_close(self.sent.as_slice()) {
            return Ok(());
        }
        self.sent.push(request)?;
        Ok(())
    }

    // Takes the next request that was sent, and appends it to the journal as this guest's entry.
    #[tactic(auto, using(crate::proofs::Nexts::with_none, crate::proofs::Nexts::with_some))]
    pub(crate) fn take(&mut self, guest: u8, journal: &mut Vec<Entry, A>) -> Result<(), AllocError>
        ensures ok { OnOk result (self.new ≡ takes self.old) }
        ensures journal { OnOk result (journal.new.items ≡ journal.old.items ++ entries_of guest (next self.old.taken self.old.sent)) }
        ensures err { OnErr result (self.new ≡ self.old) }
        ensures err_journal { OnErr result (journal.new.items ≡ journal.old.items) }
    {
        let Some(next) = self.sent.get(self.taken.len()) else {
            return Ok(());
        };
        let taken = next.clone()?;
        let request = next.clone()?;
        self.taken.reserve(1)?;
        journal.reserve(1)?;
        self.taken.push_reserved(taken);
        journal.push_reserved(Entry { guest, request });
        Ok(())
    }

    // Gives the place of the guest's first request in the journal whose verdict wasn't given yet.
    #[tactic(auto, using(crate::proofs::Nexts::with_none, crate::proofs::Nexts::with_some))]
    pub(crate) fn give(&mut self, guest: u8, journal: &[Entry]) -> Result<(), AllocError>
        ensures ok { OnOk result (self.new ≡ gives (places guest journal.now) self.old) }
        ensures err { OnErr result (self.new ≡ self.old) }
    {
        if let Some(place) = place_of(journal, guest, self.given.len()) {
            self.given.push(place)?;
        }
        Ok(())
    }

    // Gets the next place that was given.
    pub(crate) fn get(&mut self) -> Result<(), AllocError>
        ensures ok { OnOk result (self.new ≡ gets self.old) }
        ensures err { OnErr result (self.new ≡ self.old) }
    {
        if let Some(place) = self.given.get(self.got.len()) {
            self.got.push(*place)?;
        }
        Ok(())
    }

    /// Returns the requests that the guest sent.
    pub fn sent(&self) -> &[Request]
        ensures { result.now ≡ self.now.sent }
    {
        self.sent.as_slice()
    }

    /// Returns the requests that the merger took.
    pub fn taken(&self) -> &[Request]
        ensures { result.now ≡ self.now.taken }
    {
        self.taken.as_slice()
    }

    /// Returns the places in the journal whose verdicts the merger gave.
    pub fn given(&self) -> &[usize]
        ensures { result.now ≡ self.now.given }
    {
        self.given.as_slice()
    }

    /// Returns the places in the journal whose verdicts the guest got.
    pub fn got(&self) -> &[usize]
        ensures { result.now ≡ self.now.got }
    {
        self.got.as_slice()
    }
}
