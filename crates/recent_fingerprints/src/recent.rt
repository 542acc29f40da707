//! The last notes, as callers see them.
ghost use Rattle.std.specs.Prelude.{◌≡◌, ◌≤◌, IfOk, replicate};
ghost use Rattle.recent_fingerprints.specs.Notes.{forgotten, note_of, nothing_noted, was_noted, with_note};
ghost use Rattle.recent_fingerprints.specs.declared.limits.TheConstants.{MAX_PLACES};

use crate::buckets::{Buckets, bucket_count};
use crate::chain::{Chains, life_of};
use crate::{Note, PageName};
use std::alloc::{AllocError, Allocator, Global};
use std::collections::VecDeque;
use std::marker::Model;

/// The last notes of pages with their fingerprints, as many as there are places. It says whether another page was noted with a
/// fingerprint. It ignores notes of clients that have ended.
///
/// `new` takes all memory.
#[derive(Drop)]
pub struct RecentFingerprints<A: Allocator = Global> {
    chains: Chains<A>,
    lives: Vec<u32, A>,
}

impl<A: Allocator> Model for RecentFingerprints<A> {
    ghost use Rattle.std.specs.Prelude.{map};
    ghost use Rattle.std.specs.VecDeque.{deque_capacity};
    ghost use Rattle.recent_fingerprints.specs.Notes.{Recent};
    ghost use Rattle.recent_fingerprints.specs.Chains.{AreKept, note_in};

    ghost Value = { Recent };

    ghost view = { λ r. record { places = r.chains.places; factor = r.chains.buckets.factor; lives = r.lives.items; notes = map note_in r.chains.ring.items } };

    ghost invariant = { λ r. AreKept r.chains.ring.items r.chains.heads.items r.chains.buckets.factor r.chains.buckets.shift r.chains.places r.chains.newest (deque_capacity r.chains.ring) };
}

impl<A: Allocator + Clone> RecentFingerprints<A> {
    ghost use Rattle.recent_fingerprints.specs.declared.limits.TheConstants.{MAX_PLACES};

    /// Makes an empty list of notes with `places` places, 28 bytes each, and 2 to 4 more for the buckets. Each of the `clients`
    /// clients takes 4 bytes. The caller draws the seed at random and keeps it secret: knowing it, one can choose fingerprints
    /// that take long to look up. No result depends on it.
    pub fn new(
        alloc: A,
        places: u32,
        clients: u32,
        seed: u64,
    ) -> Result<RecentFingerprints<A>, AllocError>
        requires some { 1 ≤ places }
        requires limit { places ≤ MAX_PLACES }
        ensures { IfOk result (λ recent. recent ≡ nothing_noted places clients seed) }
    {
        let lives = new_lives(alloc.clone()?, clients)?;
        let (count, shift) = bucket_count(places / 2);
        let mut heads = Vec::new(alloc.clone()?);
        heads.resize(count as usize, 0)?;
        let ring = VecDeque::with_capacity(alloc, places as usize)?;
        let buckets = Buckets {
            factor: seed | 1,
            shift,
        };
        Ok(RecentFingerprints {
            chains: Chains {
                ring,
                heads,
                buckets,
                places,
                newest: 0,
            },
            lives,
        })
    }
}

// Returns the life numbers of `clients` clients, all 0: none has ended.
fn new_lives<A: Allocator>(alloc: A, clients: u32) -> Result<Vec<u32, A>, AllocError>
    ensures { IfOk result (λ lives. lives.items ≡ replicate clients 0) }
{
    let mut lives = Vec::with_capacity(alloc, clients as usize)?;
    for _ in 0..clients {
        lives.push_reserved(0);
    }
    Ok(lives)
}

// Returns the note of a page with its fingerprint.
fn note_of(lives: &[u32], page: PageName, fingerprint: u64) -> Note
    ensures { result ≡ note_of lives.now page fingerprint }
{
    Note {
        fingerprint,
        page,
        life: life_of(lives, page.client),
    }
}

impl<A: Allocator> RecentFingerprints<A> {
    /// Whether another page was noted with this fingerprint, within the last notes. Notes this page with it.
    pub fn ask(&mut self, page: PageName, fingerprint: u64) -> bool
        ensures answered { result ≡ was_noted page fingerprint self.old }
        ensures noted { self.new ≡ with_note page fingerprint self.old }
    {
        let seen = self.was_noted(page, fingerprint);
        self.chains.put(note_of(&self.lives, page, fingerprint));
        seen
    }

    /// Whether another page was noted with this fingerprint, within the last notes. Notes nothing.
    pub fn was_noted(&self, page: PageName, fingerprint: u64) -> bool
        ensures { result ≡ was_noted page fingerprint self.now }
    {
        let asked = note_of(&self.lives, page, fingerprint);
        self.chains.has_other(&self.lives, asked)
    }

    /// A client has ended. Its notes are ignored from now on, even after another client gets its number. They would count again
    /// only where exactly 4,294,967,296 clients with its number, or a multiple of that, have ended since they were noted. Nothing
    /// changes if the number isn't below the `clients` of `new`.
    pub fn forget(&mut self, client: u32)
        ensures { self.new ≡ forgotten client self.old }
    {
        if (client as usize) < self.lives.len() {
            let life = self.lives[client as usize];
            self.lives[client as usize] = life.wrapping_add(1);
        }
    }
}
