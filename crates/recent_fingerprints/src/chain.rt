//! Notes in their places, in chains by bucket.
ghost use Rattle.std.specs.Prelude.{◌≡◌, ◌-◌, ◌≤◌, ◌<◌, ◌∷◌, map, take, length};
ghost use Rattle.std.specs.List.{list_any};
ghost use Rattle.std.specs.VecDeque.{deque_capacity};
ghost use Rattle.recent_fingerprints.specs.Notes.{is_other, is_same, life_of};
ghost use Rattle.recent_fingerprints.specs.Chains.{AreKept, bucket_of, first_where, in_bucket, comes_next, note_in};

use crate::buckets::Buckets;
use crate::note::{Note, Place};
use std::alloc::Allocator;
use std::collections::VecDeque;

// The last notes, newest first, with the number of the newest one for each bucket. Numbers are counted up and wrap.
#[derive(Drop)]
pub(crate) struct Chains<A: Allocator> {
    pub(crate) ring: VecDeque<Place, A>,
    pub(crate) heads: Vec<u32, A>,
    pub(crate) buckets: Buckets,
    pub(crate) places: u32,
    pub(crate) newest: u32,
}

impl<A: Allocator> Chains<A> {
    // Whether another page was noted with the fingerprint of this note, by a client that has not ended since.
    pub(crate) fn has_other(&self, lives: &[u32], asked: Note) -> bool
        requires { AreKept self.now.ring.items self.now.heads.items self.now.buckets.factor self.now.buckets.shift self.now.places self.now.newest (deque_capacity self.now.ring) }
        ensures { result ≡ list_any (is_other lives.now asked) (map note_in self.now.ring.items) }
    {
        let mut age = self.first(self.buckets.of(asked.fingerprint));
        while age < self.ring.len() {
            let place = self.ring[age];
            if is_other(lives, asked, place.note()) {
                return true;
            }
            age += 1 + place.between as usize;
        }
        false
    }

    // Puts a note before the others. If all places are taken, it replaces the oldest one.
    pub(crate) fn put(&mut self, note: Note)
        requires { AreKept self.old.ring.items self.old.heads.items self.old.buckets.factor self.old.buckets.shift self.old.places self.old.newest (deque_capacity self.old.ring) }
        ensures kept { AreKept self.new.ring.items self.new.heads.items self.new.buckets.factor self.new.buckets.shift self.new.places self.new.newest (deque_capacity self.new.ring) }
        ensures places { self.new.places ≡ self.old.places }
        ensures factor { self.new.buckets.factor ≡ self.old.buckets.factor }
        ensures notes { map note_in self.new.ring.items ≡ take self.old.places (note ∷ map note_in self.old.ring.items) }
    {
        let bucket = self.buckets.of(note.fingerprint);
        let between = self.between(note, self.first(bucket)) as u32;
        put_first(&mut self.ring, self.places, Place::of(note, between));
        self.newest = self.newest.wrapping_add(1);
        self.heads[bucket as usize] = self.newest;
    }

    // Returns how many notes are newer than the newest one in this bucket, or how many there are if none is.
    fn first(&self, bucket: u64) -> usize
        requires kept { AreKept self.now.ring.items self.now.heads.items self.now.buckets.factor self.now.buckets.shift self.now.places self.now.newest (deque_capacity self.now.ring) }
        requires bucket { bucket < length self.now.heads.items }
        ensures { result
            ≡ first_where (in_bucket self.now.buckets.factor self.now.buckets.shift bucket) self.now.ring.items }
    {
        let age = self.newest.wrapping_sub(self.heads[bucket as usize]) as usize;
        if age >= self.ring.len() {
            return self.ring.len();
        }
        if self.buckets.of(self.ring[age].fingerprint.number()) != bucket {
            return self.ring.len();
        }
        age
    }

    // Returns how many notes are newer than the one that follows this note in its chain, or how many there are if none does:
    // the newest one in its bucket that isn't the same.
    fn between(&self, note: Note, first: usize) -> usize
        requires kept { AreKept self.now.ring.items self.now.heads.items self.now.buckets.factor self.now.buckets.shift self.now.places self.now.newest (deque_capacity self.now.ring) }
        requires first { first
            ≡ first_where (in_bucket self.now.buckets.factor self.now.buckets.shift (bucket_of self.now.buckets.factor self.now.buckets.shift note.fingerprint)) self.now.ring.items }
        ensures { result
            ≡ first_where (comes_next self.now.buckets.factor self.now.buckets.shift note) self.now.ring.items }
    {
        let len = self.ring.len();
        if first >= len {
            return len;
        }
        let place = self.ring[first];
        if !is_same(note, place.note()) {
            return first;
        }
        len.min(first + 1 + place.between as usize)
    }
}

// Puts a place before the others. If all places are taken, the last one is removed.
fn put_first<A: Allocator>(ring: &mut VecDeque<Place, A>, places: u32, place: Place)
    requires some { 1 ≤ places }
    requires few { length ring.old.items ≤ places }
    requires room { places ≤ deque_capacity ring.old }
    ensures items { ring.new.items ≡ place ∷ take (places - 1) ring.old.items }
    ensures capacity { deque_capacity ring.new ≡ deque_capacity ring.old }
{
    if ring.len() == places as usize {
        let _last = ring.pop_back();
    }
    ring.push_front_reserved(place);
}

// Whether a note is of another page with the fingerprint of the note asked about, and its client has not ended since.
#[inline]
fn is_other(lives: &[u32], asked: Note, note: Note) -> bool
    ensures { result ≡ is_other lives.now asked note }
{
    if note.fingerprint != asked.fingerprint {
        return false;
    }
    if note.page.client == asked.page.client && note.page.number == asked.page.number {
        return false;
    }
    note.life == life_of(lives, note.page.client)
}

// Returns the life number of the client with this number, 0 if none is kept.
pub(crate) fn life_of(lives: &[u32], client: u32) -> u32
    ensures { result ≡ life_of lives.now client }
{
    if client as usize >= lives.len() {
        return 0;
    }
    lives[client as usize]
}

// Whether two notes are of the same page, with the same fingerprint.
#[inline]
fn is_same(one: Note, other: Note) -> bool
    ensures { result ≡ is_same one other }
{
    one.fingerprint == other.fingerprint
        && one.page.client == other.page.client
        && one.page.number == other.page.number
        && one.life == other.life
}
