//! Places for packed entries, and chains that are threaded through them.
//!
//! A link is 0 for no place, and n + 1 for place n. Each bucket has the link to the first place of its
//! chain; a place has the link to the next one.
//!
//! Memory is reserved for all places. A place is reached when it is first used, and its memory isn't touched before. The places
//! that were reached and are empty form one more list, in the same way as a chain.
ghost use Rattle.std.specs.Prelude.{◌≡◌, ◌+◌, ◌≤◌, ◌<◌, ◌∷◌, ◌++◌, [], IfOk, IfSome, length, option_map, vec_len, vec_capacity};
ghost use Rattle.packed_entries.specs.Keys.{has_key};
ghost use Rattle.packed_entries.specs.Places.{empty_place};
ghost use Rattle.packed_entries.specs.Linked.{Chained, no_chains, chain_at, entry_at, used, times, times_in};
ghost use Rattle.packed_entries.specs.Linked.{with_place, without_place, link_before, first_of, with_entry_at};
ghost use Rattle.packed_entries.specs.declared.limits.TheConstants.{MAX_ENTRIES};

use crate::packed_entry::PackedEntry;
use crate::{Entry, Key, Packed, U23, U24};
use std::alloc::{AllocError, Allocator, Global};
use std::marker::Model;

// A place of a chain, and the link to the place before it, which is 0 if the place is the chain's first.
#[derive(Clone, Copy)]
pub(crate) struct Found {
    pub(crate) place: u32,
    pub(crate) before: u32,
}

// A fixed number of places, each of which is in one chain or empty.
#[derive(Drop)]
pub(crate) struct Places<A: Allocator = Global> {
    heads: Vec<u32, A>,
    // The places that were reached, in their order, and room for all others.
    packed: Vec<PackedEntry, A>,
    capacity: u32,
    // The link to the first place that was reached and is empty.
    free: u32,
    used: u32,
}

impl<A: Allocator> Model for Places<A> {
    ghost use Rattle.std.specs.Prelude.{map, length, vec_capacity};
    ghost use Rattle.packed_entries.specs.Places.{link_of, entries_of};
    ghost use Rattle.packed_entries.specs.Linked.{Chained, IsKept, IsWithin, chains_from};

    ghost Value = { Chained };

    ghost view = { λ t. record { entries = entries_of t.packed.items t.capacity; chains = chains_from (map link_of t.packed.items) t.heads.items } };

    ghost invariant = { λ t. IsKept t.heads.items (map link_of t.packed.items) t.free t.used
        × IsWithin (length t.packed.items) t.capacity (vec_capacity t.packed) };
}

impl<A: Allocator + Clone> Places<A> {
    ghost use Rattle.packed_entries.specs.declared.limits.TheConstants.{MAX_ENTRIES};

    // Makes empty chains for `buckets` buckets, and `capacity` places.
    pub(crate) fn new(alloc: A, buckets: u32, capacity: u32) -> Result<Places<A>, AllocError>
        requires { capacity ≤ MAX_ENTRIES }
        ensures { IfOk result (λ places. places ≡ no_chains buckets capacity) }
    {
        let mut heads = Vec::new(alloc.clone()?);
        heads.resize(buckets as usize, 0)?;
        let packed = Vec::with_capacity(alloc, capacity as usize)?;
        Ok(Places {
            heads,
            packed,
            capacity,
            free: 0,
            used: 0,
        })
    }
}

impl<A: Allocator> Places<A> {
    // Returns the number of places in chains.
    pub(crate) fn len(&self) -> u32
        ensures { result ≡ used self.now }
    {
        self.used
    }

    // Returns the number of places.
    pub(crate) fn capacity(&self) -> u32
        ensures { result ≡ length self.now.entries }
    {
        self.capacity
    }

    // Returns the first place of the bucket's chain that the key finds, and the link to the place before it. Inlined, because
    // each caller knows which kind of key it has, and so gets a search of its own.
    #[inline(always)]
    pub(crate) fn find(&self, bucket: usize, key: Key) -> Option<Found>
        requires bucket { bucket < length self.now.chains }
        ensures found { option_map (λ f. f.place) result ≡ first_of (λ p. has_key key (entry_at self.now p)) (chain_at self.now bucket) }
        ensures before { IfSome result (λ f. f.before ≡ link_before f.place 0 (chain_at self.now bucket)) }
        ensures once { IfSome result (λ f. times_in f.place self.now.chains ≡ 1) }
        ensures within { IfSome result (λ f. f.place < length self.now.entries) }
    {
        let mut before = 0;
        let mut link = self.heads[bucket];
        while link != 0 {
            let place = link - 1;
            let packed = &self.packed[place as usize];
            if packed.has_key(key) {
                return Some(Found { place, before });
            }
            before = link;
            link = packed.link();
        }
        None
    }

    // Returns the entry of a place that is in a chain.
    #[inline]
    pub(crate) fn entry(&self, place: u32) -> Entry
        requires { times_in place self.now.chains ≡ 1 }
        ensures { result ≡ entry_at self.now place }
    {
        let packed = self.packed[place as usize].get();
        packed.entry
    }

    // Writes the entry of a place that is in a chain.
    #[inline]
    pub(crate) fn set_entry(&mut self, place: u32, entry: Entry)
        requires { times_in place self.old.chains ≡ 1 }
        ensures { self.new ≡ with_entry_at self.old place entry }
    {
        self.packed[place as usize].set_entry(entry);
    }

    // Puts an entry into an empty place, at the head of the bucket's chain, and returns the place.
    #[inline]
    pub(crate) fn add(&mut self, bucket: usize, entry: Entry) -> u32
        requires bucket { bucket < length self.old.chains }
        requires room { used self.old < length self.old.entries }
        ensures within { result < length self.old.entries }
        ensures unused { times_in result self.old.chains ≡ 0 }
        ensures added { self.new ≡ with_place self.old bucket result entry }
    {
        if self.free == 0 {
            self.free = reach_one_more(&mut self.packed);
        }
        let place = self.free - 1;
        let head = self.heads[bucket];
        let link = U23::of(head);
        self.heads[bucket] = self.free;
        self.free = self.packed[place as usize].link();
        self.packed[place as usize].set(Packed { entry, link });
        self.used += 1;
        place
    }

    // Removes a place that was found from the bucket's chain.
    #[inline]
    pub(crate) fn remove(&mut self, bucket: usize, found: Found)
        requires bucket { bucket < length self.old.chains }
        requires place { 1 ≤ times found.place (chain_at self.old bucket) }
        requires before { found.before ≡ link_before found.place 0 (chain_at self.old bucket) }
        ensures { self.new ≡ without_place self.old bucket found.place }
    {
        let Found { place, before } = found;
        let after = self.packed[place as usize].link();
        if before == 0 {
            self.heads[bucket] = after;
        } else {
            self.packed[(before - 1) as usize].set_link(after);
        }
        self.packed[place as usize].set_link(self.free);
        self.free = place + 1;
        self.used -= 1;
    }
}

// Reaches the next place, which is empty and has no link, and returns the link to it.
fn reach_one_more<A: Allocator>(packed: &mut Vec<PackedEntry, A>) -> u32
    requires few { vec_len packed.old < MAX_ENTRIES }
    requires room { vec_len packed.old < vec_capacity packed.old }
    ensures items { packed.new.items ≡ packed.old.items ++ empty_place ∷ [] }
    ensures capacity { vec_capacity packed.new ≡ vec_capacity packed.old }
    ensures link { result ≡ length packed.old.items + 1 }
{
    packed.push_reserved(empty_entry());
    packed.len() as u32
}

// Makes an empty place with no link.
fn empty_entry() -> PackedEntry
    ensures { result ≡ empty_place }
{
    let entry = Entry::Hint {
        key: 0,
        guest: 0,
        ppn: U24::of(0),
        mpn: U24::of(0),
    };
    let link = U23::of(0);
    PackedEntry::new(Packed { entry, link })
}
