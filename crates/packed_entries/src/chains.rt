//! Chains of packed entries, in buckets by truncated hash.
ghost use Rattle.std.specs.Prelude.{◌≡◌, ◌+◌, ◌*◌, ◌≤◌, ◌<◌, ◌∷◌, ◌^◌, IfOk, IfSome, IsSome, length};
ghost use Rattle.packed_entries.specs.Keys.{key_of, first_with, with_other, without_first, shared_parts, hint_parts, field_in};
ghost use Rattle.packed_entries.specs.declared.key.Key.TheVariants as keys;
ghost use Rattle.packed_entries.specs.Entries.{empty_chains, entry_count, home, chain_of, with_chain, counted_up, counted_down};
ghost use Rattle.packed_entries.specs.declared.limits.TheConstants.{MAX_ENTRIES};

use crate::places::Places;
use crate::{Entry, Key};
use std::alloc::{AllocError, Allocator, Global};
use std::marker::Model;

/// A fixed number of packed entries of 16 bytes, in chains. An entry's bucket is its truncated hash modulo the
/// number of buckets, so all entries with the same truncated hash, shared or hint, are in one chain.
///
/// Each packed entry is in one chain or is empty, and no entry moves when another comes or goes. `new` allocates all
/// memory, but a packed entry's memory is first touched when that packed entry is used.
#[derive(Drop)]
pub struct Chains<A: Allocator = Global> {
    places: Places<A>,
    buckets: u32,
}

impl<A: Allocator> Model for Chains<A> {
    ghost use Rattle.std.specs.Prelude.{◌≡◌, ◌≤◌, length};
    ghost use Rattle.packed_entries.specs.Entries.{EntryChains, filed};

    ghost Value = { EntryChains };

    ghost view = { λ t. filed t.places };

    ghost invariant = { λ t. (1 ≤ t.buckets) × (t.buckets ≡ length t.places.chains) };
}

impl<A: Allocator + Clone> Chains<A> {
    ghost use Rattle.packed_entries.specs.declared.limits.TheConstants.{MAX_ENTRIES};

    /// Makes empty chains in `buckets` buckets, with room for `capacity` entries.
    pub fn new(alloc: A, buckets: u32, capacity: u32) -> Result<Chains<A>, AllocError>
        requires buckets { 1 ≤ buckets }
        requires capacity { capacity ≤ MAX_ENTRIES }
        ensures { IfOk result (λ chains. chains ≡ empty_chains buckets capacity) }
    {
        let places = Places::new(alloc, buckets, capacity)?;
        Ok(Chains { places, buckets })
    }
}

impl<A: Allocator> Chains<A> {
    /// Returns the number of entries.
    pub fn len(&self) -> u32
        ensures { result ≡ entry_count self.now }
    {
        self.places.len()
    }

    /// Returns how many bytes the packed entries, 16 each, and the bucket heads, 4 each, take together.
    pub fn bytes(&self) -> u64
        ensures { result ≡ 16 * self.now.capacity + 4 * length self.now.chains }
    {
        bytes_of(self.places.capacity(), self.buckets)
    }

    /// Returns the MPN and the count of the shared frame with this hash.
    pub fn find_shared(&self, hash: u64) -> Option<(u32, u16)>
        ensures found { result ≡ shared_parts (first_with (keys.Shared hash) (chain_of self.now (keys.Shared hash))) }
        ensures fits { IfSome result (λ shared. shared.0 < 2 ^ 24) }
    {
        match self.find(Key::Shared(hash)) {
            Some(entry) => entry.shared(),
            None => None,
        }
    }

    /// Returns the guest, the PPN and the MPN of the hint frame with this key.
    pub fn find_hint(&self, key: u32) -> Option<(u8, u32, u32)>
        ensures { result ≡ hint_parts (first_with (keys.Hint key) (chain_of self.now (keys.Hint key))) }
    {
        match self.find(Key::Hint(key)) {
            Some(entry) => entry.hint(),
            None => None,
        }
    }

    // Returns the first entry of the key's chain that the key finds.
    #[inline(always)]
    fn find(&self, key: Key) -> Option<Entry>
        ensures { result ≡ first_with key (chain_of self.now key) }
    {
        let found = self.places.find(self.bucket(key), key)?;
        Some(self.places.entry(found.place))
    }

    /// Puts an entry at the head of its chain.
    pub fn add(&mut self, entry: Entry)
        requires room { entry_count self.old < self.old.capacity }
        ensures { self.new ≡ with_chain self.old (key_of entry) (entry ∷ chain_of self.old (key_of entry)) }
    {
        let bucket = self.bucket(entry.key());
        self.places.add(bucket, entry);
    }

    /// Replaces the first entry that this entry's key finds by this entry.
    pub fn replace(&mut self, entry: Entry)
        requires present { IsSome (first_with (key_of entry) (chain_of self.old (key_of entry))) }
        ensures { self.new ≡ with_chain self.old (key_of entry) (with_other (key_of entry) entry (chain_of self.old (key_of entry))) }
    {
        let key = entry.key();
        let found = self.places.find(self.bucket(key), key).unwrap();
        self.places.set_entry(found.place, entry);
    }

    /// Counts one more page for the shared frame with this hash, if the count is kept in its entry and will fit it: a count
    /// of 0 or of 65,535 stays. Returns the count that was in the entry.
    pub fn count_up(&mut self, hash: u64) -> u16
        requires present { IsSome (first_with (keys.Shared hash) (chain_of self.old (keys.Shared hash))) }
        ensures before { result ≡ field_in (first_with (keys.Shared hash) (chain_of self.old (keys.Shared hash))) }
        ensures counted { self.new
            ≡ counted_up self.old (keys.Shared hash) (first_with (keys.Shared hash) (chain_of self.old (keys.Shared hash))) }
    {
        let key = Key::Shared(hash);
        let found = self.places.find(self.bucket(key), key).unwrap();
        match self.places.entry(found.place) {
            Entry::Shared { hash, mpn, count } => {
                if count == 0 {
                    return 0;
                }
                if count == u16::MAX {
                    return count;
                }
                let more = count + 1;
                self.places.set_entry(
                    found.place,
                    Entry::Shared {
                        hash,
                        mpn,
                        count: more,
                    },
                );
                count
            }
            Entry::Hint { .. } => 0,
        }
    }

    /// Counts one page less for the shared frame with this hash, if the count is kept in its entry: a count of 0 stays, and
    /// the entry is removed with the last page. Returns the count that was in the entry.
    pub fn count_down(&mut self, hash: u64) -> u16
        requires present { IsSome (first_with (keys.Shared hash) (chain_of self.old (keys.Shared hash))) }
        ensures before { result ≡ field_in (first_with (keys.Shared hash) (chain_of self.old (keys.Shared hash))) }
        ensures counted { self.new
            ≡ counted_down self.old (keys.Shared hash) (first_with (keys.Shared hash) (chain_of self.old (keys.Shared hash))) }
    {
        let key = Key::Shared(hash);
        let bucket = self.bucket(key);
        let found = self.places.find(bucket, key).unwrap();
        match self.places.entry(found.place) {
            Entry::Shared { hash, mpn, count } => {
                if count == 0 {
                    return 0;
                }
                if count == 1 {
                    self.places.remove(bucket, found);
                    return 1;
                }
                let less = count - 1;
                self.places.set_entry(
                    found.place,
                    Entry::Shared {
                        hash,
                        mpn,
                        count: less,
                    },
                );
                count
            }
            Entry::Hint { .. } => 0,
        }
    }

    /// Removes the first entry of the key's chain that the key finds.
    pub fn remove(&mut self, key: Key)
        requires present { IsSome (first_with key (chain_of self.old key)) }
        ensures { self.new ≡ with_chain self.old key (without_first key (chain_of self.old key)) }
    {
        let bucket = self.bucket(key);
        let found = self.places.find(bucket, key).unwrap();
        self.places.remove(bucket, found);
    }

    // Returns the bucket of a key.
    #[inline]
    fn bucket(&self, key: Key) -> usize
        ensures value { result ≡ home (length self.now.chains) key }
        ensures within { result < length self.now.chains }
    {
        (key.truncated() % self.buckets) as usize
    }
}

// Returns how many bytes these numbers of packed entries, 16 each, and bucket heads, 4 each, take together.
fn bytes_of(entries: u32, heads: u32) -> u64
    ensures { result ≡ 16 * entries + 4 * heads }
{
    16 * u64::from(entries) + 4 * u64::from(heads)
}
