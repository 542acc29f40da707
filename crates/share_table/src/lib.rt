//! The table of a page sharing machine: shared frames by the hash of their content, and hint frames
//! by key.
//!
//! A shared frame is one that some pages share. Its count is the number of these pages. A hint frame
//! is that of a private page, under the key that the page's content had when the key was noted.
//!
//! As in VMware ESX Server (C. Waldspurger, "Memory Resource Management in VMware ESX Server", OSDI
//! 2002, section 4), a shared frame's entry has a field of 16 bits for its count, and the few counts that don't
//! fit in it are in an overflow table.
#![tactic(auto)]

mod buckets;
mod entries;
mod searches;
mod wide;

ghost use Rattle.std.specs.Prelude.{◌≡◌, ◌+◌, ◌*◌, ◌≤◌, ◌<◌, ◌^◌, None, IsSome, IfOk, option_map};
ghost use Rattle.share_table.specs.Buckets.{IsRoom};
ghost use Rattle.share_table.specs.TableMaps.{shared_at, hint_at, entry_count, references, extended, field_of, count_at, with_shared};
ghost use Rattle.share_table.specs.TableMaps.{with_count, with_one_less, with_hint, without_hint, empty_table};
ghost use Rattle.packed_entries.specs.declared.limits.TheConstants.{MAX_ENTRIES};

use buckets::bucket_count;
use entries::EXTENDED;
pub use entries::HintFrame;
pub use packed_entries::Packed;
use packed_entries::{Chains, Entry, Key, U24};
use searches::{hint_entry, shared_entry};
use std::alloc::{AllocError, Allocator, Global};
use std::marker::Model;
use wide::WideCounts;

/// The shared frames by hash, and the hint frames by key.
///
/// MPNs and PPNs have 24 bits. The sum of all counts is at most `MAX_PAGES`, so at most 16 of them
/// are above 65,535. All memory is allocated when the table is made, and no other call allocates.
#[derive(Drop)]
pub struct Table<A: Allocator = Global> {
    chains: Chains<A>,
    references: u32,
    wide: WideCounts,
}

impl<A: Allocator> Model for Table<A> {
    ghost use Rattle.share_table.specs.TableMaps.{TableMaps, table_code};

    ghost Value = { TableMaps };

    ghost coded = { table_code };

    ghost use Rattle.share_table.specs.Stored.{maps_of, IsKept};

    ghost view = { λ t. maps_of t.chains t.wide };

    ghost invariant = { λ t. IsKept t.references t.chains t.wide };
}

impl<A: Allocator + Clone> Table<A> {
    ghost use Rattle.packed_entries.specs.declared.limits.TheConstants.{MAX_ENTRIES};

    /// Makes an empty table with room for `capacity` entries.
    pub fn new(alloc: A, capacity: u32) -> Result<Table<A>, AllocError>
        requires least { 1 ≤ capacity }
        requires most { capacity ≤ MAX_ENTRIES }
        ensures { IfOk result (λ table. table ≡ empty_table capacity) }
    {
        let chains = Chains::new(alloc, bucket_count(capacity), capacity)?;
        Ok(Table {
            chains,
            references: 0,
            wide: WideCounts::new(),
        })
    }
}

impl<A: Allocator> Table<A> {
    ghost use Rattle.packed_entries.specs.declared.limits.TheConstants.{MAX_ENTRIES};

    /// Returns the number of entries of both kinds.
    pub fn len(&self) -> u32
        ensures value { result ≡ entry_count self.now }
        ensures room { result ≤ self.now.capacity }
    {
        self.chains.len()
    }

    /// Returns the sum of the counts of all shared frames.
    pub fn references(&self) -> u32
        ensures value { result ≡ references self.now }
        ensures limit { result ≤ MAX_ENTRIES }
    {
        self.references
    }

    /// Returns the number of counts that don't fit in a field of 16 bits.
    pub fn extended(&self) -> u32
        ensures value { result ≡ extended self.now }
        ensures limit { result ≤ 16 }
    {
        self.wide.len() as u32
    }

    /// Returns how many bytes the room for the entries takes: 16 for each packed entry, and 4 for each bucket head. The number of
    /// bucket heads is the greatest power of two that is at most the capacity. So it's at most 20 bytes for each frame,
    /// which is under 0.5 % of the frame's 4,096.
    pub fn bytes(&self) -> u64
        ensures exact { IsRoom self.now.capacity result }
        ensures most { result ≤ 20 * self.now.capacity }
    {
        self.chains.bytes()
    }

    /// Returns the MPN and the count of the shared frame with this hash.
    pub fn find_shared(&self, hash: u64) -> Option<(u32, u32)>
        ensures { result ≡ option_map (λ frame. (frame.mpn, frame.count)) (shared_at self.now hash) }
    {
        let entry = shared_entry(&self.chains, hash)?;
        Some((entry.mpn, self.wide.count_of(entry)))
    }

    /// Returns the count of the shared frame with this hash, or 0 if there is none.
    pub fn count(&self, hash: u64) -> u32
        ensures { result ≡ count_at self.now hash }
    {
        match self.find_shared(hash) {
            None => 0,
            Some((_, count)) => count,
        }
    }

    /// Returns the 16-bit field in the entry of the shared frame with this hash: its count if that is at most 65,535, and 0
    /// otherwise.
    pub fn field(&self, hash: u64) -> Option<u16>
        ensures { result ≡ option_map (λ frame. field_of frame.count) (shared_at self.now hash) }
    {
        let entry = shared_entry(&self.chains, hash)?;
        Some(entry.field)
    }

    /// Adds a frame that two pages share.
    pub fn add_shared(&mut self, hash: u64, mpn: u32)
        requires absent { shared_at self.old hash ≡ None }
        requires room { entry_count self.old < self.old.capacity }
        requires references { references self.old + 2 ≤ MAX_ENTRIES }
        requires mpn { mpn < 2 ^ 24 }
        ensures { self.new ≡ with_shared self.old hash mpn 2 }
    {
        self.chains.add(Entry::Shared {
            hash,
            mpn: U24::of(mpn),
            count: 2,
        });
        self.references += 2;
    }

    /// Counts one more page that shares the frame with this hash, and returns the new count.
    pub fn join(&mut self, hash: u64) -> u32
        requires present { IsSome (shared_at self.old hash) }
        requires references { references self.old < MAX_ENTRIES }
        ensures count { result ≡ count_at self.old hash + 1 }
        ensures joined { self.new ≡ with_count self.old hash (count_at self.old hash + 1) }
    {
        let field = self.chains.count_up(hash);
        if field == EXTENDED || field == u16::MAX {
            return self.join_wide(hash);
        }
        self.references += 1;
        u32::from(field) + 1
    }

    // Does the same, however wide the count is.
    fn join_wide(&mut self, hash: u64) -> u32
        requires present { IsSome (shared_at self.old hash) }
        requires references { references self.old < MAX_ENTRIES }
        ensures count { result ≡ count_at self.old hash + 1 }
        ensures joined { self.new ≡ with_count self.old hash (count_at self.old hash + 1) }
    {
        let entry = shared_entry(&self.chains, hash).unwrap();
        let count = self.wide.count_of(entry) + 1;
        let field = self.wide.store(entry, count);
        self.chains.replace(Entry::Shared {
            hash: entry.hash,
            mpn: U24::of(entry.mpn),
            count: field,
        });
        self.references += 1;
        count
    }

    /// Counts one page less that shares the frame with this hash, and removes the frame with its last page. Returns the
    /// count that is left.
    pub fn leave(&mut self, hash: u64) -> u32
        requires present { IsSome (shared_at self.old hash) }
        ensures count { result + 1 ≡ count_at self.old hash }
        ensures left { self.new ≡ with_one_less self.old hash }
    {
        let field = self.chains.count_down(hash);
        if field == EXTENDED {
            return self.leave_wide(hash);
        }
        self.references -= 1;
        u32::from(field) - 1
    }

    // Does the same for a count in the overflow table.
    fn leave_wide(&mut self, hash: u64) -> u32
        requires present { IsSome (shared_at self.old hash) }
        requires wide { 65536 ≤ count_at self.old hash }
        ensures count { result + 1 ≡ count_at self.old hash }
        ensures left { self.new ≡ with_one_less self.old hash }
    {
        let entry = shared_entry(&self.chains, hash).unwrap();
        let count = self.wide.count_of(entry) - 1;
        self.references -= 1;
        let field = self.wide.store(entry, count);
        self.chains.replace(Entry::Shared {
            hash: entry.hash,
            mpn: U24::of(entry.mpn),
            count: field,
        });
        count
    }

    /// Returns the hint frame with this key.
    pub fn find_hint(&self, key: u32) -> Option<HintFrame>
        ensures { result ≡ hint_at self.now key }
    {
        hint_entry(&self.chains, key)
    }

    /// Adds a hint frame.
    pub fn put_hint(&mut self, key: u32, guest: u8, ppn: u32, mpn: u32)
        requires absent { hint_at self.old key ≡ None }
        requires room { entry_count self.old < self.old.capacity }
        requires ppn { ppn < 2 ^ 24 }
        requires mpn { mpn < 2 ^ 24 }
        ensures { self.new ≡ with_hint self.old key guest ppn mpn }
    {
        self.chains.add(Entry::Hint {
            key,
            guest,
            ppn: U24::of(ppn),
            mpn: U24::of(mpn),
        });
    }

    /// Removes the hint frame with this key.
    pub fn drop_hint(&mut self, key: u32)
        requires present { IsSome (hint_at self.old key) }
        ensures { self.new ≡ without_hint self.old key }
    {
        self.chains.remove(Key::Hint(key));
    }
}
