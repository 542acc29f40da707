//! The overflow table: counts that don't fit in an entry's field.
ghost use Rattle.std.specs.Prelude.{◌≡◌, ◌≤◌, ◌==◌, IsSome, Some, position};
ghost use Rattle.std.specs.FinMap as map;
ghost use Rattle.share_table.specs.Stored.{widened, Agrees, rewidened};
ghost use Rattle.share_table.specs.TableMaps.{field_of};

use crate::entries::{EXTENDED, SharedEntry, WideCount};
use arrayvec::ArrayVec;
use std::marker::Model;

#[derive(Drop)]
pub(crate) struct WideCounts {
    entries: ArrayVec<WideCount, 16>,
}

impl Model for WideCounts {
    ghost use Rattle.std.specs.Prelude.{map};
    ghost use Rattle.std.specs.FinMap as maps;
    ghost use Rattle.std.specs.Coded.{coded_ℕ};
    ghost use Rattle.share_table.specs.Stored.{WideMap, wide_pair, HasDistinctKeys};

    ghost Value = { WideMap };

    ghost coded = { maps.code coded_ℕ coded_ℕ };

    ghost view = { λ w. maps.from_entries (map wide_pair w.entries.items) };

    ghost invariant = { λ w. HasDistinctKeys (map wide_pair w.entries.items) };
}

impl WideCounts {
    pub(crate) fn new() -> WideCounts
        ensures { result ≡ map.empty }
    {
        WideCounts {
            entries: ArrayVec::new(),
        }
    }

    pub(crate) fn len(&self) -> usize
        ensures value { result ≡ map.len self.now }
        ensures fits { result ≤ 16 }
    {
        self.entries.len()
    }

    fn get(&self, hash: u64) -> u32
        requires { IsSome (map.get self.now hash) }
        ensures { map.get self.now hash ≡ Some result }
    {
        let place = wide_place(self.entries.as_slice(), hash).unwrap();
        self.entries[place].count
    }

    // Puts the count under the hash, replacing an earlier one.
    fn put(&mut self, hash: u64, count: u32)
        requires { map.len (map.insert self.old hash count) ≤ 16 }
        ensures { self.new ≡ map.insert self.old hash count }
    {
        match wide_place(self.entries.as_slice(), hash) {
            Some(place) => self.entries[place] = WideCount { hash, count },
            None => self.entries.push(WideCount { hash, count }),
        }
    }

    fn remove(&mut self, hash: u64)
        requires { IsSome (map.get self.old hash) }
        ensures { self.new ≡ map.remove self.old hash }
    {
        let place = wide_place(self.entries.as_slice(), hash).unwrap();
        self.entries.remove(place);
    }

    /// Returns the count of a shared frame.
    pub(crate) fn count_of(&self, entry: SharedEntry) -> u32
        requires { Agrees (Some entry) (map.get self.now entry.hash) }
        ensures { result ≡ widened entry.field (map.get self.now entry.hash) }
    {
        if entry.field == EXTENDED {
            self.get(entry.hash)
        } else {
            u32::from(entry.field)
        }
    }

    /// Returns the field for a new count of a shared frame, and keeps the count here if it doesn't fit in the field.
    pub(crate) fn store(&mut self, entry: SharedEntry, count: u32) -> u16
        requires agrees { Agrees (Some entry) (map.get self.old entry.hash) }
        requires room { map.len (rewidened self.old entry.hash entry.field count) ≤ 16 }
        ensures field { result ≡ field_of count }
        ensures counts { self.new ≡ rewidened self.old entry.hash entry.field count }
    {
        match u16::try_from(count) {
            Ok(field) => {
                if entry.field == EXTENDED {
                    self.remove(entry.hash);
                }
                field
            }
            Err(_) => {
                self.put(entry.hash, count);
                EXTENDED
            }
        }
    }
}

// Returns where a hash's count is.
fn wide_place(entries: &[WideCount], hash: u64) -> Option<usize>
    ensures { result ≡ position (λ e. e.hash == hash) entries.now }
{
    entries.iter().position(|entry| entry.hash == hash)
}
