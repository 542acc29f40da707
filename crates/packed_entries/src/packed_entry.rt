//! A packed entry as it is in memory.
ghost use Rattle.std.specs.Prelude.{◌≡◌, ◌<◌, ◌^◌};
ghost use Rattle.packed_entries.specs.Keys.{has_key};
ghost use Rattle.packed_entries.specs.Places.{with_link, with_entry};

use crate::packed::{finds, link_of, relinked};
use crate::{Entry, Key, Packed, U23};
use std::marker::Model;

// Sixteen bytes that `Packed::read` can read.
#[derive(Drop)]
pub(crate) struct PackedEntry {
    bytes: [u8; 16],
}

impl Model for PackedEntry {
    ghost use Rattle.std.specs.Prelude.{IsSome};
    ghost use Rattle.packed_entries.specs.declared.packed.Packed.{Packed};
    ghost use Rattle.packed_entries.specs.Packing.{unpacked};
    ghost use Rattle.packed_entries.specs.Places.{packed_in};

    ghost Value = { Packed };

    ghost view = { λ f. packed_in f.bytes };

    ghost invariant = { λ f. IsSome (unpacked f.bytes) };
}

impl PackedEntry {
    pub(crate) fn new(packed: Packed) -> PackedEntry
        ensures { result ≡ packed }
    {
        PackedEntry {
            bytes: packed.write(),
        }
    }

    #[inline]
    pub(crate) fn get(&self) -> Packed
        ensures { result ≡ self.now }
    {
        Packed::of(&self.bytes)
    }

    pub(crate) fn set(&mut self, packed: Packed)
        ensures { self.new ≡ packed }
    {
        self.bytes = packed.write();
    }

    // Whether the key finds the entry.
    #[inline]
    pub(crate) fn has_key(&self, key: Key) -> bool
        ensures { result ≡ has_key key self.now.entry }
    {
        finds(key, &self.bytes)
    }

    // Returns the link to the next place.
    #[inline]
    pub(crate) fn link(&self) -> u32
        ensures value { result ≡ self.now.link }
        ensures fits { result < 2 ^ 23 }
    {
        link_of(&self.bytes)
    }

    // Writes the link to the next place.
    #[inline]
    pub(crate) fn set_link(&mut self, link: u32)
        requires { link < 2 ^ 23 }
        ensures { self.new ≡ with_link self.old link }
    {
        self.bytes = relinked(&self.bytes, link);
    }

    // Writes the entry.
    #[inline]
    pub(crate) fn set_entry(&mut self, entry: Entry)
        ensures { self.new ≡ with_entry self.old entry }
    {
        let link = U23::of(self.link());
        self.bytes = Packed { entry, link }.write();
    }
}
