//! Searches for entries in the chains.
ghost use Rattle.std.specs.Prelude.{◌≡◌, ◌<◌, ◌^◌, IfSome};
ghost use Rattle.packed_entries.specs.declared.key.Key.TheVariants as keys;
ghost use Rattle.packed_entries.specs.Keys.{first_with};
ghost use Rattle.packed_entries.specs.Entries.{chain_of};
ghost use Rattle.share_table.specs.Stored.{shared_of, hint_of, value_of};

use crate::entries::{HintFrame, SharedEntry};
use packed_entries::Chains;
use std::alloc::Allocator;

// Returns the entry of the shared frame with this hash.
pub(crate) fn shared_entry<A: Allocator>(chains: &Chains<A>, hash: u64) -> Option<SharedEntry>
    ensures found { result ≡ value_of shared_of (first_with (keys.Shared hash) (chain_of chains.now (keys.Shared hash))) }
    ensures hash { IfSome result (λ e. e.hash ≡ hash) }
    ensures fits { IfSome result (λ e. e.mpn < 2 ^ 24) }
{
    match chains.find_shared(hash) {
        Some((mpn, field)) => Some(SharedEntry { hash, mpn, field }),
        None => None,
    }
}

// Returns what the entry of the hint frame with this key has.
pub(crate) fn hint_entry<A: Allocator>(chains: &Chains<A>, key: u32) -> Option<HintFrame>
    ensures { result ≡ value_of hint_of (first_with (keys.Hint key) (chain_of chains.now (keys.Hint key))) }
{
    match chains.find_hint(key) {
        Some((guest, ppn, mpn)) => Some(HintFrame { guest, ppn, mpn }),
        None => None,
    }
}
