//! How many slots have each frame.
ghost use Rattle.std.specs.Prelude.{◌≡◌, ◌+◌, ◌-◌, ◌<◌, ◌≤◌, ℕ, Some, length, slice_set, slice_index, count_by};
ghost use Rattle.page_model.specs.declared.limits.TheConstants.{MAX_PAGES};
ghost use Rattle.lent_slots.specs.Fits.{Counts, Fits};
ghost use Rattle.lent_slots.specs.declared.holding.Holding.{Holding};
ghost use Rattle.lent_slots.specs.Slots.{holding};
ghost use Rattle.lent_slots.specs.Tags.{slots_of};
ghost use Rattle.lent_slots.specs.Totals.{is_shared};

use crate::core_slots::holding_in;
use lazy_list::LazyList;
use merge_core::Core;
use page_digest::PageHash;
use std::alloc::Allocator;

/// Increments the frame's sharer count and returns it.
pub fn add_sharer<A: Allocator>(counts: &mut LazyList<u32, A>, frame: u32) -> u32
    requires within { frame < length counts.old }
    requires room { slice_index counts.old frame ≤ MAX_PAGES }
    ensures count { result ≡ slice_index counts.old frame + 1 }
    ensures counts { counts.new ≡ slice_set counts.old frame (slice_index counts.old frame + 1) }
{
    let count = counts.get(frame) + 1;
    counts.set(frame, count);
    count
}

/// Decrements the frame's sharer count and returns it.
pub fn drop_sharer<A: Allocator>(counts: &mut LazyList<u32, A>, frame: u32) -> u32
    requires within { frame < length counts.old }
    requires some { 1 ≤ slice_index counts.old frame }
    ensures count { result + 1 ≡ slice_index counts.old frame }
    ensures counts { counts.new ≡ slice_set counts.old frame (slice_index counts.old frame - 1) }
{
    let count = counts.get(frame) - 1;
    counts.set(frame, count);
    count
}

/// Whether a slot's frame has more than one sharer.
fn is_shared<H: PageHash, A: Allocator>(
    core: &Core<H, A>,
    tags: &LazyList<u32, A>,
    counts: &LazyList<u32, A>,
    ppn: u32,
) -> bool
    requires fits { Fits (slots_of core.now.pmap tags.now) core.now }
    requires slot { ppn < length tags.now }
    requires within { (n : ℕ) (h : Holding) → holding (slots_of core.now.pmap tags.now) n ≡ Some h → h.frame < length counts.now }
    requires each { Counts (slots_of core.now.pmap tags.now) (length counts.now) counts.now }
    ensures { result ≡ is_shared (slots_of core.now.pmap tags.now) (holding (slots_of core.now.pmap tags.now) ppn) }
{
    match holding_in(core, tags, ppn) {
        None => false,
        Some(held) => counts.get(held.frame) >= 2,
    }
}

/// Counts the slots whose frame has more than one sharer.
pub fn count_shared<H: PageHash, A: Allocator>(
    core: &Core<H, A>,
    tags: &LazyList<u32, A>,
    counts: &LazyList<u32, A>,
) -> u32
    requires fits { Fits (slots_of core.now.pmap tags.now) core.now }
    requires few { length tags.now ≤ MAX_PAGES }
    requires within { (ppn : ℕ) (h : Holding) → holding (slots_of core.now.pmap tags.now) ppn ≡ Some h → h.frame < length counts.now }
    requires each { Counts (slots_of core.now.pmap tags.now) (length counts.now) counts.now }
    ensures count { result ≡ count_by (is_shared (slots_of core.now.pmap tags.now)) (slots_of core.now.pmap tags.now) }
    ensures few { result ≤ MAX_PAGES }
{
    let mut shared = 0;
    for i in 0..tags.len() {
        if is_shared(core, tags, counts, i) {
            shared += 1;
        }
    }
    shared
}
