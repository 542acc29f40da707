//! Memory of the caller's, for frames.
ghost use Rattle.std.specs.Prelude.{◌≡◌, ℕ, List, Bool, length};
ghost use Rattle.core.specs.Mem.Slots.{slots_items, slots_filled, slots_len};

use core::slots::Slots;
use page_model::Page;
use std::marker::Model;

/// Memory for a machine's frames, which the caller gives for good: room for `pages` pages of 4,096 bytes, one after the other.
///
/// It can come from C, which promises that it lies there and that nobody else writes to it.
#[repr(C)]
#[derive(Drop)]
pub struct Region {
    at: *mut Page,
    pages: usize,
    /// What each page of it holds, which nothing reads where `held` says no.
    ghost texts: { List (List ℕ) },
    ghost held: { List Bool },
    ghost counted: { (pages ≡ length texts) × (pages ≡ length held) },
}

impl Model for Region {
    ghost use Rattle.machine_frames.specs.Regions.{region_owns};

    ghost also_owns = { λ r. region_owns r.at r.pages r.texts r.held };
}

// SAFETY: nothing else accesses this memory, so it may go to another thread with its address.
unsafe impl Send for Region {}

impl Region {
    // Returns the memory as slots for pages.
    fn into_slots(self) -> Slots<Page>
        ensures { (slots_len result ≡ self.pages) × (slots_items result ≡ self.texts) × (slots_filled result ≡ self.held) }
    {
        let Region { at, pages } = self;
        unsafe { Slots::from_raw_parts(at, pages) }
    }
}

// The memory of a region, as slots for pages.
pub(crate) struct Memory {
    pub(crate) slots: Slots<Page>,
}

impl Memory {
    pub(crate) fn new(region: Region) -> Memory
        ensures { slots_len result.slots ≡ region.pages }
    {
        let slots = region.into_slots();
        Memory { slots }
    }
}

// The memory isn't given back: the caller gave it for good.
impl Drop for Memory {
    fn drop(self) {
        let Memory { slots } = self;
        let _parts = unsafe { slots.into_raw_parts() };
    }
}
