//! Pages in a region of the caller's: page n is the n-th of that memory.
ghost use Rattle.std.specs.Prelude.{◌≡◌, ◌+◌, ◌≤◌, ◌<◌, [], length};
ghost use Rattle.core.specs.Mem.Slots.{slots_len};
ghost use Rattle.page_model.specs.Pages.{blank, written};
ghost use Rattle.machine_frames.specs.FrameMap.{IsPage};
ghost use Rattle.machine_frames.specs.PageLists.{page_in, with_page, with_more};

use crate::block::bytes_fit;
use crate::region::Memory;
use page_model::{MAX_FRAMES, PAGE_BYTES, Page};
use std::marker::Model;

#[derive(Drop)]
pub(crate) struct Rooms {
    // A slot for each page. The first `len` hold one.
    memory: Memory,
    len: u32,
}

impl Model for Rooms {
    ghost use Rattle.std.specs.Prelude.{◌≤◌};
    ghost use Rattle.core.specs.Mem.Slots.{slots_items, slots_filled, slots_len};
    ghost use Rattle.core.specs.Mem.Slots.Ownership.{Filled};
    ghost use Rattle.page_model.specs.declared.limits.TheConstants.{MAX_FRAMES};
    ghost use Rattle.machine_frames.specs.PageLists.{PageList, page_list_code, first_rooms};

    ghost Value = { PageList };

    ghost coded = { page_list_code };

    ghost view = { λ r. first_rooms (slots_items r.memory.slots) r.len };

    ghost use base.Fml.{ftrue};
    ghost use denote.Sharing.{nothing};

    ghost also_owns = { λ r. ftrue };

    ghost also_shares = { λ r _ κ. nothing κ };

    ghost invariant = { λ r. (r.len ≤ slots_len r.memory.slots) × (slots_len r.memory.slots ≤ MAX_FRAMES) × Filled (slots_filled r.memory.slots) 0 r.len };
}

unsafe impl Send for Rooms {}

unsafe impl Sync for Rooms {}

impl Rooms {
    // Makes room for as many pages as fit in this memory, with no page yet.
    pub(crate) fn new(memory: Memory) -> Rooms
        requires { slots_len memory.slots ≤ MAX_FRAMES }
        ensures { result ≡ record { pages = []; room = slots_len memory.slots } }
    {
        Rooms { memory, len: 0 }
    }

    // Returns the number of pages.
    pub(crate) fn len(&self) -> u32
        ensures value { result ≡ length self.now.pages }
        ensures room { result ≤ self.now.room }
    {
        self.len
    }

    // Returns how many pages there can be.
    pub(crate) fn capacity(&self) -> u32
        ensures { result ≡ self.now.room }
    {
        self.memory.slots.len() as u32
    }

    pub(crate) fn page(&self, number: u32) -> &Page
        requires { number < length self.now.pages }
        ensures value { result.now ≡ page_in self.now number }
        ensures page { IsPage result.now }
    {
        let page = self.memory.slots.get(number as usize);
        bytes_fit(page);
        page
    }

    pub(crate) fn write(&mut self, number: u32, at: usize, bytes: &[u8])
        requires page { number < length self.old.pages }
        requires fits { at + length bytes.now ≤ PAGE_BYTES }
        ensures { self.new ≡ with_page self.old number (written (page_in self.old number) at bytes.now) }
    {
        let page = self.memory.slots.get_mut(number as usize);
        write_bytes(page, at, bytes);
    }

    // Fills a page with zeros.
    #[tactic(auto, unfolding(page_model::specs::Pages::blank))]
    pub(crate) fn clear(&mut self, number: u32)
        requires { number < length self.old.pages }
        ensures { self.new ≡ with_page self.old number blank }
    {
        self.memory.slots.put(number as usize, [0; PAGE_BYTES]);
    }

    // Copies the bytes of a page into another.
    #[inline(never)]
    pub(crate) fn copy(&mut self, from: u32, to: u32)
        requires from_page { from < length self.old.pages }
        requires to_page { to < length self.old.pages }
        ensures { self.new ≡ with_page self.old to (page_in self.old from) }
    {
        let page = *self.page(from);
        self.memory.slots.put(to as usize, page);
    }

    // Adds a page of zeros and returns its number.
    #[inline(never)]
    #[tactic(auto, unfolding(page_model::specs::Pages::blank))]
    pub(crate) fn add_zeroed(&mut self) -> u32
        requires { length self.old.pages < self.old.room }
        ensures value { result ≡ length self.old.pages }
        ensures more { self.new ≡ with_more self.old blank }
    {
        self.push([0; PAGE_BYTES])
    }

    // Adds a copy of a page and returns its number.
    #[inline(never)]
    pub(crate) fn add_copy(&mut self, from: u32) -> u32
        requires room { length self.old.pages < self.old.room }
        requires from_page { from < length self.old.pages }
        ensures value { result ≡ length self.old.pages }
        ensures more { self.new ≡ with_more self.old (page_in self.old from) }
    {
        let page = *self.page(from);
        self.push(page)
    }

    // Adds a page and returns its number.
    fn push(&mut self, page: Page) -> u32
        requires { length self.old.pages < self.old.room }
        ensures value { result ≡ length self.old.pages }
        ensures more { self.new ≡ with_more self.old page }
    {
        let number = self.len;
        self.memory.slots.put(number as usize, page);
        self.len += 1;
        number
    }
}

fn write_bytes(page: &mut Page, at: usize, bytes: &[u8])
    requires { at + length bytes.now ≤ PAGE_BYTES }
    ensures { page.new ≡ written page.old at bytes.now }
{
    page[at..at + bytes.len()].copy_from_slice(bytes);
}
