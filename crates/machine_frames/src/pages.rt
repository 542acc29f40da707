//! Pages by their numbers, wherever they lie.
ghost use Rattle.std.specs.Prelude.{◌≡◌, ◌+◌, ◌≤◌, ◌<◌, ◌==◌, [], length, IfOk};
ghost use Rattle.core.specs.Mem.Slots.{slots_len};
ghost use Rattle.page_model.specs.Pages.{blank, written};
ghost use Rattle.machine_frames.specs.FrameMap.{IsPage};
ghost use Rattle.machine_frames.specs.PageLists.{page_in, with_page, with_more};

use crate::blocks::Blocks;
use crate::region::Memory;
use crate::rooms::Rooms;
use crate::storage::Storage;
use page_model::{MAX_FRAMES, PAGE_BYTES, Page};
use std::alloc::{AllocError, Allocator};
use std::marker::Model;

#[derive(Drop)]
pub(crate) struct Pages<A: Allocator> {
    storage: Storage<A>,
}

impl<A: Allocator> Model for Pages<A> {
    ghost use Rattle.machine_frames.specs.PageLists.{PageList, page_list_code};
    ghost use Rattle.machine_frames.specs.Stored.{stored_in};

    ghost Value = { PageList };

    ghost coded = { page_list_code };

    ghost view = { λ p. stored_in p.storage };
}

impl<A: Allocator> Pages<A> {
    // Makes room for this many pages, with no page yet.
    pub(crate) fn new(alloc: A, capacity: u32) -> Result<Pages<A>, AllocError>
    where
        A: Clone,
        requires { capacity ≤ MAX_FRAMES }
        ensures { IfOk result (λ pages. pages ≡ record { pages = []; room = capacity }) }
    {
        let blocks = Blocks::new(alloc, capacity)?;
        Ok(Pages {
            storage: Storage::Blocks(blocks),
        })
    }

    // Makes room for as many pages as fit in this memory, with no page yet.
    pub(crate) fn in_memory(memory: Memory) -> Pages<A>
        requires { slots_len memory.slots ≤ MAX_FRAMES }
        ensures { result ≡ record { pages = []; room = slots_len memory.slots } }
    {
        Pages {
            storage: Storage::Rooms(Rooms::new(memory)),
        }
    }

    // Returns the number of pages.
    pub(crate) fn len(&self) -> u32
        ensures value { result ≡ length self.now.pages }
        ensures room { result ≤ self.now.room }
    {
        match &self.storage {
            Storage::Blocks(blocks) => blocks.len(),
            Storage::Rooms(rooms) => rooms.len(),
        }
    }

    // Returns how many pages there can be.
    pub(crate) fn capacity(&self) -> u32
        ensures { result ≡ self.now.room }
    {
        match &self.storage {
            Storage::Blocks(blocks) => blocks.capacity(),
            Storage::Rooms(rooms) => rooms.capacity(),
        }
    }

    // Whether there can be no more pages.
    pub(crate) fn is_full(&self) -> bool
        ensures { result ≡ (length self.now.pages == self.now.room) }
    {
        self.len() == self.capacity()
    }

    pub(crate) fn page(&self, number: u32) -> &Page
        requires { number < length self.now.pages }
        ensures value { result.now ≡ page_in self.now number }
        ensures page { IsPage result.now }
    {
        match &self.storage {
            Storage::Blocks(blocks) => blocks.page(number),
            Storage::Rooms(rooms) => rooms.page(number),
        }
    }

    pub(crate) fn write(&mut self, number: u32, at: usize, bytes: &[u8])
        requires page { number < length self.old.pages }
        requires fits { at + length bytes.now ≤ PAGE_BYTES }
        ensures { self.new ≡ with_page self.old number (written (page_in self.old number) at bytes.now) }
    {
        match &mut self.storage {
            Storage::Blocks(blocks) => blocks.write(number, at, bytes),
            Storage::Rooms(rooms) => rooms.write(number, at, bytes),
        }
    }

    // Fills a page with zeros.
    pub(crate) fn clear(&mut self, number: u32)
        requires { number < length self.old.pages }
        ensures { self.new ≡ with_page self.old number blank }
    {
        match &mut self.storage {
            Storage::Blocks(blocks) => blocks.clear(number),
            Storage::Rooms(rooms) => rooms.clear(number),
        }
    }

    // Copies the bytes of a page into another.
    pub(crate) fn copy(&mut self, from: u32, to: u32)
        requires from_page { from < length self.old.pages }
        requires to_page { to < length self.old.pages }
        ensures { self.new ≡ with_page self.old to (page_in self.old from) }
    {
        match &mut self.storage {
            Storage::Blocks(blocks) => blocks.copy(from, to),
            Storage::Rooms(rooms) => rooms.copy(from, to),
        }
    }

    // Adds a page of zeros and returns its number.
    pub(crate) fn add_zeroed(&mut self) -> u32
        requires { length self.old.pages < self.old.room }
        ensures value { result ≡ length self.old.pages }
        ensures more { self.new ≡ with_more self.old blank }
    {
        match &mut self.storage {
            Storage::Blocks(blocks) => blocks.add_zeroed(),
            Storage::Rooms(rooms) => rooms.add_zeroed(),
        }
    }

    // Adds a copy of a page and returns its number.
    pub(crate) fn add_copy(&mut self, from: u32) -> u32
        requires room { length self.old.pages < self.old.room }
        requires from_page { from < length self.old.pages }
        ensures value { result ≡ length self.old.pages }
        ensures more { self.new ≡ with_more self.old (page_in self.old from) }
    {
        match &mut self.storage {
            Storage::Blocks(blocks) => blocks.add_copy(from),
            Storage::Rooms(rooms) => rooms.add_copy(from),
        }
    }
}
