//! A block: pages one after the other, in room that was allocated when the block was made.
ghost use Rattle.std.specs.Prelude.{◌≡◌, ◌+◌, ◌≤◌, ◌<◌, [], length, All, IfOk};
ghost use Rattle.page_model.specs.Pages.{blank, written};
ghost use Rattle.machine_frames.specs.FrameMap.{IsPage};
ghost use Rattle.machine_frames.specs.PageLists.{page_in, with_page, with_more};

use page_model::{PAGE_BYTES, Page};
use std::alloc::{AllocError, Allocator};
use std::marker::Model;

#[derive(Drop)]
pub(crate) struct Block<A: Allocator> {
    pages: Vec<Page, A>,
}

impl<A: Allocator> Model for Block<A> {
    ghost use Rattle.std.specs.Prelude.{vec_capacity};
    ghost use Rattle.machine_frames.specs.PageLists.{PageList, page_list_code};

    ghost Value = { PageList };

    ghost coded = { page_list_code };

    ghost view = { λ b. record { pages = b.pages.items; room = vec_capacity b.pages } };
}

impl<A: Allocator> Block<A> {
    // Makes a block with no pages, and with room for this many.
    pub(crate) fn new(alloc: A, room: usize) -> Result<Block<A>, AllocError>
        ensures { IfOk result (λ block. block ≡ record { pages = []; room = room }) }
    {
        let pages = Vec::with_capacity(alloc, room)?;
        Ok(Block { pages })
    }

    pub(crate) fn page(&self, number: usize) -> &Page
        requires { number < length self.now.pages }
        ensures value { result.now ≡ page_in self.now number }
        ensures page { IsPage result.now }
    {
        let page = &self.pages[number];
        bytes_fit(page);
        page
    }

    pub(crate) fn write(&mut self, number: usize, at: usize, bytes: &[u8])
        requires page { number < length self.old.pages }
        requires fits { at + length bytes.now ≤ PAGE_BYTES }
        ensures { self.new ≡ with_page self.old number (written (page_in self.old number) at bytes.now) }
    {
        self.pages[number][at..at + bytes.len()].copy_from_slice(bytes);
    }

    #[tactic(auto, unfolding(page_model::specs::Pages::blank))]
    pub(crate) fn clear(&mut self, number: usize)
        requires { number < length self.old.pages }
        ensures { self.new ≡ with_page self.old number blank }
    {
        self.pages[number] = [0; PAGE_BYTES];
    }

    pub(crate) fn set(&mut self, number: usize, page: Page)
        requires { number < length self.old.pages }
        ensures { self.new ≡ with_page self.old number page }
    {
        self.pages[number] = page;
    }

    pub(crate) fn push(&mut self, page: Page)
        requires { length self.old.pages < self.old.room }
        ensures { self.new ≡ with_more self.old page }
    {
        self.pages.push_reserved(page);
    }
}

// Each byte of a page fits in 8 bits.
pub(crate) fn bytes_fit(bytes: &[u8])
    ensures { All (λ b. b < 256) bytes.now }
{
    let _all = bytes.len();
}
