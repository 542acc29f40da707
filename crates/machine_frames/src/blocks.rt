//! Pages by their numbers, in blocks of 512: page n is page n mod 512 of block n div 512.
//!
//! A block's pages are next to one another, and the few entries that are read on the way to a page are soon in a cache.
ghost use Rattle.std.specs.Prelude.{◌≡◌, ◌+◌, ◌≤◌, ◌<◌, ◌==◌, [], length, Some, IfOk, option_map};
ghost use Rattle.page_model.specs.Pages.{blank, written};
ghost use Rattle.slab.specs.Slab.{get};
ghost use Rattle.machine_frames.specs.FrameMap.{IsPage};
ghost use Rattle.machine_frames.specs.PageLists.{page_in, with_page, with_more};
ghost use Rattle.machine_frames.specs.InBlocks.{HasPage, HasRoom, changed};

use crate::block::Block;
use page_model::{MAX_FRAMES, PAGE_BYTES, Page};
use slab::Slab;
use std::alloc::{AllocError, Allocator};
use std::marker::Model;

const BLOCK_PAGES: u32 = 512;

#[derive(Drop)]
pub(crate) struct Blocks<A: Allocator> {
    // The key in `blocks` of each block, in the blocks' order.
    keys: Vec<usize, A>,
    blocks: Slab<Block<A>, A>,
    len: u32,
    capacity: u32,
}

impl<A: Allocator> Model for Blocks<A> {
    ghost use Rattle.std.specs.Prelude.{◌*◌, ◌≤◌, length};
    ghost use Rattle.machine_frames.specs.PageLists.{PageList, page_list_code};
    ghost use Rattle.machine_frames.specs.InBlocks.{block_of, pages_in, AreBlocks};

    ghost Value = { PageList };

    ghost coded = { page_list_code };

    ghost view = { λ b. record { pages = pages_in (block_of b.keys.items b.blocks) b.len; room = b.capacity } };

    ghost invariant = { λ b. AreBlocks b.keys.items b.blocks b.len b.capacity × (b.capacity ≤ 512 * length b.keys.items) };
}

impl<A: Allocator> Blocks<A> {
    // Makes room for this many pages, with no page yet.
    pub(crate) fn new(alloc: A, capacity: u32) -> Result<Blocks<A>, AllocError>
    where
        A: Clone,
        requires { capacity ≤ MAX_FRAMES }
        ensures { IfOk result (λ blocks. blocks ≡ record { pages = []; room = capacity }) }
    {
        let count = capacity.div_ceil(BLOCK_PAGES);
        let mut keys = Vec::with_capacity(alloc.clone()?, count as usize)?;
        let mut blocks = Slab::with_capacity(alloc.clone()?, count as usize)?;
        for number in 0..count {
            let room = (capacity - number * BLOCK_PAGES).min(BLOCK_PAGES);
            let block = Block::new(alloc.clone()?, room as usize)?;
            keys.push_reserved(blocks.insert_reserved(block));
        }
        Ok(Blocks {
            keys,
            blocks,
            len: 0,
            capacity,
        })
    }

    // Returns the number of pages.
    pub(crate) fn len(&self) -> u32
        ensures value { result ≡ length self.now.pages }
        ensures room { result ≤ self.now.room }
    {
        self.len
    }

    // Returns how many pages there can be.
    pub(crate) fn capacity(&self) -> u32
        ensures { result ≡ self.now.room }
    {
        self.capacity
    }

    // Whether there can be no more pages.
    pub(crate) fn is_full(&self) -> bool
        ensures { result ≡ (length self.now.pages == self.now.room) }
    {
        self.len == self.capacity
    }

    pub(crate) fn page(&self, number: u32) -> &Page
        requires { number < length self.now.pages }
        ensures value { result.now ≡ page_in self.now number }
        ensures page { IsPage result.now }
    {
        let key = self.keys[(number / BLOCK_PAGES) as usize];
        page_at(&self.blocks, key, (number % BLOCK_PAGES) as usize)
    }

    pub(crate) fn write(&mut self, number: u32, at: usize, bytes: &[u8])
        requires page { number < length self.old.pages }
        requires fits { at + length bytes.now ≤ PAGE_BYTES }
        ensures { self.new ≡ with_page self.old number (written (page_in self.old number) at bytes.now) }
    {
        let key = self.keys[(number / BLOCK_PAGES) as usize];
        write_at(
            &mut self.blocks,
            key,
            (number % BLOCK_PAGES) as usize,
            at,
            bytes,
        );
    }

    // Fills a page with zeros.
    pub(crate) fn clear(&mut self, number: u32)
        requires { number < length self.old.pages }
        ensures { self.new ≡ with_page self.old number blank }
    {
        let key = self.keys[(number / BLOCK_PAGES) as usize];
        clear_at(&mut self.blocks, key, (number % BLOCK_PAGES) as usize);
    }

    // The three functions below have a whole page among their locals, so they aren't inlined into their callers.

    // Adds a page of zeros and returns its number.
    #[inline(never)]
    #[tactic(auto, unfolding(page_model::specs::Pages::blank))]
    pub(crate) fn add_zeroed(&mut self) -> u32
        requires { length self.old.pages < self.old.room }
        ensures value { result ≡ length self.old.pages }
        ensures more { self.new ≡ with_more self.old blank }
    {
        self.push([0; PAGE_BYTES])
    }

    // Copies the bytes of a page into another.
    #[inline(never)]
    pub(crate) fn copy(&mut self, from: u32, to: u32)
        requires from_page { from < length self.old.pages }
        requires to_page { to < length self.old.pages }
        ensures { self.new ≡ with_page self.old to (page_in self.old from) }
    {
        let page = *self.page(from);
        let key = self.keys[(to / BLOCK_PAGES) as usize];
        set_at(&mut self.blocks, key, (to % BLOCK_PAGES) as usize, page);
    }

    // Adds a copy of a page and returns its number.
    #[inline(never)]
    pub(crate) fn add_copy(&mut self, from: u32) -> u32
        requires room { length self.old.pages < self.old.room }
        requires from_page { from < length self.old.pages }
        ensures value { result ≡ length self.old.pages }
        ensures more { self.new ≡ with_more self.old (page_in self.old from) }
    {
        let page = *self.page(from);
        self.push(page)
    }

    // Adds a page and returns its number.
    fn push(&mut self, page: Page) -> u32
        requires { length self.old.pages < self.old.room }
        ensures value { result ≡ length self.old.pages }
        ensures more { self.new ≡ with_more self.old page }
    {
        let number = self.len;
        let key = self.keys[(number / BLOCK_PAGES) as usize];
        push_at(&mut self.blocks, key, page);
        self.len += 1;
        number
    }
}

fn page_at<A: Allocator>(blocks: &Slab<Block<A>, A>, key: usize, at: usize) -> &Page
    requires { HasPage blocks.now key at }
    ensures value { Some result.now ≡ option_map (λ block. page_in block at) (get blocks.now key) }
    ensures page { IsPage result.now }
{
    blocks.get(key).unwrap().page(at)
}

fn write_at<A: Allocator>(
    blocks: &mut Slab<Block<A>, A>,
    key: usize,
    number: usize,
    at: usize,
    bytes: &[u8],
)
    requires page { HasPage blocks.old key number }
    requires fits { at + length bytes.now ≤ PAGE_BYTES }
    ensures { blocks.new ≡ changed (λ block. with_page block number (written (page_in block number) at bytes.now)) blocks.old key }
{
    blocks.get_mut(key).unwrap().write(number, at, bytes);
}

fn clear_at<A: Allocator>(blocks: &mut Slab<Block<A>, A>, key: usize, number: usize)
    requires { HasPage blocks.old key number }
    ensures { blocks.new ≡ changed (λ block. with_page block number blank) blocks.old key }
{
    blocks.get_mut(key).unwrap().clear(number);
}

fn set_at<A: Allocator>(blocks: &mut Slab<Block<A>, A>, key: usize, number: usize, page: Page)
    requires { HasPage blocks.old key number }
    ensures { blocks.new ≡ changed (λ block. with_page block number page) blocks.old key }
{
    blocks.get_mut(key).unwrap().set(number, page);
}

fn push_at<A: Allocator>(blocks: &mut Slab<Block<A>, A>, key: usize, page: Page)
    requires { HasRoom blocks.old key }
    ensures { blocks.new ≡ changed (λ block. with_more block page) blocks.old key }
{
    blocks.get_mut(key).unwrap().push(page);
}
