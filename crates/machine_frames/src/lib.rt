//! Machine memory: frames of 4,096 bytes, numbered by machine page numbers (MPNs) below a fixed total.
#![tactic(auto)]

ghost use Rattle.std.specs.Prelude.{◌≡◌, ◌≢◌, ◌+◌, ◌≤◌, ◌<◌, ◌↔◌, ◌⊎◌, ℕ, length, None, Some, IsNone};
ghost use Rattle.std.specs.Prelude.{IfNone, IfSome, IfOk, IfErr, slice_set, option_map};
ghost use Rattle.page_model.specs.Pages.{blank, written};
ghost use Rattle.machine_frames.specs.FrameMap.{frame, IsTaken, used, no_frames, IsPage};

mod block;
mod blocks;
mod pages;
mod region;
mod rooms;
mod storage;

use page_model::{MAX_FRAMES, PAGE_BYTES, Page};
use pages::Pages;
use region::Memory;
pub use region::Region;
use std::alloc::{AllocError, Allocator, Global};
use std::cmp::Reverse;
use std::collections::BinaryHeap;
use std::marker::Model;
use thiserror::Error;

/// Why there are no frames.
#[derive(Clone, Copy, Debug, PartialEq, Eq, Error)]
pub enum FramesFault {
    /// The number of frames is 0 or above `MAX_FRAMES`.
    #[error("ask for 1 to 1,048,576 frames")]
    Frames,
    /// The region has room for another number of pages.
    #[error("give a region of 4,096 bytes for each frame")]
    Region,
    /// The memory for the frames was refused.
    #[error("the frames' memory was refused: free some, or ask for fewer frames")]
    OutOfMemory,
}

impl From<AllocError> for FramesFault {
    ghost use Rattle.std.specs.Prelude.{◌≡◌};
    ghost use Rattle.machine_frames.specs.declared.FramesFault.{FramesFault};

    ghost from_gives = { λ _ fault. fault ≡ FramesFault.OutOfMemory };

    fn from(_refused: AllocError) -> FramesFault {
        FramesFault::OutOfMemory
    }
}

/// A fixed number of frames, each of them free or taken.
///
/// `new` allocates all memory, but a frame's memory is first touched when that frame is first taken. From then on its
/// page stays where it is.
#[derive(Drop)]
pub struct Frames<A: Allocator = Global> {
    // The page of each frame that was ever taken, by MPN, and room for the pages of all others.
    pages: Pages<A>,
    // The frames that were given back, the lowest first. Each of them is below all that were never taken.
    free: BinaryHeap<Reverse<u32>, A>,
}

impl<A: Allocator> Model for Frames<A> {
    ghost use Rattle.std.specs.Prelude.{◌≤◌, ℕ, List, Option};
    ghost use Rattle.std.specs.BinaryHeap.{heap_items, heap_capacity};
    ghost use Rattle.machine_frames.specs.Places.{frames_of, IsSound};

    ghost Value = { List (Option (List ℕ)) };

    ghost view = { λ f. frames_of (heap_items f.free) f.pages };

    ghost invariant = { λ f. IsSound (heap_items f.free) f.pages × (f.pages.room ≤ heap_capacity f.free) };
}

impl<A: Allocator> Frames<A> {
    /// Makes `count` frames, all of them free.
    pub fn new(alloc: A, count: u32) -> Result<Frames<A>, FramesFault>
    where
        A: Clone,
        ensures ok { IfOk result (λ frames. frames ≡ no_frames count) }
        ensures in_range { IfOk result (λ _. (1 ≤ count) × (count ≤ MAX_FRAMES)) }
        ensures fault { IfErr result (λ fault. fault ≡ FramesFault.Frames ↔ ((count ≡ 0) ⊎ (MAX_FRAMES < count))) }
    {
        if count == 0 || count > MAX_FRAMES {
            return Err(FramesFault::Frames);
        }
        let free = BinaryHeap::with_capacity(alloc.clone()?, count as usize)?;
        let pages = Pages::new(alloc, count)?;
        Ok(Frames { pages, free })
    }

    /// Makes `count` frames in a region with room for as many pages, all of them free. Frame n is the n-th page of it.
    ///
    /// A frame is written whole when it is taken, before anything reads it, so what a free frame holds doesn't matter.
    pub fn in_region(alloc: A, count: u32, region: Region) -> Result<Frames<A>, FramesFault>
        ensures ok { IfOk result (λ frames. frames ≡ no_frames count) }
        ensures in_range { IfOk result (λ _. (1 ≤ count) × (count ≤ MAX_FRAMES) × (region.pages ≡ count)) }
        ensures fault { IfErr result (λ fault. fault ≡ FramesFault.Frames ↔ ((count ≡ 0) ⊎ (MAX_FRAMES < count))) }
        ensures region { IfErr result (λ fault. fault ≡ FramesFault.Region
            ↔ ((1 ≤ count) × (count ≤ MAX_FRAMES) × (region.pages ≢ count))) }
    {
        if count == 0 || count > MAX_FRAMES {
            return Err(FramesFault::Frames);
        }
        let memory = Memory::new(region);
        if memory.slots.len() != count as usize {
            return Err(FramesFault::Region);
        }
        let free = BinaryHeap::with_capacity(alloc, count as usize)?;
        let pages = Pages::in_memory(memory);
        Ok(Frames { pages, free })
    }

    /// Returns the number of frames that are taken.
    pub fn used(&self) -> u32
        ensures value { result ≡ used self.now }
        ensures within { result ≤ length self.now }
    {
        self.pages.len() - self.free.len() as u32
    }

    /// Returns the number of all frames, free or taken.
    pub fn total(&self) -> u32
        ensures { result ≡ length self.now }
    {
        self.pages.capacity()
    }

    /// Takes the lowest free frame, which then holds zeros. Returns `None` if no frame is free.
    pub fn take_zeroed(&mut self) -> Option<u32>
        ensures full { IsNone result ↔ (used self.old ≡ length self.old) }
        ensures none { IfNone result (self.new ≡ self.old) }
        ensures free { IfSome result (λ mpn. (mpn < length self.old) × (frame self.old mpn ≡ None)) }
        ensures lowest { IfSome result (λ mpn. (n : ℕ) → n < mpn → IsTaken self.old n) }
        ensures taken { IfSome result (λ mpn. self.new ≡ slice_set self.old mpn (Some blank)) }
    {
        if let Some(Reverse(mpn)) = self.free.pop() {
            self.pages.clear(mpn);
            return Some(mpn);
        }
        if self.pages.is_full() {
            return None;
        }
        Some(self.pages.add_zeroed())
    }

    /// Takes the lowest free frame, which then holds the bytes of the frame `mpn`. Returns `None` if no frame is free.
    pub fn take_copy(&mut self, mpn: u32) -> Option<u32>
        requires { IsTaken self.old mpn }
        ensures full { IsNone result ↔ (used self.old ≡ length self.old) }
        ensures none { IfNone result (self.new ≡ self.old) }
        ensures free { IfSome result (λ copy. (copy < length self.old) × (frame self.old copy ≡ None)) }
        ensures lowest { IfSome result (λ copy. (n : ℕ) → n < copy → IsTaken self.old n) }
        ensures taken { IfSome result (λ copy. self.new ≡ slice_set self.old copy (frame self.old mpn)) }
    {
        if let Some(Reverse(copy)) = self.free.pop() {
            self.pages.copy(mpn, copy);
            return Some(copy);
        }
        if self.pages.is_full() {
            return None;
        }
        Some(self.pages.add_copy(mpn))
    }

    /// Returns the bytes of a frame.
    pub fn bytes(&self, mpn: u32) -> &Page
        requires { IsTaken self.now mpn }
        ensures value { frame self.now mpn ≡ Some result.now }
        ensures page { IsPage result.now }
    {
        self.pages.page(mpn)
    }

    /// Writes `bytes` to a frame, from the place `at` on.
    pub fn write(&mut self, mpn: u32, at: u32, bytes: &[u8])
        requires taken { IsTaken self.old mpn }
        requires fits { at + length bytes.now ≤ PAGE_BYTES }
        ensures { self.new ≡ slice_set self.old mpn (option_map (λ page. written page at bytes.now) (frame self.old mpn)) }
    {
        self.pages.write(mpn, at as usize, bytes);
    }

    /// Frees a frame. Asks for no memory: there is room to list every frame.
    pub fn give_back(&mut self, mpn: u32)
        requires { IsTaken self.old mpn }
        ensures { self.new ≡ slice_set self.old mpn None }
    {
        self.free.push(Reverse(mpn)).unwrap();
    }
}
