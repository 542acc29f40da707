//! How much memory a machine asks for, apart from its pages.
use crate::checks::holds_at;
use merge_core::Core;
use page_digest::Sha256Hash;
use page_model::{MAX_FRAMES, MAX_PAGES};
use refusing::Refusing;
use std::alloc::{Allocator, Global};
use std::process::Abort;

// What a machine keeps in addition to the pages of its frames, at most: for each frame, for each page, and in all. Seven forecasts
// of a page are part of the last.
const FRAME: u64 = 48;

const PAGE: u64 = 16;

const MORE: u64 = 4096 + 7 * 4160;

/// Makes a machine with `frames` frames and one guest of `pages` pages. Returns whether there was memory for it.
fn is_made<A: Allocator + Clone>(alloc: A, frames: u32, pages: u32) -> bool {
    Core::new(alloc, frames, &[pages], &[0], Sha256Hash).is_ok()
}

/// Returns how many bytes a machine with `frames` frames and one guest of `pages` pages asks for.
fn asked(rt: &impl Abort, alloc: Global, frames: u32, pages: u32) -> u64 {
    let heap = Refusing::new(alloc, u64::MAX, 0);
    holds_at(rt, frames, is_made(&heap, frames, pages));
    heap.bytes_asked()
}

/// `Core::new` asks for all memory of a machine: the frames' own 4,096 bytes each, and little more.
#[test]
fn bytes_asked(rt: HostRuntime) {
    for (frames, pages) in [(1, 1), (513, 700), (100_000, 3), (MAX_FRAMES, MAX_PAGES)] {
        let least = 4096 * u64::from(frames);
        let beside = FRAME * u64::from(frames) + PAGE * u64::from(pages) + MORE;
        let asked = asked(&rt, rt.alloc(), frames, pages);
        holds_at(&rt, (asked, frames), asked >= least);
        holds_at(&rt, (asked, frames), asked <= least + beside);
    }
}
