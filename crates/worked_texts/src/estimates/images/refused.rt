//! Memory that is refused, and reads that fail.

use crate::checks::{equal, holds, holds_at};
use crate::estimates::images::files::{core_file, is_unreadable, load, open};
use memory_images::ImageFault;
use memory_pages::PageSource;
use refusing::Refusing;
use std::alloc::Global;
use std::process::Abort;

// More requests than opening an image makes.
const MOST_REQUESTS: u64 = 100;

/// Whether a core of five segments opens, as an image of its five pages. If not, memory was refused.
fn opens(rt: &impl Abort, alloc: Global, heap: &Refusing) -> bool {
    let headers = [
        load(400, 20),
        load(450, 20),
        load(500, 20),
        load(550, 20),
        load(600, 20),
    ];
    match open(heap, core_file(rt, alloc, 1000, &headers)) {
        Ok(image) => {
            equal(rt, image.count(), 5);
            true
        }
        Err(fault) => {
            holds(rt, matches!(fault, ImageFault::OutOfMemory));
            false
        }
    }
}

// Request number n is refused, with n counting up until there is no refusal.
#[test]
fn refused_in_turn(rt: HostRuntime) {
    let mut is_whole = false;
    for n in 0..MOST_REQUESTS {
        let heap = Refusing::new(rt.alloc(), n, 0);
        is_whole = opens(&rt, rt.alloc(), &heap);
        holds_at(&rt, n, heap.has_refused() != is_whole);
        holds_at(&rt, n, heap.holds_nothing());
        if is_whole {
            break;
        }
    }
    holds(&rt, is_whole);
}

// The magic, the header and each program header are read in turn.
#[test]
fn unreadable_headers(rt: HostRuntime) {
    for readable in [0, 3, 4, 63, 64, 119, 120, 175] {
        let mut file = core_file(&rt, rt.alloc(), 1000, &[load(400, 20), load(500, 20)]);
        file.readable = readable;
        holds_at(&rt, readable, is_unreadable(rt.alloc(), file));
    }
}
