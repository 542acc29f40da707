//! What a core counts.
ghost use Rattle.std.specs.Prelude.{◌≡◌};
ghost use Rattle.page_model.specs.Pages.{totals};
ghost use Rattle.merge_core.specs.View.{guests_of, Whole};

use crate::held::Held;
use page_digest::PageHash;
use page_model::Report;
use std::alloc::Allocator;

/// Returns what a core counts, from the counters of the frames and the table alone.
pub fn report<H: PageHash, A: Allocator>(held: &Held<H, A>, entries: u32) -> Report
    requires { Whole H.hash_of held.now }
    ensures { result ≡ totals entries (guests_of held.now) }
{
    let frames = held.frames.used();
    let shared = held.table.references();
    let shared_frames = held.table.len() - held.hints;
    let mapped = frames - shared_frames + shared;
    Report::new(entries, mapped, shared, frames, held.hints)
}
