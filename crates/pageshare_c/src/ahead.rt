//! Hashes computed ahead of proposals.
ghost use Rattle.std.specs.Prelude.{◌≡◌};

use arrayvec::ArrayVec;
use merge_core::Core;
use page_digest::PageHash;

/// A page, by its guest and its number.
#[repr(C)]
#[derive(Clone, Copy)]
pub struct PageName {
    pub guest: u32,
    pub ppn: u32,
}

/// How many pages are passed to the core together.
const WINDOW: usize = 64;

/// Notes the hashes of these pages. It skips guests past 255, which no machine has.
pub(crate) fn note_hashes<H: PageHash>(core: &mut Core<H>, pages: &[PageName])
    ensures { core.new ≡ core.old }
{
    let mut waiting: ArrayVec<(u8, u32), WINDOW> = ArrayVec::new();
    for page in pages {
        if page.guest > 255 {
            continue;
        }
        if waiting.is_full() {
            core.note_hashes(waiting.as_slice());
            waiting.clear();
        }
        waiting.push((page.guest as u8, page.ppn));
    }
    core.note_hashes(waiting.as_slice());
}
