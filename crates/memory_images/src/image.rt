ghost use Rattle.std.specs.Prelude.{◌≡◌, ◌<◌, ◌^◌, length};
ghost use Rattle.memory_images.specs.Pages.{AreStarts, AreWithin, count_of};

use crate::{ReadAt, Segment};
use std::alloc::{Allocator, Global};

/// An image of memory: a file, and which of its bytes hold pages.
#[derive(Drop)]
pub struct Image<R: ReadAt, A: Allocator = Global> {
    pub(crate) reader: R,
    pub(crate) segments: Vec<Segment, A>,
    /// How many pages come before each segment.
    pub(crate) starts: Vec<u32, A>,
    pub(crate) count: u32,
    ghost within: { AreWithin (length (R.bytes reader)) segments.items },
    ghost fits: { length (R.bytes reader) < 2 ^ 64 },
    ghost few: { count_of segments.items < 2 ^ 32 },
    ghost begun: { AreStarts segments.items starts.items },
    ghost counted: { count ≡ count_of segments.items },
}
