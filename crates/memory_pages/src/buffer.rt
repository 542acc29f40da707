//! Lists of pages to read into.
ghost use Rattle.std.specs.Prelude.{◌≡◌, IfOk, vec_len};

use page_model::{PAGE_BYTES, Page};
use std::alloc::{AllocError, Allocator};

/// Makes a list of `count` pages to read into.
pub fn new_pages<A: Allocator>(alloc: A, count: usize) -> Result<Vec<Page, A>, AllocError>
    ensures { IfOk result (λ pages. vec_len pages ≡ count) }
{
    vec![in alloc; [0; PAGE_BYTES]; count]
}
