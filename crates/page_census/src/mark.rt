//! The mark of a page: 0 for a page of zeros, and for any other a hash that isn't 0.
ghost use Rattle.std.specs.Prelude.{◌≡◌, [], ◌∷◌};
ghost use Rattle.std.specs.Str.{bytes_eq};
ghost use Rattle.page_model.specs.Pages.{blank};
ghost use Rattle.page_census.specs.Marks.{mark};

use memory_pages::PageWork;
use page_digest::PageHash;
use page_model::Page;
use std::alloc::{AllocError, Allocator};

/// Whether the page is all zeros. It checks every byte; processors check many at a time.
fn is_blank(page: &Page) -> bool
    ensures { result ≡ bytes_eq page.now blank }
{
    let mut bits = 0;
    for byte in page {
        bits |= *byte;
    }
    bits == 0
}

/// Marks the pages of a guest with this salt.
#[derive(Drop)]
pub(crate) struct Marking<'a, H> {
    pub(crate) hash: &'a H,
    pub(crate) salt: u32,
}

impl<H: PageHash> PageWork for Marking<'_, H> {
    type Item = u64;

    ghost gives = { λ marking page. mark H.hash_of marking.salt page ∷ [] };

    fn room(&self, pages: u32) -> usize {
        pages as usize
    }

    fn push<A: Allocator>(
        &self,
        pages: &[Page],
        items: &mut Vec<u64, A>,
    ) -> Result<(), AllocError> {
        for page in pages {
            let mark = if is_blank(page) {
                0
            } else {
                self.hash.hash(self.salt, page).max(1)
            };
            items.push(mark)?;
        }
        Ok(())
    }
}
