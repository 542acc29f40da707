//! The digests of pages that were read.
ghost use Rattle.std.specs.Prelude.{◌≡◌, [], ◌∷◌, ◌++◌, OnOk, filter, length};
ghost use Rattle.guest_digests.specs.Samples.{is_kept, kept_digests};

use crate::Sampling;
use memory_pages::PageWork;
use page_digest::{digest_content, digest_four_contents};
use page_model::Page;
use std::alloc::{AllocError, Allocator};

// How many pages are hashed at once.
const LANES: usize = 4;

/// Appends the digests of the pages that are kept. The last pages, up to three of them, are hashed one by one.
fn push_digests<A: Allocator>(
    sampling: Sampling,
    pages: &[Page],
    digests: &mut Vec<u128, A>,
) -> Result<(), AllocError>
    ensures { OnOk result (digests.new.items ≡ digests.old.items ++ kept_digests sampling pages.now) }
{
    let whole = pages.len() / LANES;
    for n in 0..whole {
        push_four(sampling, &pages[LANES * n..LANES * n + LANES], digests)?;
    }
    push_each(sampling, &pages[LANES * whole..], digests)?;
    Ok(())
}

fn push_four<A: Allocator>(
    sampling: Sampling,
    pages: &[Page],
    digests: &mut Vec<u128, A>,
) -> Result<(), AllocError>
    requires { length pages.now ≡ 4 }
    ensures { OnOk result (digests.new.items ≡ digests.old.items ++ kept_digests sampling pages.now) }
{
    let four = digest_four_contents(sampling.salt(), &pages[0], &pages[1], &pages[2], &pages[3]);
    push_kept(sampling, &four, digests)
}

fn push_each<A: Allocator>(
    sampling: Sampling,
    pages: &[Page],
    digests: &mut Vec<u128, A>,
) -> Result<(), AllocError>
    ensures { OnOk result (digests.new.items ≡ digests.old.items ++ kept_digests sampling pages.now) }
{
    for page in pages {
        push_kept(sampling, &[digest_content(sampling.salt(), page)], digests)?;
    }
    Ok(())
}

/// Appends the digests that are kept.
fn push_kept<A: Allocator>(
    sampling: Sampling,
    more: &[u128],
    digests: &mut Vec<u128, A>,
) -> Result<(), AllocError>
    ensures { OnOk result (digests.new.items ≡ digests.old.items ++ filter (is_kept sampling) more.now) }
{
    for digest in more {
        if sampling.keeps(*digest) {
            digests.push(*digest)?;
        }
    }
    Ok(())
}

impl PageWork for Sampling {
    type Item = u128;

    ghost gives = { λ by page. kept_digests by (page ∷ []) };

    // How many digests a sample keeps isn't known before the pages are hashed.
    fn room(&self, _pages: u32) -> usize {
        0
    }

    fn push<A: Allocator>(
        &self,
        pages: &[Page],
        items: &mut Vec<u128, A>,
    ) -> Result<(), AllocError> {
        push_digests(*self, pages, items)
    }
}
