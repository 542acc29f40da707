//! A hash that counts its calls.
ghost use Rattle.std.specs.Prelude.{slice_index};

use page_digest::PageHash;
use page_model::{HashFunction, Page};
use std::sync::atomic::{AtomicU32, Ordering};

/// Hashes to the first byte, and counts its calls.
#[derive(Clone, Copy, Drop)]
pub struct Counted<'a>(pub &'a AtomicU32);

impl HashFunction for Counted<'_> {
    ghost hash_of = { λ _ bytes. slice_index bytes 0 };
}

impl PageHash for Counted<'_> {
    fn hash(&self, _salt: u32, page: &Page) -> u64 {
        self.0.fetch_add(1, Ordering::SeqCst);
        u64::from(page[0])
    }
}
