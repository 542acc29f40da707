//! Weak hashes, for tests of what happens when different pages have equal hashes.
ghost use Rattle.std.specs.Prelude.{◌≡◌, ◌+◌, ◌*◌, ◌^◌, slice_index};

use crate::PageHash;
use page_model::{HashFunction, Page};

/// Byte 0 of the page. The salt is ignored.
#[derive(Clone, Copy, Debug, PartialEq, Eq)]
pub struct FirstByteHash;

impl HashFunction for FirstByteHash {
    ghost use Rattle.page_digest.specs.Hashes.{first_byte_hash};

    ghost hash_of = { first_byte_hash };
}

impl PageHash for FirstByteHash {
    fn hash(&self, _salt: u32, page: &Page) -> u64 {
        first_byte(page)
    }
}

/// Returns byte 0.
fn first_byte(page: &Page) -> u64
    ensures { result ≡ slice_index page.now 0 }
{
    page[0].into()
}

/// Byte 0 of the page times 2^32, plus byte 1: pages with equal byte 1 have the same key. The salt is ignored.
#[derive(Clone, Copy, Debug, PartialEq, Eq)]
pub struct TwoByteHash;

impl HashFunction for TwoByteHash {
    ghost use Rattle.page_digest.specs.Hashes.{two_byte_hash};

    ghost hash_of = { two_byte_hash };
}

impl PageHash for TwoByteHash {
    fn hash(&self, _salt: u32, page: &Page) -> u64 {
        two_bytes(page)
    }
}

/// Returns byte 0 times 2^32, plus byte 1.
fn two_bytes(page: &Page) -> u64
    ensures { result ≡ slice_index page.now 0 * 2 ^ 32 + slice_index page.now 1 }
{
    u64::from(page[0]) * 4_294_967_296 + u64::from(page[1])
}
