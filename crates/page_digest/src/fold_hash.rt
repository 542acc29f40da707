//! A fast hash.
ghost use Rattle.std.specs.Prelude.{◌≡◌};
ghost use Rattle.page_digest.specs.Hashes.{fold_hash};

use crate::PageHash;
use page_model::{HashFunction, Page};
use std::hash::{FoldHasher, Hasher};

/// The result of std's `FoldHasher` for the salt and the page. It takes about half a microsecond a page.
///
/// It isn't cryptographic, and its seed is fixed: anyone who writes a page can choose its hash.
#[derive(Clone, Copy, Debug, PartialEq, Eq)]
pub struct FoldHash;

impl HashFunction for FoldHash {
    ghost use Rattle.page_digest.specs.Hashes.{fold_hash};

    ghost hash_of = { fold_hash };
}

impl PageHash for FoldHash {
    fn hash(&self, salt: u32, page: &Page) -> u64 {
        fold(salt, page)
    }
}

/// Returns the result of a hasher that was fed the salt and the page.
fn fold(salt: u32, page: &Page) -> u64
    ensures { result ≡ fold_hash salt page.now }
{
    let mut hasher = FoldHasher::default();
    hasher.write_u32(salt);
    hasher.write(page);
    hasher.finish()
}
