//! The hash that is timed.
use page_digest::{PageHash, Sha256Hash, WideSha256Hash};
use page_model::{HashFunction, Page};

/// One of two types that compute the same function. With one type for both, the machine and its threads are compiled once.
#[derive(Clone, Copy)]
pub enum TimedHash {
    /// [`Sha256Hash`].
    Narrow,
    /// [`WideSha256Hash`], for wider vectors.
    Wide,
}

impl HashFunction for TimedHash {
    ghost use Rattle.page_digest.specs.Hashes.{sha256_hash};

    ghost hash_of = { sha256_hash };
}

impl PageHash for TimedHash {
    fn hash(&self, salt: u32, page: &Page) -> u64 {
        match self {
            TimedHash::Narrow => Sha256Hash.hash(salt, page),
            TimedHash::Wide => WideSha256Hash.hash(salt, page),
        }
    }

    fn hash_four(&self, salts: [u32; 4], a: &Page, b: &Page, c: &Page, d: &Page) -> [u64; 4] {
        match self {
            TimedHash::Narrow => Sha256Hash.hash_four(salts, a, b, c, d),
            TimedHash::Wide => WideSha256Hash.hash_four(salts, a, b, c, d),
        }
    }

    fn hash_eight(&self, salts: [u32; 8], pages: [&Page; 8]) -> [u64; 8] {
        match self {
            TimedHash::Narrow => Sha256Hash.hash_eight(salts, pages),
            TimedHash::Wide => WideSha256Hash.hash_eight(salts, pages),
        }
    }
}
