//! SHA-256 of eight pages at once.
use crate::message::padded;
use crate::{PageHash, Sha256Hash};
use page_model::{HashFunction, Page};

/// The same function as [`Sha256Hash`], of eight pages at once where there are as many. A program names this type where it is
/// built for processors whose vectors have eight words (x86-64-v3): there eight pages take about as long as four do.
/// Where it is built for older ones, [`Sha256Hash`] is faster.
#[derive(Clone, Copy, Debug, PartialEq, Eq)]
pub struct WideSha256Hash;

impl HashFunction for WideSha256Hash {
    ghost use Rattle.page_digest.specs.Hashes.{sha256_hash};

    ghost hash_of = { sha256_hash };
}

impl PageHash for WideSha256Hash {
    fn hash(&self, salt: u32, page: &Page) -> u64 {
        Sha256Hash.hash(salt, page)
    }

    fn hash_four(&self, salts: [u32; 4], a: &Page, b: &Page, c: &Page, d: &Page) -> [u64; 4] {
        Sha256Hash.hash_four(salts, a, b, c, d)
    }

    fn hash_eight(&self, salts: [u32; 8], pages: [&Page; 8]) -> [u64; 8] {
        sha256_lanes::hash_eight(&[
            padded(salts[0], pages[0]),
            padded(salts[1], pages[1]),
            padded(salts[2], pages[2]),
            padded(salts[3], pages[3]),
            padded(salts[4], pages[4]),
            padded(salts[5], pages[5]),
            padded(salts[6], pages[6]),
            padded(salts[7], pages[7]),
        ])
    }
}
