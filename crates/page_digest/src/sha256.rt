//! The hash that the program uses.
ghost use Rattle.std.specs.Prelude.{◌≡◌, take};
ghost use Rattle.std.specs.Int.{w64, from_be_bytes};
ghost use Rattle.sha2.specs.Sha256.{sha256};
ghost use Rattle.page_digest.specs.Hashes.{salted};

use crate::PageHash;
use crate::message::padded;
use page_model::{HashFunction, Page};
use sha2::{Digest, Sha256};

/// The first eight bytes, read big-endian, of a SHA-256 digest (FIPS 180-4). Under salt 0 that is of the page alone, and
/// otherwise of the salt's four big-endian bytes followed by the page.
#[derive(Clone, Copy, Debug, PartialEq, Eq)]
pub struct Sha256Hash;

impl HashFunction for Sha256Hash {
    ghost use Rattle.page_digest.specs.Hashes.{sha256_hash};

    ghost hash_of = { sha256_hash };
}

impl PageHash for Sha256Hash {
    fn hash(&self, salt: u32, page: &Page) -> u64 {
        leading_number(&digest(salt, page))
    }

    fn hash_four(&self, salts: [u32; 4], a: &Page, b: &Page, c: &Page, d: &Page) -> [u64; 4] {
        sha256_lanes::hash_four(
            &padded(salts[0], a),
            &padded(salts[1], b),
            &padded(salts[2], c),
            &padded(salts[3], d),
        )
    }
}

/// Returns the SHA-256 digest of a page under a salt.
pub(crate) fn digest(salt: u32, page: &Page) -> [u8; 32]
    ensures { result ≡ sha256 (salted salt page.now) }
{
    if salt == 0 {
        return Sha256::digest(page);
    }
    let mut hasher = Sha256::new();
    hasher.update(&salt.to_be_bytes());
    hasher.update(page);
    hasher.finalize()
}

fn leading_number(digest: &[u8; 32]) -> u64
    ensures { result ≡ from_be_bytes w64 (take 8 digest.now) }
{
    let mut bytes = [0; 8];
    bytes.copy_from_slice(&digest[..8]);
    u64::from_be_bytes(bytes)
}
