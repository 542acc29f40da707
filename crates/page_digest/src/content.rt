//! The digest of a page's content, for lists of digests that leave a host.
//!
//! It takes the place of the content there, so it is 128 bits long. Under a salt that is kept secret nobody can test a guess of
//! the content.
ghost use Rattle.std.specs.Prelude.{◌≡◌, [], ◌∷◌, map, take};
ghost use Rattle.std.specs.Int.{w128, from_be_bytes};
ghost use Rattle.page_digest.specs.Hashes.{content_digest};

use crate::message::padded;
use crate::sha256::digest;
use page_model::Page;

/// Returns the first sixteen bytes, read big-endian, of a SHA-256 digest (FIPS 180-4). Under salt 0 that is of the page alone,
/// and otherwise of the salt's four big-endian bytes followed by the page.
pub fn digest_content(salt: u32, page: &Page) -> u128
    ensures { result ≡ content_digest salt page.now }
{
    leading_digest(&digest(salt, page))
}

/// Returns what [`digest_content`] returns for each of four pages, and computes them side by side.
pub fn digest_four_contents(salt: u32, a: &Page, b: &Page, c: &Page, d: &Page) -> [u128; 4]
    ensures { result ≡ map (content_digest salt) (a.now ∷ b.now ∷ c.now ∷ d.now ∷ []) }
{
    sha256_lanes::digest_four(
        &padded(salt, a),
        &padded(salt, b),
        &padded(salt, c),
        &padded(salt, d),
    )
}

fn leading_digest(digest: &[u8; 32]) -> u128
    ensures { result ≡ from_be_bytes w128 (take 16 digest.now) }
{
    let mut bytes = [0; 16];
    bytes.copy_from_slice(&digest[..16]);
    u128::from_be_bytes(bytes)
}
