//! The trait of types that hash pages.
ghost use Rattle.std.specs.Prelude.{◌≡◌, map};
ghost use Rattle.page_digest.specs.Hashes.{four_hashes, eight_hashes};

use page_model::{HashFunction, Page};

/// A hash of pages that any thread can compute.
pub trait PageHash: HashFunction + Sync {
    /// Returns the type's stated function of the salt and the page's bytes, without taking memory.
    fn hash(&self, salt: u32, page: &Page) -> u64
        ensures { result ≡ Self.hash_of salt page.now };

    /// Does the same for four pages, each under the salt at its place. A type that hashes four pages faster together than
    /// one by one overrides this.
    fn hash_four(&self, salts: [u32; 4], a: &Page, b: &Page, c: &Page, d: &Page) -> [u64; 4]
        ensures { result ≡ four_hashes Self.hash_of salts a.now b.now c.now d.now }
    {
        [
            self.hash(salts[0], a),
            self.hash(salts[1], b),
            self.hash(salts[2], c),
            self.hash(salts[3], d),
        ]
    }

    /// Does the same for eight pages. By default they are two fours. A type that hashes eight pages faster together overrides
    /// this.
    fn hash_eight(&self, salts: [u32; 8], pages: [&Page; 8]) -> [u64; 8]
        ensures { result ≡ eight_hashes Self.hash_of salts (map (λ page. page.now) pages.entry) }
    {
        let [a, b, c, d] = self.hash_four(
            [salts[0], salts[1], salts[2], salts[3]],
            pages[0],
            pages[1],
            pages[2],
            pages[3],
        );
        let [e, f, g, h] = self.hash_four(
            [salts[4], salts[5], salts[6], salts[7]],
            pages[4],
            pages[5],
            pages[6],
            pages[7],
        );
        [a, b, c, d, e, f, g, h]
    }
}
