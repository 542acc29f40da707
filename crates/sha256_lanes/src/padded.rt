//! Messages that are whole blocks, padding included.
ghost use Rattle.std.specs.Prelude.{◌≡◌, ◌≤◌, ◌<◌, ◌+◌, ◌*◌, ◌%◌, ◌++◌, length};
ghost use Rattle.sha256_lanes.specs.Hashes.{block_at};

use std::marker::Model;

/// How many bytes a block has.
pub const BLOCK_BYTES: usize = 64;

/// A message with its padding: a first and a last block, and between them any number of whole blocks that are used in
/// place.
///
/// A contract sees the bytes of all the blocks.
#[derive(Drop)]
pub struct Padded<'a> {
    first: [u8; BLOCK_BYTES],
    middle: &'a [u8],
    last: [u8; BLOCK_BYTES],
}

impl<'a> Model for Padded<'a> {
    ghost use Rattle.std.specs.Prelude.{ℕ, List, ◌≡◌, ◌++◌, ◌%◌, length};

    ghost Value = { List ℕ };

    ghost view = { λ p. p.first ++ p.middle.now ++ p.last };

    ghost invariant = { λ p. length p.middle.now % 64 ≡ 0 };
}

impl<'a> Padded<'a> {
    /// Makes the message of these blocks, in this order.
    pub fn new(first: [u8; BLOCK_BYTES], middle: &'a [u8], last: [u8; BLOCK_BYTES]) -> Padded<'a>
        requires { length middle.now % 64 ≡ 0 }
        ensures { result ≡ first ++ middle.now ++ last }
    {
        Padded {
            first,
            middle,
            last,
        }
    }

    /// Returns how many blocks there are.
    pub(crate) fn blocks(&self) -> usize
        ensures all { 64 * result ≡ length self.now }
        ensures some { 0 < result }
    {
        self.middle.len() / BLOCK_BYTES + 2
    }

    /// Returns the block that has `n` blocks before it.
    pub(crate) fn block(&self, n: usize) -> &[u8]
        requires { 64 * (n + 1) ≤ length self.now }
        ensures value { result.now ≡ block_at self.now n }
        ensures block { length result.now ≡ 64 }
    {
        if n == 0 {
            &self.first
        } else if n <= self.middle.len() / BLOCK_BYTES {
            &self.middle[64 * (n - 1)..64 * n]
        } else {
            &self.last
        }
    }
}
