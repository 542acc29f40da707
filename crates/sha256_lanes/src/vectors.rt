//! Vectors of 32-bit words, with a lane for each message. Only this file has operators on vectors.
ghost use Rattle.std.specs.Prelude.{◌≡◌, ℕ, ◌+◌, ◌<◌, ◌*◌, ◌/◌, ◌^◌, bit_xor, slice_index};
ghost use Rattle.std.specs.Int.{w32, rotate_right};
ghost use Rattle.sha2.specs.Sha256.{add32, ch, maj, word_at};
ghost use Rattle.sha256_lanes.specs.Lanes.{lane, one_of};

use std::simd::{Simd, u8x16, u32x4, u32x8};

/// A vector of words. Whoever uses it writes once what holds at each width.
pub(crate) trait Vector: Copy {
    // How many lanes there are.
    ghost width: { ℕ };

    // The word in a lane.
    ghost word: { Self → ℕ → ℕ };

    /// Returns the number in each lane.
    fn splat(number: u32) -> Self
        ensures { (j : ℕ) → j < width → word result j ≡ number };

    /// Returns the sum modulo 2^32.
    fn add(self, other: Self) -> Self
        ensures { (j : ℕ) → j < width → word result j ≡ add32 (word self j) (word other j) };

    fn xor(self, other: Self) -> Self
        ensures { (j : ℕ) → j < width → word result j ≡ bit_xor (word self j) (word other j) };

    fn shift_right(self, by: u32) -> Self
        requires { by < 32 }
        ensures { (j : ℕ) → j < width → word result j ≡ word self j / 2 ^ by };

    fn rotate_right(self, by: u32) -> Self
        requires { (0 < by) × (by < 32) }
        ensures { (j : ℕ) → j < width → word result j ≡ rotate_right w32 (word self j) by };

    /// Returns the bits of `y` where this has a 1, and those of `z` where it has a 0.
    fn choose(self, y: Self, z: Self) -> Self
        ensures { (j : ℕ) → j < width → word result j ≡ ch (word self j) (word y j) (word z j) };

    /// Returns the bits that most of the three have.
    fn majority(self, y: Self, z: Self) -> Self
        ensures { (j : ℕ) → j < width → word result j ≡ maj (word self j) (word y j) (word z j) };
}

impl<const N: usize> Vector for Simd<u32, N> {
    ghost width = { N };

    ghost word = { slice_index };

    #[inline(always)]
    fn splat(number: u32) -> Simd<u32, N> {
        Simd::splat(number)
    }

    #[inline(always)]
    fn add(self, other: Simd<u32, N>) -> Simd<u32, N> {
        self + other
    }

    #[inline(always)]
    fn xor(self, other: Simd<u32, N>) -> Simd<u32, N> {
        self ^ other
    }

    #[inline(always)]
    fn shift_right(self, by: u32) -> Simd<u32, N> {
        self >> Simd::splat(by)
    }

    #[inline(always)]
    fn rotate_right(self, by: u32) -> Simd<u32, N> {
        (self >> Simd::splat(by)) | (self << Simd::splat(32 - by))
    }

    #[inline(always)]
    fn choose(self, y: Simd<u32, N>, z: Simd<u32, N>) -> Simd<u32, N> {
        z ^ (self & (y ^ z))
    }

    // In a row of rounds `y ^ z` is the `self ^ y` of the round before.
    #[inline(always)]
    fn majority(self, y: Simd<u32, N>, z: Simd<u32, N>) -> Simd<u32, N> {
        y ^ ((self ^ y) & (y ^ z))
    }
}

/// Returns the words with these bytes, the highest byte of each word first.
#[inline(always)]
pub(crate) fn big_endian(bytes: u8x16) -> u32x4
    ensures { (k : ℕ) → k < 4 → slice_index result k ≡ word_at bytes (4 * k) }
{
    u32x4::from_le_bytes(bytes.swizzle([3, 2, 1, 0, 7, 6, 5, 4, 11, 10, 9, 8, 15, 14, 13, 12]))
}

/// Returns lane k of each of the four, for each k.
#[inline(always)]
pub(crate) fn transposed(a: u32x4, b: u32x4, c: u32x4, d: u32x4) -> [u32x4; 4]
    ensures { (j k : ℕ) → j < 4 → k < 4
        → slice_index (lane slice_index j result) k ≡ slice_index (one_of j a b c d) k }
{
    let low_odd = a.shuffle(c, [0, 4, 1, 5]);
    let low_even = b.shuffle(d, [0, 4, 1, 5]);
    let high_odd = a.shuffle(c, [2, 6, 3, 7]);
    let high_even = b.shuffle(d, [2, 6, 3, 7]);
    [
        low_odd.shuffle(low_even, [0, 4, 1, 5]),
        low_odd.shuffle(low_even, [2, 6, 3, 7]),
        high_odd.shuffle(high_even, [0, 4, 1, 5]),
        high_odd.shuffle(high_even, [2, 6, 3, 7]),
    ]
}

/// Returns lane k of the lower halves of the four, and then lane k of their upper halves, for each k.
#[inline(always)]
pub(crate) fn transposed_halves(a: u32x8, b: u32x8, c: u32x8, d: u32x8) -> [u32x8; 4]
    ensures low { (j k : ℕ) → j < 4 → k < 4
        → slice_index (lane slice_index j result) k ≡ slice_index (one_of j a b c d) k }
    ensures high { (j k : ℕ) → j < 4 → k < 4
        → slice_index (lane slice_index (4 + j) result) k ≡ slice_index (one_of j a b c d) (4 + k) }
{
    let low_odd = a.shuffle(c, [0, 8, 1, 9, 4, 12, 5, 13]);
    let low_even = b.shuffle(d, [0, 8, 1, 9, 4, 12, 5, 13]);
    let high_odd = a.shuffle(c, [2, 10, 3, 11, 6, 14, 7, 15]);
    let high_even = b.shuffle(d, [2, 10, 3, 11, 6, 14, 7, 15]);
    [
        low_odd.shuffle(low_even, [0, 8, 1, 9, 4, 12, 5, 13]),
        low_odd.shuffle(low_even, [2, 10, 3, 11, 6, 14, 7, 15]),
        high_odd.shuffle(high_even, [0, 8, 1, 9, 4, 12, 5, 13]),
        high_odd.shuffle(high_even, [2, 10, 3, 11, 6, 14, 7, 15]),
    ]
}

/// Returns the lanes of `low`, and then those of `high`.
#[inline(always)]
pub(crate) fn joined(low: u32x4, high: u32x4) -> u32x8
    ensures low { (j : ℕ) → j < 4 → slice_index result j ≡ slice_index low j }
    ensures high { (j : ℕ) → j < 4 → slice_index result (4 + j) ≡ slice_index high j }
{
    low.shuffle(high, [0, 1, 2, 3, 4, 5, 6, 7])
}
