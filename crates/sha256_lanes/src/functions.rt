//! The functions of FIPS 180-4, 4.1.2, that rotate a word, in each lane.
//!
//! Each rotation starts from the word itself. Rotating a rotated word would save a copy, but then each step has to wait
//! for the one before it, and in a row of rounds that costs more.
ghost use Rattle.std.specs.Prelude.{◌≡◌, ℕ, ◌<◌};
ghost use Rattle.sha2.specs.Sha256.{big_sigma0, big_sigma1, small_sigma0, small_sigma1};

use crate::vectors::Vector;

/// Rotations by 2, 13 and 22.
#[inline(always)]
pub(crate) fn big_sigma0<V: Vector>(x: V) -> V
    ensures { (j : ℕ) → j < V.width → V.word result j ≡ big_sigma0 (V.word x j) }
{
    x.rotate_right(2)
        .xor(x.rotate_right(13))
        .xor(x.rotate_right(22))
}

/// Rotations by 6, 11 and 25.
#[inline(always)]
pub(crate) fn big_sigma1<V: Vector>(x: V) -> V
    ensures { (j : ℕ) → j < V.width → V.word result j ≡ big_sigma1 (V.word x j) }
{
    x.rotate_right(6)
        .xor(x.rotate_right(11))
        .xor(x.rotate_right(25))
}

/// Rotations by 7 and 18, and a shift by 3.
#[inline(always)]
pub(crate) fn small_sigma0<V: Vector>(x: V) -> V
    ensures { (j : ℕ) → j < V.width → V.word result j ≡ small_sigma0 (V.word x j) }
{
    x.rotate_right(7)
        .xor(x.rotate_right(18))
        .xor(x.shift_right(3))
}

/// Rotations by 17 and 19, and a shift by 10.
#[inline(always)]
pub(crate) fn small_sigma1<V: Vector>(x: V) -> V
    ensures { (j : ℕ) → j < V.width → V.word result j ≡ small_sigma1 (V.word x j) }
{
    x.rotate_right(17)
        .xor(x.rotate_right(19))
        .xor(x.shift_right(10))
}
