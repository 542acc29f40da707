//! The first 16 words of each schedule, which are those of the message's block. Words are read four at a time, as one vector
//! for each message, or one for two of eight messages, and four such vectors are transposed.
ghost use Rattle.std.specs.Prelude.{◌≡◌, ℕ, List, ◌+◌, ◌*◌, ◌<◌, ◌≤◌, [], length, slice_index, slice_index_or};
ghost use Rattle.sha2.specs.Sha256.{word_at};
ghost use Rattle.sha256_lanes.specs.Lanes.{lane, one_of};
ghost use Rattle.sha256_lanes.specs.Hashes.{block_at};
ghost use Rattle.sha256_lanes.specs.Schedules.{Schedules};

use crate::padded::Padded;
use crate::schedule::Schedule;
use crate::vectors::{Vector, big_endian, joined, transposed, transposed_halves};
use std::simd::{u8x16, u32x4, u32x8};

/// Writes the words of four blocks.
#[inline(always)]
pub(crate) fn begin_four(words: &mut Schedule<u32x4>, a: &[u8], b: &[u8], c: &[u8], d: &[u8])
    requires a { length a.now ≡ 64 }
    requires b { length b.now ≡ 64 }
    requires c { length c.now ≡ 64 }
    requires d { length d.now ≡ 64 }
    ensures { (j : ℕ) → j < 4 → Schedules (lane slice_index j words.new) (one_of j a.now b.now c.now d.now) 16 }
{
    for turn in 0..4 {
        put_four(words, &four_words(a, b, c, d, 4 * turn), 4 * turn);
    }
}

/// Writes the words of each message's block that has `n` blocks before it.
#[inline(always)]
pub(crate) fn begin_eight(words: &mut Schedule<u32x8>, messages: &[Padded<'_>; 8], n: usize)
    requires { (j : ℕ) → j < 8 → 64 * (n + 1) ≤ length (slice_index_or messages.now j []) }
    ensures { (j : ℕ) → j < 8
        → Schedules (lane slice_index j words.new) (block_at (slice_index_or messages.now j []) n) 16 }
{
    let [a, b, c, d, e, f, g, h] = messages;
    let (a, b, c, d) = (a.block(n), b.block(n), c.block(n), d.block(n));
    let (e, f, g, h) = (e.block(n), f.block(n), g.block(n), h.block(n));
    for turn in 0..4 {
        let at = 16 * turn;
        let four = transposed_halves(
            words_of_two(a, e, at),
            words_of_two(b, f, at),
            words_of_two(c, g, at),
            words_of_two(d, h, at),
        );
        put_four(words, &four, 4 * turn);
    }
}

// Writes four words in each lane.
#[inline(always)]
fn put_four<V: Vector>(words: &mut Schedule<V>, four: &[V; 4], t: usize)
    requires { t + 4 ≤ 16 }
    ensures { (j : ℕ) → j < V.width → (block : List ℕ) → Schedules (lane V.word j words.old) block t
        → ((k : ℕ) → k < 4 → slice_index (lane V.word j four.now) k ≡ word_at block (4 * (t + k)))
        → Schedules (lane V.word j words.new) block (t + 4) }
{
    let [v, w, x, y] = *four;
    words[t] = v;
    words[t + 1] = w;
    words[t + 2] = x;
    words[t + 3] = y;
}

// Returns words t to t + 3 of four blocks.
#[inline(always)]
fn four_words(a: &[u8], b: &[u8], c: &[u8], d: &[u8], t: usize) -> [u32x4; 4]
    requires few { t + 4 ≤ 16 }
    requires a { length a.now ≡ 64 }
    requires b { length b.now ≡ 64 }
    requires c { length c.now ≡ 64 }
    requires d { length d.now ≡ 64 }
    ensures { (j k : ℕ) → j < 4 → k < 4
        → slice_index (lane slice_index j result) k ≡ word_at (one_of j a.now b.now c.now d.now) (4 * (t + k)) }
{
    transposed(
        words_at(a, 4 * t),
        words_at(b, 4 * t),
        words_at(c, 4 * t),
        words_at(d, 4 * t),
    )
}

// Returns the four words from byte `at` on of `low`, and then those of `high`.
#[inline(always)]
fn words_of_two(low: &[u8], high: &[u8], at: usize) -> u32x8
    requires low { at + 16 ≤ length low.now }
    requires high { at + 16 ≤ length high.now }
    ensures low { (k : ℕ) → k < 4 → slice_index result k ≡ word_at low.now (at + 4 * k) }
    ensures high { (k : ℕ) → k < 4 → slice_index result (4 + k) ≡ word_at high.now (at + 4 * k) }
{
    joined(words_at(low, at), words_at(high, at))
}

// Returns the four words from a block's byte `at` on.
#[inline(always)]
fn words_at(block: &[u8], at: usize) -> u32x4
    requires { at + 16 ≤ length block.now }
    ensures { (k : ℕ) → k < 4 → slice_index result k ≡ word_at block.now (at + 4 * k) }
{
    big_endian(u8x16::from_slice(&block[at..]))
}
