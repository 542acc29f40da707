//! The message schedule (FIPS 180-4, 6.2.2, step 1): the 64 words that the rounds take, from the 16 of a block.
ghost use Rattle.std.specs.Prelude.{◌≡◌, ℕ, List, ◌+◌, ◌<◌, ◌≤◌};
ghost use Rattle.sha2.specs.Sha256.{next_word};
ghost use Rattle.sha256_lanes.specs.Lanes.{lane};
ghost use Rattle.sha256_lanes.specs.Schedules.{Schedules};

use crate::functions::{small_sigma0, small_sigma1};
use crate::vectors::Vector;

/// The schedules of several messages.
pub(crate) type Schedule<V> = [V; 64];

/// Writes the last 48 words, which follow from the block's own 16.
#[inline(always)]
pub(crate) fn extend<V: Vector>(words: &mut Schedule<V>)
    ensures { (j : ℕ) → j < V.width → (block : List ℕ) → Schedules (lane V.word j words.old) block 16
        → Schedules (lane V.word j words.new) block 64 }
{
    for turn in 4..16 {
        extend_by_four(words, 4 * turn);
    }
}

// Writes four words in a row: each finds in registers what the one before it read.
#[inline(always)]
fn extend_by_four<V: Vector>(words: &mut Schedule<V>, t: usize)
    requires low { 16 ≤ t }
    requires high { t + 4 ≤ 64 }
    ensures { (j : ℕ) → j < V.width → (block : List ℕ) → Schedules (lane V.word j words.old) block t
        → Schedules (lane V.word j words.new) block (t + 4) }
{
    extend_by_one(words, t);
    extend_by_one(words, t + 1);
    extend_by_one(words, t + 2);
    extend_by_one(words, t + 3);
}

#[inline(always)]
fn extend_by_one<V: Vector>(words: &mut Schedule<V>, t: usize)
    requires low { 16 ≤ t }
    requires high { t < 64 }
    ensures { (j : ℕ) → j < V.width → (block : List ℕ) → Schedules (lane V.word j words.old) block t
        → Schedules (lane V.word j words.new) block (t + 1) }
{
    words[t] = word_after(words, t);
}

#[inline(always)]
fn word_after<V: Vector>(words: &Schedule<V>, t: usize) -> V
    requires low { 16 ≤ t }
    requires high { t < 64 }
    ensures { (j : ℕ) → j < V.width → V.word result j ≡ next_word (lane V.word j words.now) t }
{
    // The newest of the four words is added last.
    let early = words[t - 16].add(words[t - 7]);
    small_sigma0(words[t - 15])
        .add(early)
        .add(small_sigma1(words[t - 2]))
}
