//! The 64 rounds (FIPS 180-4, 6.2.2, step 3) on the working variables of several messages.
ghost use Rattle.std.specs.Prelude.{◌≡◌, ℕ, ◌+◌, ◌<◌, ◌≤◌, List, slice_index};
ghost use Rattle.sha2.specs.Sha256.{round, round_constants, rounds};
ghost use Rattle.sha256_lanes.specs.Lanes.{lane};

use crate::functions::{big_sigma0, big_sigma1};
use crate::schedule::Schedule;
use crate::vectors::Vector;
use std::simd::{u32x4, u32x8};

/// The eight words of each message's hash value or of its working variables.
pub(crate) type State<V> = [V; 8];

// The constants of FIPS 180-4, 4.2.2, eight times each, so that one load fills each lane. As a `const` the table
// would be built anew at each use.
static CONSTANTS: [[u32; 8]; 64] = [
    [0x428a_2f98; 8],
    [0x7137_4491; 8],
    [0xb5c0_fbcf; 8],
    [0xe9b5_dba5; 8],
    [0x3956_c25b; 8],
    [0x59f1_11f1; 8],
    [0x923f_82a4; 8],
    [0xab1c_5ed5; 8],
    [0xd807_aa98; 8],
    [0x1283_5b01; 8],
    [0x2431_85be; 8],
    [0x550c_7dc3; 8],
    [0x72be_5d74; 8],
    [0x80de_b1fe; 8],
    [0x9bdc_06a7; 8],
    [0xc19b_f174; 8],
    [0xe49b_69c1; 8],
    [0xefbe_4786; 8],
    [0x0fc1_9dc6; 8],
    [0x240c_a1cc; 8],
    [0x2de9_2c6f; 8],
    [0x4a74_84aa; 8],
    [0x5cb0_a9dc; 8],
    [0x76f9_88da; 8],
    [0x983e_5152; 8],
    [0xa831_c66d; 8],
    [0xb003_27c8; 8],
    [0xbf59_7fc7; 8],
    [0xc6e0_0bf3; 8],
    [0xd5a7_9147; 8],
    [0x06ca_6351; 8],
    [0x1429_2967; 8],
    [0x27b7_0a85; 8],
    [0x2e1b_2138; 8],
    [0x4d2c_6dfc; 8],
    [0x5338_0d13; 8],
    [0x650a_7354; 8],
    [0x766a_0abb; 8],
    [0x81c2_c92e; 8],
    [0x9272_2c85; 8],
    [0xa2bf_e8a1; 8],
    [0xa81a_664b; 8],
    [0xc24b_8b70; 8],
    [0xc76c_51a3; 8],
    [0xd192_e819; 8],
    [0xd699_0624; 8],
    [0xf40e_3585; 8],
    [0x106a_a070; 8],
    [0x19a4_c116; 8],
    [0x1e37_6c08; 8],
    [0x2748_774c; 8],
    [0x34b0_bcb5; 8],
    [0x391c_0cb3; 8],
    [0x4ed8_aa4a; 8],
    [0x5b9c_ca4f; 8],
    [0x682e_6ff3; 8],
    [0x748f_82ee; 8],
    [0x78a5_636f; 8],
    [0x84c8_7814; 8],
    [0x8cc7_0208; 8],
    [0x90be_fffa; 8],
    [0xa450_6ceb; 8],
    [0xbef9_a3f7; 8],
    [0xc671_78f2; 8],
];

/// A vector that the round constants can fill.
pub(crate) trait Rounds: Vector {
    /// Returns the constant of round `t` in each lane.
    fn constant(t: usize) -> Self
        requires { t < 64 }
        ensures { (j : ℕ) → j < Self.width → Self.word result j ≡ slice_index round_constants t };
}

impl Rounds for u32x4 {
    #[inline(always)]
    fn constant(t: usize) -> u32x4 {
        u32x4::from_slice(&CONSTANTS[t])
    }
}

impl Rounds for u32x8 {
    #[inline(always)]
    fn constant(t: usize) -> u32x8 {
        u32x8::from_slice(&CONSTANTS[t])
    }
}

/// Returns the working variables after all rounds.
#[inline(always)]
pub(crate) fn all_rounds<V: Rounds>(start: &State<V>, words: &Schedule<V>) -> State<V>
    ensures { (j : ℕ) → j < V.width
        → lane V.word j result ≡ rounds (lane V.word j start.now) (lane V.word j words.now) 64 }
{
    let mut state = *start;
    for turn in 0..8 {
        eight_rounds(&mut state, words, 8 * turn);
    }
    state
}

// Does eight rounds. After these each variable is in its own place again, so none is moved.
#[inline(always)]
fn eight_rounds<V: Rounds>(state: &mut State<V>, words: &Schedule<V>, t: usize)
    requires { t + 8 ≤ 64 }
    ensures { (j : ℕ) → j < V.width → (start : List ℕ) → lane V.word j state.old ≡ rounds start (lane V.word j words.now) t
        → lane V.word j state.new ≡ rounds start (lane V.word j words.now) (t + 8) }
{
    let half = four_rounds(state, words, t);
    *state = four_rounds(&half, words, t + 4);
}

#[inline(always)]
fn four_rounds<V: Rounds>(state: &State<V>, words: &Schedule<V>, t: usize) -> State<V>
    requires { t + 4 ≤ 64 }
    ensures { (j : ℕ) → j < V.width → (start : List ℕ) → lane V.word j state.now ≡ rounds start (lane V.word j words.now) t
        → lane V.word j result ≡ rounds start (lane V.word j words.now) (t + 4) }
{
    let one = round_at(state, words, t);
    let two = round_at(&one, words, t + 1);
    let three = round_at(&two, words, t + 2);
    round_at(&three, words, t + 3)
}

#[inline(always)]
fn round_at<V: Rounds>(state: &State<V>, words: &Schedule<V>, t: usize) -> State<V>
    requires { t < 64 }
    ensures { (j : ℕ) → j < V.width → (start : List ℕ) → lane V.word j state.now ≡ rounds start (lane V.word j words.now) t
        → lane V.word j result ≡ rounds start (lane V.word j words.now) (t + 1) }
{
    round(state, V::constant(t), words[t])
}

#[inline(always)]
fn round<V: Vector>(state: &State<V>, constant: V, word: V) -> State<V>
    ensures { (j : ℕ) → j < V.width
        → lane V.word j result ≡ round (lane V.word j state.now) (V.word constant j) (V.word word j) }
{
    let [a, b, c, d, e, f, g, h] = *state;
    // What is known longest is added first.
    let known = h.add(constant).add(word);
    let first = known.add(big_sigma1(e)).add(e.choose(f, g));
    let second = big_sigma0(a).add(a.majority(b, c));
    [first.add(second), a, b, c, d.add(first), e, f, g]
}
