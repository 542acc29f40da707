//! The hashes of four or eight messages.
ghost use Rattle.std.specs.Prelude.{◌≡◌, ℕ, List, ◌+◌, ◌*◌, ◌^◌, ◌<◌, ◌≤◌, [], ◌∷◌, All, length, map, slice_index, slice_index_or};
ghost use Rattle.sha2.specs.Sha256.{add_state, compress, initial_hash_256};
ghost use Rattle.sha256_lanes.specs.Hashes.{hash_value, leading_number, leading_digest};
ghost use Rattle.sha256_lanes.specs.Lanes.{lane, one_of, four_words_of};
ghost use Rattle.sha256_lanes.specs.Schedules.{Schedules};

use crate::blocks::{begin_eight, begin_four};
use crate::padded::Padded;
use crate::rounds::{Rounds, State, all_rounds};
use crate::schedule::{Schedule, extend};
use crate::vectors::Vector;
use std::simd::{u32x4, u32x8};

/// Returns, for each of four messages, the first eight bytes of its SHA-256 digest, read big-endian.
pub fn hash_four(a: &Padded<'_>, b: &Padded<'_>, c: &Padded<'_>, d: &Padded<'_>) -> [u64; 4]
    requires b { length b.now ≡ length a.now }
    requires c { length c.now ≡ length a.now }
    requires d { length d.now ≡ length a.now }
    ensures { result ≡ map leading_number (a.now ∷ b.now ∷ c.now ∷ d.now ∷ []) }
{
    leading_numbers(&state_of_four(a, b, c, d))
}

/// Returns the same for each of eight messages.
pub fn hash_eight(messages: &[Padded<'_>; 8]) -> [u64; 8]
    requires { All (λ message. length message ≡ length (slice_index_or messages.now 0 [])) messages.now }
    ensures { result ≡ map leading_number messages.now }
{
    eight_leading_numbers(&state_of_eight(messages))
}

/// Returns, for each of four messages, the first sixteen bytes of its SHA-256 digest, read big-endian.
pub fn digest_four(a: &Padded<'_>, b: &Padded<'_>, c: &Padded<'_>, d: &Padded<'_>) -> [u128; 4]
    requires b { length b.now ≡ length a.now }
    requires c { length c.now ≡ length a.now }
    requires d { length d.now ≡ length a.now }
    ensures { result ≡ map leading_digest (a.now ∷ b.now ∷ c.now ∷ d.now ∷ []) }
{
    leading_digests(&state_of_four(a, b, c, d))
}

// Returns each message's hash value after all of its blocks.
#[inline(always)]
fn state_of_four(a: &Padded<'_>, b: &Padded<'_>, c: &Padded<'_>, d: &Padded<'_>) -> State<u32x4>
    requires b { length b.now ≡ length a.now }
    requires c { length c.now ≡ length a.now }
    requires d { length d.now ≡ length a.now }
    ensures some { 64 ≤ length a.now }
    ensures each { (j : ℕ) → j < 4 → lane slice_index j result ≡ hash_value (one_of j a.now b.now c.now d.now) }
{
    let mut state = initial();
    let mut words = [u32x4::splat(0); 64];
    for n in 0..a.blocks() {
        begin_four(&mut words, a.block(n), b.block(n), c.block(n), d.block(n));
        absorb(&mut state, &mut words);
    }
    state
}

// Returns each message's hash value after all of its blocks.
#[inline(always)]
fn state_of_eight(messages: &[Padded<'_>; 8]) -> State<u32x8>
    requires { All (λ message. length message ≡ length (slice_index_or messages.now 0 [])) messages.now }
    ensures count { length messages.now ≡ 8 }
    ensures some { 64 ≤ length (slice_index_or messages.now 0 []) }
    ensures each { (j : ℕ) → j < 8 → lane slice_index j result ≡ hash_value (slice_index_or messages.now j []) }
{
    let mut state = initial();
    let mut words = [u32x8::splat(0); 64];
    for n in 0..messages[0].blocks() {
        begin_eight(&mut words, messages, n);
        absorb(&mut state, &mut words);
    }
    state
}

// Returns the initial hash value (FIPS 180-4, 5.3.3) in each lane.
fn initial<V: Vector>() -> State<V>
    ensures { (j : ℕ) → j < V.width → lane V.word j result ≡ initial_hash_256 }
{
    [
        V::splat(0x6a09_e667),
        V::splat(0xbb67_ae85),
        V::splat(0x3c6e_f372),
        V::splat(0xa54f_f53a),
        V::splat(0x510e_527f),
        V::splat(0x9b05_688c),
        V::splat(0x1f83_d9ab),
        V::splat(0x5be0_cd19),
    ]
}

// Updates the hash value of each message with the block whose words stand first in its schedule. Inlined, so that the
// compiler sees how the schedules' room is aligned.
#[inline(always)]
fn absorb<V: Rounds>(state: &mut State<V>, words: &mut Schedule<V>)
    ensures { (j : ℕ) → j < V.width → (block : List ℕ) → Schedules (lane V.word j words.old) block 16
        → lane V.word j state.new ≡ compress (lane V.word j state.old) block }
{
    extend(words);
    let after = all_rounds(state, words);
    *state = sum(state, &after);
}

// Returns the sums of the words at each place (FIPS 180-4, 6.2.2, step 4).
#[inline(always)]
fn sum<V: Vector>(x: &State<V>, y: &State<V>) -> State<V>
    ensures { (j : ℕ) → j < V.width → lane V.word j result ≡ add_state (lane V.word j x.now) (lane V.word j y.now) }
{
    [
        x[0].add(y[0]),
        x[1].add(y[1]),
        x[2].add(y[2]),
        x[3].add(y[3]),
        x[4].add(y[4]),
        x[5].add(y[5]),
        x[6].add(y[6]),
        x[7].add(y[7]),
    ]
}

// Returns the first two words of each hash value as one number.
fn leading_numbers(state: &State<u32x4>) -> [u64; 4]
    ensures len { length result ≡ 4 }
    ensures each { (j : ℕ) → j < 4
        → slice_index result j ≡ slice_index (lane slice_index j state.now) 0 * 2 ^ 32 + slice_index (lane slice_index j state.now) 1 }
{
    let [a, b, c, d] = state[0].to_array();
    let [e, f, g, h] = state[1].to_array();
    [joined(a, e), joined(b, f), joined(c, g), joined(d, h)]
}

// Returns the first two words of each hash value as one number.
fn eight_leading_numbers(state: &State<u32x8>) -> [u64; 8]
    ensures len { length result ≡ 8 }
    ensures each { (j : ℕ) → j < 8
        → slice_index result j ≡ slice_index (lane slice_index j state.now) 0 * 2 ^ 32 + slice_index (lane slice_index j state.now) 1 }
{
    let first = state[0].to_array();
    let second = state[1].to_array();
    [
        joined(first[0], second[0]),
        joined(first[1], second[1]),
        joined(first[2], second[2]),
        joined(first[3], second[3]),
        joined(first[4], second[4]),
        joined(first[5], second[5]),
        joined(first[6], second[6]),
        joined(first[7], second[7]),
    ]
}

// Returns the first four words of each hash value as one number.
fn leading_digests(state: &State<u32x4>) -> [u128; 4]
    ensures len { length result ≡ 4 }
    ensures each { (j : ℕ) → j < 4 → slice_index result j ≡ four_words_of (lane slice_index j state.now) }
{
    let [a, b, c, d] = state[0].to_array();
    let [e, f, g, h] = state[1].to_array();
    let [i, j, k, l] = state[2].to_array();
    let [m, n, o, p] = state[3].to_array();
    [
        joined_twice(joined(a, e), joined(i, m)),
        joined_twice(joined(b, f), joined(j, n)),
        joined_twice(joined(c, g), joined(k, o)),
        joined_twice(joined(d, h), joined(l, p)),
    ]
}

fn joined(upper: u32, lower: u32) -> u64
    ensures { result ≡ upper * 2 ^ 32 + lower }
{
    u64::from(upper) * 4_294_967_296 + u64::from(lower)
}

fn joined_twice(upper: u64, lower: u64) -> u128
    ensures { result ≡ upper * 2 ^ 64 + lower }
{
    u128::from(upper) * 18_446_744_073_709_551_616 + u128::from(lower)
}
