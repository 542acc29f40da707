//! The hashes of listed frames, on one thread.
ghost use Rattle.std.specs.Prelude.{◌≡◌, ◌+◌, ◌≤◌, ◌++◌, length, vec_len, vec_capacity};
ghost use Rattle.page_digest.specs.Many.{AreTaken, frame_hashes};

use crate::PageHash;
use machine_frames::Frames;
use std::alloc::Allocator;

// How many pages are hashed at once at most.
const LANES: usize = 8;

/// Appends the hash of each listed frame, eight at once as far as whole eights go.
pub(crate) fn push_hashes<H: PageHash, A: Allocator, B: Allocator>(
    hash: &H,
    frames: &Frames<B>,
    pairs: &[(u32, u32)],
    hashes: &mut Vec<u64, A>,
)
    requires taken { AreTaken frames.now pairs.now }
    requires room { vec_len hashes.old + length pairs.now ≤ vec_capacity hashes.old }
    ensures items { hashes.new.items ≡ hashes.old.items ++ frame_hashes H.hash_of frames.now pairs.now }
    ensures capacity { vec_capacity hashes.old ≤ vec_capacity hashes.new }
{
    let whole = pairs.len() / LANES;
    for n in 0..whole {
        push_eight(hash, frames, &pairs[LANES * n..LANES * n + LANES], hashes);
    }
    push_rest(hash, frames, &pairs[LANES * whole..], hashes);
}

fn push_eight<H: PageHash, A: Allocator, B: Allocator>(
    hash: &H,
    frames: &Frames<B>,
    pairs: &[(u32, u32)],
    hashes: &mut Vec<u64, A>,
)
    requires eight { length pairs.now ≡ 8 }
    requires taken { AreTaken frames.now pairs.now }
    requires room { vec_len hashes.old + 8 ≤ vec_capacity hashes.old }
    ensures items { hashes.new.items ≡ hashes.old.items ++ frame_hashes H.hash_of frames.now pairs.now }
    ensures len { vec_len hashes.new ≡ vec_len hashes.old + 8 }
    ensures capacity { vec_capacity hashes.old ≤ vec_capacity hashes.new }
{
    let numbers = hash.hash_eight(
        [
            pairs[0].0, pairs[1].0, pairs[2].0, pairs[3].0, pairs[4].0, pairs[5].0, pairs[6].0,
            pairs[7].0,
        ],
        [
            frames.bytes(pairs[0].1),
            frames.bytes(pairs[1].1),
            frames.bytes(pairs[2].1),
            frames.bytes(pairs[3].1),
            frames.bytes(pairs[4].1),
            frames.bytes(pairs[5].1),
            frames.bytes(pairs[6].1),
            frames.bytes(pairs[7].1),
        ],
    );
    append(hashes, &numbers);
}

// Hashes four at once if there are as many, and the others one by one.
fn push_rest<H: PageHash, A: Allocator, B: Allocator>(
    hash: &H,
    frames: &Frames<B>,
    pairs: &[(u32, u32)],
    hashes: &mut Vec<u64, A>,
)
    requires taken { AreTaken frames.now pairs.now }
    requires room { vec_len hashes.old + length pairs.now ≤ vec_capacity hashes.old }
    ensures items { hashes.new.items ≡ hashes.old.items ++ frame_hashes H.hash_of frames.now pairs.now }
    ensures capacity { vec_capacity hashes.old ≤ vec_capacity hashes.new }
{
    if pairs.len() < 4 {
        push_each(hash, frames, pairs, hashes);
        return;
    }
    push_four(hash, frames, &pairs[..4], hashes);
    push_each(hash, frames, &pairs[4..], hashes);
}

fn push_four<H: PageHash, A: Allocator, B: Allocator>(
    hash: &H,
    frames: &Frames<B>,
    pairs: &[(u32, u32)],
    hashes: &mut Vec<u64, A>,
)
    requires four { length pairs.now ≡ 4 }
    requires taken { AreTaken frames.now pairs.now }
    requires room { vec_len hashes.old + 4 ≤ vec_capacity hashes.old }
    ensures items { hashes.new.items ≡ hashes.old.items ++ frame_hashes H.hash_of frames.now pairs.now }
    ensures len { vec_len hashes.new ≡ vec_len hashes.old + 4 }
    ensures capacity { vec_capacity hashes.old ≤ vec_capacity hashes.new }
{
    let numbers = hash.hash_four(
        [pairs[0].0, pairs[1].0, pairs[2].0, pairs[3].0],
        frames.bytes(pairs[0].1),
        frames.bytes(pairs[1].1),
        frames.bytes(pairs[2].1),
        frames.bytes(pairs[3].1),
    );
    append(hashes, &numbers);
}

fn push_each<H: PageHash, A: Allocator, B: Allocator>(
    hash: &H,
    frames: &Frames<B>,
    pairs: &[(u32, u32)],
    hashes: &mut Vec<u64, A>,
)
    requires taken { AreTaken frames.now pairs.now }
    requires room { vec_len hashes.old + length pairs.now ≤ vec_capacity hashes.old }
    ensures items { hashes.new.items ≡ hashes.old.items ++ frame_hashes H.hash_of frames.now pairs.now }
    ensures capacity { vec_capacity hashes.new ≡ vec_capacity hashes.old }
{
    for n in 0..pairs.len() {
        let (salt, mpn) = pairs[n];
        hashes.push_reserved(hash.hash(salt, frames.bytes(mpn)));
    }
}

/// Appends numbers for which there is room.
pub(crate) fn append<A: Allocator>(hashes: &mut Vec<u64, A>, more: &[u64])
    requires { vec_len hashes.old + length more.now ≤ vec_capacity hashes.old }
    ensures items { hashes.new.items ≡ hashes.old.items ++ more.now }
    ensures len { vec_len hashes.new ≡ vec_len hashes.old + length more.now }
    ensures capacity { vec_capacity hashes.old ≤ vec_capacity hashes.new }
{
    let _within = hashes.extend_from_slice(more);
}
