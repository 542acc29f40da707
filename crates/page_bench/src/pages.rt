//! The page that is hashed: alone, and as a listed frame.
ghost use Rattle.std.specs.Prelude.{IfOk};
ghost use Rattle.machine_frames.specs.FrameMap.{IsTaken};
ghost use Rattle.page_digest.specs.Many.{AreTaken};

use crate::frame_calls::{Held, hold};
use crate::step::Refusal;
use crate::timed_hash::TimedHash;
use machine_frames::Frames;
use page_digest::{HashFault, PageHash, hash_many};
use page_model::{MAX_WORKERS, Page};
use std::alloc::{AllocError, Global};
use std::sync::Wait;
use std::thread::Threads;

// The salt of each hash.
const SALT: u32 = 3;

/// A frame, a list that repeats it with its salt, and the sum of the hashes of the list's pages.
#[derive(Drop)]
pub struct Listed {
    held: Held,
    pub pairs: Vec<(u32, u32)>,
    pub sum: u64,
    ghost taken: { AreTaken held.frames pairs.items },
}

/// Lists a frame `count` times.
pub fn list_frame(alloc: Global, hash: TimedHash, count: u32) -> Option<Listed> {
    let held = hold(alloc, 1)?;
    let pairs = pairs_of(alloc, &held.frames, held.first, count).ok()?;
    let sum = hash_of(hash, &held).wrapping_mul(u64::from(count));
    Some(Listed { held, pairs, sum })
}

fn hash_of(hash: TimedHash, held: &Held) -> u64 {
    hash.hash(SALT, held.frames.bytes(held.first))
}

fn pairs_of(
    alloc: Global,
    _frames: &Frames,
    mpn: u32,
    count: u32,
) -> Result<Vec<(u32, u32)>, AllocError>
    requires { IsTaken _frames.now mpn }
    ensures { IfOk result (λ pairs. AreTaken _frames.now pairs.items) }
{
    let mut pairs = Vec::with_capacity(alloc, count as usize)?;
    for _n in 0..count {
        pairs.push_reserved((SALT, mpn));
    }
    Ok(pairs)
}

/// Returns the sum of the hashes of as many pages as are listed, made one, four or eight at once.
pub fn sum_alone(hash: TimedHash, listed: &Listed, at_once: usize) -> u64 {
    let page = listed.held.frames.bytes(listed.held.first);
    let mut sum = 0u64;
    for _turn in 0..listed.pairs.len() / at_once.max(1) {
        sum = sum.wrapping_add(sum_at_once(hash, page, at_once));
    }
    sum
}

fn sum_at_once(hash: TimedHash, page: &Page, at_once: usize) -> u64 {
    match at_once {
        8 => sum_of(&hash.hash_eight([SALT; 8], [page; 8])),
        4 => sum_of(&hash.hash_four([SALT; 4], page, page, page, page)),
        _ => hash.hash(SALT, page),
    }
}

/// Returns the sum of the hashes of all listed pages, computed by `workers` workers.
pub fn sum_by<R: Threads + Wait + Sync>(
    rt: &R,
    alloc: Global,
    hash: TimedHash,
    listed: &Listed,
    workers: u32,
) -> Result<u64, Refusal> {
    let workers = workers.clamp(1, MAX_WORKERS);
    match hash_many(
        rt,
        alloc,
        workers,
        &hash,
        &listed.held.frames,
        &listed.pairs,
    ) {
        Ok(hashes) => Ok(sum_of(&hashes)),
        Err(HashFault::OutOfMemory) => Err("no memory"),
        Err(HashFault::NoThread) => Err("no thread"),
    }
}

fn sum_of(numbers: &[u64]) -> u64 {
    let mut sum = 0u64;
    for n in 0..numbers.len() {
        sum = sum.wrapping_add(numbers[n]);
    }
    sum
}
