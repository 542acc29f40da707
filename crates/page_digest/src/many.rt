//! The hashes of many frames, by several workers.
ghost use Rattle.std.specs.Prelude.{◌≡◌, ◌≤◌, All, IfOk, length, take, drop};
ghost use Rattle.page_digest.specs.Many.{AreTaken, frame_hashes};
ghost use Rattle.page_digest.specs.Parts.{CanShare, IsReady, hashes_of_part, hashes_of_parts, task_parts};
ghost use Rattle.page_model.specs.declared.limits.TheConstants.{MAX_WORKERS};

use crate::PageHash;
use crate::part::push_hashes;
use crate::workers::{Part, Task, join_all, start_all, wait_all};
use machine_frames::Frames;
use std::alloc::{AllocError, Allocator};
use std::sync::Wait;
use std::thread;
use std::thread::{Scope, Threads};
use thiserror::Error;

/// Why there are no hashes. The causes are checked in this order.
#[derive(Clone, Copy, Debug, PartialEq, Eq, Error)]
pub enum HashFault {
    /// The memory for the hashes or for the workers was refused.
    #[error("out of memory")]
    OutOfMemory,
    /// The start of a worker's thread was refused.
    #[error("no thread")]
    NoThread,
}

impl From<AllocError> for HashFault {
    ghost use Rattle.std.specs.Prelude.{◌≡◌};
    ghost use Rattle.page_digest.specs.declared.many.HashFault.{HashFault};

    ghost from_gives = { λ _ fault. fault ≡ HashFault.OutOfMemory };

    fn from(_refused: AllocError) -> HashFault {
        HashFault::OutOfMemory
    }
}

/// Returns the hash of each listed frame, in order. `pairs` lists each frame's salt and MPN.
///
/// Up to `workers` workers, at most [`page_model::MAX_WORKERS`], hash parts of equal size, though the last part may be
/// smaller. The calling thread is one of them, so a single worker starts no thread. All memory is taken before the first
/// thread starts. If a start is refused, the function waits for the threads that were started.
pub fn hash_many<
    R: Threads + Wait + Sync,
    H: PageHash,
    A: Allocator + Clone + Send,
    B: Allocator + Sync,
>(
    rt: &R,
    alloc: A,
    workers: u32,
    hash: &H,
    frames: &Frames<B>,
    pairs: &[(u32, u32)],
) -> Result<Vec<u64, A>, HashFault>
    requires workers { (1 ≤ workers) × (workers ≤ MAX_WORKERS) }
    requires taken { AreTaken frames.now pairs.now }
    ensures { IfOk result (λ hashes. hashes.items ≡ frame_hashes H.hash_of frames.now pairs.now) }
{
    let mut hashes = Vec::with_capacity(alloc.clone()?, pairs.len())?;
    let size = pairs.len().div_ceil(workers as usize);
    if size == pairs.len() {
        push_hashes(hash, frames, pairs, &mut hashes);
        return Ok(hashes);
    }
    thread::scope(
        thread::scope_env(),
        rt,
        |scope| -> Result<Vec<u64, A>, HashFault>
            requires { CanShare frames.now pairs.now size hashes }
            ensures { IfOk result (λ all. all.items ≡ frame_hashes H.hash_of frames.entry.now pairs.entry.now) }
        {
            let part = Part {
                hash,
                frames,
                pairs,
            };
            hash_in(scope, rt, alloc, Task { part, hashes }, size)
        },
    )
}

/// Returns the hashes of a task in a scope, shared out in parts of the given size. The calling thread hashes the first part.
fn hash_in<
    's,
    E,
    R: Threads + Wait + Sync,
    H: PageHash,
    A: Allocator + Clone + Send + 's,
    B: Allocator + Sync,
>(
    scope: &Scope<'s, E>,
    rt: &'s R,
    alloc: A,
    task: Task<'s, H, A, B>,
    size: usize,
) -> Result<Vec<u64, A>, HashFault>
    requires { CanShare task.part.frames.now task.part.pairs.now size task.hashes }
    ensures { IfOk result (λ all. all.items ≡ hashes_of_part H.hash_of task.entry.part) }
{
    let Task { part, mut hashes } = task;
    let Part {
        hash,
        frames,
        pairs,
    } = part;
    let tasks = new_tasks(&alloc, hash, frames, &pairs[size..], size)?;
    let count = tasks.len();
    let mut handles = Vec::with_capacity(alloc, count)?;
    start_all(scope, tasks, &mut handles);
    if handles.len() < count {
        wait_all(rt, handles);
        return Err(HashFault::NoThread);
    }
    push_hashes(hash, frames, &pairs[..size], &mut hashes);
    join_all(rt, handles, &mut hashes);
    Ok(hashes)
}

/// Makes the tasks of the other workers, with parts of `size` frames each. The last part may be smaller.
fn new_tasks<'a, H: PageHash, A: Allocator + Clone, B: Allocator>(
    alloc: &A,
    hash: &'a H,
    frames: &'a Frames<B>,
    pairs: &'a [(u32, u32)],
    size: usize,
) -> Result<Vec<Task<'a, H, A, B>, A>, AllocError>
    requires size { 1 ≤ size }
    requires taken { AreTaken frames.now pairs.now }
    ensures ready { IfOk result (λ tasks. All IsReady tasks.items) }
    ensures parts { IfOk result (λ tasks. hashes_of_parts H.hash_of (task_parts tasks.items)
        ≡ frame_hashes H.hash_of frames.now pairs.now) }
{
    let count = pairs.len().div_ceil(size);
    let mut tasks = Vec::with_capacity(alloc.clone()?, count)?;
    for n in 0..count {
        let part = Part {
            hash,
            frames,
            pairs: part_at(pairs, size * n, size),
        };
        let hashes = Vec::with_capacity(alloc.clone()?, part.pairs.len())?;
        tasks.push_reserved(Task { part, hashes });
    }
    Ok(tasks)
}

/// Returns `size` pairs from place `from` on, or all that are left if there are fewer.
fn part_at(pairs: &[(u32, u32)], from: usize, size: usize) -> &[(u32, u32)]
    requires { from ≤ length pairs.now }
    ensures { result.now ≡ take size (drop from pairs.now) }
{
    let rest = &pairs[from..];
    &rest[..rest.len().min(size)]
}
