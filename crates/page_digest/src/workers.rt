//! What workers hash and promise, and how their threads are started and joined.
ghost use Rattle.std.specs.Prelude.{◌≡◌, ◌+◌, ◌≤◌, ◌++◌, [], All, IfSome, take, length, vec_len, vec_capacity};
ghost use Rattle.page_digest.specs.Parts.{IsReady, hashes_of_part, parts_of, hashes_of_parts, task_parts};

use crate::PageHash;
use crate::part::{append, push_hashes};
use machine_frames::Frames;
use std::alloc::Allocator;
use std::thread::{Promise, PromisedHandle, Scope, Threads};

/// What a worker hashes; as a promise, that what it returns are the hashes of these frames.
#[derive(Drop)]
pub(crate) struct Part<'a, H: PageHash, B: Allocator> {
    pub(crate) hash: &'a H,
    pub(crate) frames: &'a Frames<B>,
    pub(crate) pairs: &'a [(u32, u32)],
}

impl<'a, H: PageHash, A: Allocator, B: Allocator> Promise<Vec<u64, A>> for Part<'a, H, B> {
    ghost use Rattle.page_digest.specs.Parts.{hashes_of_part};

    ghost kept_by = { λ part hashes. hashes.items ≡ hashes_of_part H.hash_of part };
}

/// The task of a worker's thread.
#[derive(Drop)]
pub(crate) struct Task<'a, H: PageHash, A: Allocator, B: Allocator> {
    pub(crate) part: Part<'a, H, B>,
    /// An empty list with room for the hashes.
    pub(crate) hashes: Vec<u64, A>,
}

/// Threads that were started, in the order of their parts.
pub(crate) type Handles<'a, H, A, B> = Vec<PromisedHandle<Vec<u64, A>, Part<'a, H, B>>, A>;

/// Starts the workers' threads in order, up to the first whose start is refused.
pub(crate) fn start_all<'s, E, H: PageHash, A: Allocator + Send + 's, B: Allocator + Sync>(
    scope: &Scope<'s, E>,
    tasks: Vec<Task<'s, H, A, B>, A>,
    handles: &mut Handles<'s, H, A, B>,
)
    requires ready { All IsReady tasks.items }
    requires room { (handles.old.items ≡ []) × (length tasks.items ≤ vec_capacity handles.old) }
    ensures started { parts_of handles.new.items ≡ take (length handles.new.items) (task_parts tasks.entry.items) }
    ensures most { length handles.new.items ≤ length tasks.entry.items }
{
    for task in tasks {
        let Some(handle) = start(scope, task) else {
            return;
        };
        handles.push_reserved(handle);
    }
}

/// Starts a worker's thread. Returns `None` if that is refused.
fn start<'s, E, H: PageHash, A: Allocator + Send + 's, B: Allocator + Sync>(
    scope: &Scope<'s, E>,
    task: Task<'s, H, A, B>,
) -> Option<PromisedHandle<Vec<u64, A>, Part<'s, H, B>>>
    requires { IsReady task }
    ensures { IfSome result (λ handle. handle.promise ≡ task.entry.part) }
{
    let promise = Part {
        hash: task.part.hash,
        frames: task.part.frames,
        pairs: task.part.pairs,
    };
    let work = move || -> Vec<u64, A>
        requires { IsReady task }
        ensures { result.items ≡ hashes_of_part H.hash_of task.entry.part }
    { run(task) };
    scope.spawn_with(promise, work).ok()
}

fn run<H: PageHash, A: Allocator, B: Allocator>(task: Task<'_, H, A, B>) -> Vec<u64, A>
    requires { IsReady task }
    ensures { result.items ≡ hashes_of_part H.hash_of task.entry.part }
{
    let Task { part, mut hashes } = task;
    push_hashes(part.hash, part.frames, part.pairs, &mut hashes);
    hashes
}

/// Waits until the threads have ended, and appends their hashes in the order of their parts.
pub(crate) fn join_all<R: Threads, H: PageHash, A: Allocator, B: Allocator>(
    rt: &R,
    handles: Handles<'_, H, A, B>,
    hashes: &mut Vec<u64, A>,
)
    requires { vec_len hashes.old + length (hashes_of_parts H.hash_of (parts_of handles.items)) ≤ vec_capacity hashes.old }
    ensures { hashes.new.items ≡ hashes.old.items ++ hashes_of_parts H.hash_of (parts_of handles.entry.items) }
{
    for handle in handles {
        let part = handle.join(rt);
        append(hashes, &part);
    }
}

/// Waits until the threads have ended, and drops their hashes.
pub(crate) fn wait_all<R: Threads, H: PageHash, A: Allocator, B: Allocator>(
    rt: &R,
    handles: Handles<'_, H, A, B>,
) {
    for handle in handles {
        drop(handle.join(rt));
    }
}
