//! The guests of a run.
ghost use Rattle.std.specs.Prelude.{◌≡◌, ◌≤◌, [], IfOk, vec_capacity};

use crate::task::{DoneTask, Handles, Task};
use page_model::Verdict;
use share_rings::ClosedPort;
use std::alloc::{AllocError, Allocator};

/// The tasks to start, and the lists, empty at first, of the threads that do them and of the tasks that are done.
#[derive(Drop)]
pub(crate) struct Crew<A: Allocator> {
    pub(crate) tasks: Vec<Task<A>, A>,
    pub(crate) handles: Handles<A>,
    pub(crate) done: Vec<DoneTask<A>, A>,
}

/// The lists that a run fills, one item for each guest: the threads, the tasks that are done, and each guest's port and
/// verdicts at the end.
#[derive(Drop)]
pub(crate) struct Lists<A: Allocator> {
    pub(crate) handles: Handles<A>,
    pub(crate) done: Vec<DoneTask<A>, A>,
    pub(crate) ports: Vec<ClosedPort<A>, A>,
    pub(crate) verdicts: Vec<Vec<Verdict, A>, A>,
}

/// Makes a run's lists, all empty, with room for this many guests.
pub(crate) fn new_lists<A: Allocator + Copy>(
    alloc: A,
    guests: usize,
) -> Result<Lists<A>, AllocError>
    ensures handles { IfOk result (λ lists. (lists.handles.items ≡ []) × (guests ≤ vec_capacity lists.handles)) }
    ensures done { IfOk result (λ lists. (lists.done.items ≡ []) × (guests ≤ vec_capacity lists.done)) }
    ensures ports { IfOk result (λ lists. (lists.ports.items ≡ []) × (guests ≤ vec_capacity lists.ports)) }
    ensures verdicts { IfOk result (λ lists. (lists.verdicts.items ≡ []) × (guests ≤ vec_capacity lists.verdicts)) }
{
    let handles = Vec::with_capacity(alloc, guests)?;
    let done = Vec::with_capacity(alloc, guests)?;
    let ports = Vec::with_capacity(alloc, guests)?;
    let verdicts = Vec::with_capacity(alloc, guests)?;
    Ok(Lists {
        handles,
        done,
        ports,
        verdicts,
    })
}
