//! The tasks of all guests, and their results.
ghost use Rattle.std.specs.Prelude.{◌≡◌, ◌≤◌, ◌↔◌, false, [], All, IsTrue, IfOk, length, vec_capacity};
ghost use Rattle.share_rings.specs.Closing.{has_close};
ghost use Rattle.merge_machine.specs.Kept.{port_names, port_capacities};
ghost use Rattle.merge_machine.specs.Scripts.{entries_needed};
ghost use Rattle.merge_run.specs.Tasks.{IsUnused, IsReady, task_names, task_capacities, task_requests, ports_of, lists_of, all_sent};
ghost use Rattle.page_model.specs.declared.limits.TheConstants.{MAX_GUESTS};
ghost use Rattle.page_model.specs.declared.limits.TheConstants.{MAX_ENTRIES};

use crate::task::{DoneTask, Task};
use page_model::{Request, Verdict};
use share_rings::{ClosedPort, Port};
use std::alloc::{AllocError, Allocator};

/// Whether a journal of this size has room for each request of these scripts, and a close for each script.
pub fn has_room<A: Allocator>(journal: u32, scripts: &[Vec<Request, A>]) -> bool
    ensures { IsTrue result ↔ (entries_needed scripts.now ≤ journal) }
{
    // What is left of the journal. Counting down can't overflow, however long the scripts are.
    let mut left = journal as usize;
    for script in scripts {
        if script.len() >= left {
            return false;
        }
        left -= script.len() + 1;
    }
    true
}

/// Returns how many requests the guests of these scripts will send, closes included, or `u64::MAX` if there are more.
pub(crate) fn count_requests<A: Allocator>(scripts: &[Vec<Request, A>]) -> u64 {
    let mut count: u64 = 0;
    for script in scripts {
        count = count.saturating_add(script.len() as u64).saturating_add(1);
    }
    count
}

/// Makes the tasks of the guests' threads, guest 0's first.
pub(crate) fn new_tasks<A: Allocator + Copy>(
    alloc: A,
    ports: Vec<Port<A>, A>,
    scripts: Vec<Vec<Request, A>, A>,
) -> Result<Vec<Task<A>, A>, AllocError>
    requires each { length ports.items ≡ length scripts.items }
    requires few { (length scripts.items ≤ MAX_GUESTS) × (entries_needed scripts.items ≤ MAX_ENTRIES) }
    requires fresh { All IsUnused ports.items }
    requires plain { All (λ script. has_close script.items ≡ false) scripts.items }
    ensures ready { IfOk result (λ tasks. All IsReady tasks.items) }
    ensures names { IfOk result (λ tasks. task_names tasks.items ≡ port_names ports.items) }
    ensures capacities { IfOk result (λ tasks. task_capacities tasks.items ≡ port_capacities ports.items) }
    ensures scripts { IfOk result (λ tasks. task_requests tasks.items ≡ all_sent scripts.items) }
{
    let mut tasks = Vec::with_capacity(alloc, scripts.len())?;
    let mut ports = ports.into_iter();
    for script in scripts {
        let Some(port) = ports.next() else {
            unreachable!()
        };
        let verdicts = Vec::with_capacity(alloc, script.len() + 1)?;
        tasks.push_reserved(Task {
            guest: tasks.len() as u8,
            port,
            script,
            verdicts,
        });
    }
    Ok(tasks)
}

/// Moves the ports and the lists of verdicts to these two lists, which are empty and have room for them.
pub(crate) fn into_lists<A: Allocator>(
    done: Vec<DoneTask<A>, A>,
    ports: &mut Vec<ClosedPort<A>, A>,
    verdicts: &mut Vec<Vec<Verdict, A>, A>,
)
    requires ports { (ports.old.items ≡ []) × (length done.items ≤ vec_capacity ports.old) }
    requires verdicts { (verdicts.old.items ≡ []) × (length done.items ≤ vec_capacity verdicts.old) }
    ensures ports { ports.new.items ≡ ports_of done.items }
    ensures verdicts { verdicts.new.items ≡ lists_of done.items }
{
    for task in done {
        let DoneTask {
            port,
            verdicts: list,
        } = task;
        ports.push_reserved(port);
        verdicts.push_reserved(list);
    }
}
