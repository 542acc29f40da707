//! Starting the guests' threads, and joining them.
ghost use Rattle.std.specs.Prelude.{◌≡◌, ◌≤◌, [], All, IfSome, take, length, vec_capacity};
ghost use Rattle.merge_run.specs.Tasks.{IsReady, IsDone, AreDone, tasks_of};

use crate::gate::Gate;
use crate::guest_thread::do_task;
use crate::task::{DoesTask, DoneTask, Handles, Task};
use std::alloc::Allocator;
use std::snapshot::Snapshot;
use std::sync::Wait;
use std::thread::{PromisedHandle, Scope, Threads};

/// Starts the guests' threads in order, up to the first whose start is refused.
pub(crate) fn start_all<'s, E, R: Threads + Wait + Sync, A: Allocator + Send + 's, G: Gate + Sync>(
    scope: &Scope<'s, E>,
    rt: &'s R,
    gate: &'s G,
    tasks: Vec<Task<A>, A>,
    handles: &mut Handles<A>,
)
    requires ready { All IsReady tasks.items }
    requires room { (handles.old.items ≡ []) × (length tasks.items ≤ vec_capacity handles.old) }
    ensures started { tasks_of handles.new.items ≡ take (length handles.new.items) tasks.items }
    ensures most { length handles.new.items ≤ length tasks.items }
{
    let guests = tasks.len();
    for task in tasks {
        let Some(handle) = start(scope, rt, gate, task, guests) else {
            return;
        };
        handles.push_reserved(handle);
    }
}

/// Starts a guest's thread. Returns `None` if that is refused.
fn start<'s, E, R: Threads + Wait + Sync, A: Allocator + Send + 's, G: Gate + Sync>(
    scope: &Scope<'s, E>,
    rt: &'s R,
    gate: &'s G,
    task: Task<A>,
    guests: usize,
) -> Option<PromisedHandle<DoneTask<A>, DoesTask<A>>>
    requires { IsReady task }
    ensures { IfSome result (λ handle. handle.promise.0.value ≡ task) }
{
    let promise = DoesTask(Snapshot::of(&task));
    let work = move || -> DoneTask<A>
        requires { IsReady task }
        ensures { IsDone task result }
    { do_task(rt, gate, task, guests) };
    scope.spawn_with(promise, work).ok()
}

/// Waits until the threads have ended, and pushes what they return to the list.
pub(crate) fn join_all<R: Threads, A: Allocator>(
    rt: &R,
    handles: Handles<A>,
    done: &mut Vec<DoneTask<A>, A>,
)
    requires { (done.old.items ≡ []) × (length handles.items ≤ vec_capacity done.old) }
    ensures { AreDone (tasks_of handles.items) done.new.items }
{
    for handle in handles {
        done.push_reserved(handle.join(rt));
    }
}
