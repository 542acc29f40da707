//! What the thread that looks does next.
ghost use Rattle.std.specs.Prelude.{◌≡◌, false, true};
ghost use Rattle.look_tasks.specs.Tasks.{asked_then, done_then, look_begun, rests, task_of, tasks_of};
ghost use Rattle.look_tasks.specs.Budgets.{settled, wait_of};
ghost use Rattle.pageshare_window_c.specs.Budgets.{ledger_of};
ghost use Rattle.pageshare_window_c.specs.Tasks.{early_task, late_task, numbers, task_by, task_numbers};

use crate::WindowBudget;
use crate::budget::settle;
use look_tasks::{LookTasks, Task, TaskOutcome};

/// What the thread does next.
#[repr(C)]
#[derive(Clone, Copy)]
pub struct WindowTask {
    /// For how many nanoseconds it sleeps.
    pub ns: u64,
    /// The part that it looks at.
    pub part: u32,
    /// The number of what it does.
    pub kind: u8,
}

// Returns the numbers of a task that has no other ones than its kind.
fn of_kind(kind: u8) -> WindowTask
    ensures { result ≡ numbers kind 0 0 }
{
    WindowTask {
        ns: 0,
        part: 0,
        kind,
    }
}

// Returns a task's numbers.
fn task_numbers(task: Task) -> WindowTask
    ensures { result ≡ task_numbers task }
{
    match task {
        Task::Over => of_kind(0),
        Task::Sleep(ns) => WindowTask {
            ns,
            part: 0,
            kind: 1,
        },
        Task::Begin => of_kind(2),
        Task::Attend => of_kind(3),
        Task::Release => of_kind(4),
        Task::Window => of_kind(5),
        Task::Look(part) => WindowTask {
            ns: 0,
            part,
            kind: 6,
        },
        Task::Return(part) => WindowTask {
            ns: 0,
            part,
            kind: 7,
        },
        Task::GiveBack => of_kind(8),
        Task::Ask => of_kind(9),
        Task::Copy => of_kind(10),
        Task::Lend => of_kind(11),
        Task::Hold => of_kind(12),
        Task::End => of_kind(13),
    }
}

// Returns the task with these numbers, of a kind up to 5.
fn early_task(task: &WindowTask) -> Task
    ensures { result ≡ early_task task.now }
{
    match task.kind {
        1 => Task::Sleep(task.ns),
        2 => Task::Begin,
        3 => Task::Attend,
        4 => Task::Release,
        5 => Task::Window,
        _ => Task::Over,
    }
}

// Returns the task with these numbers, of a kind from 9 on, or up to 5.
fn late_task(task: &WindowTask) -> Task
    ensures { result ≡ late_task task.now }
{
    match task.kind {
        9 => Task::Ask,
        10 => Task::Copy,
        11 => Task::Lend,
        12 => Task::Hold,
        13 => Task::End,
        _ => early_task(task),
    }
}

// Returns the task with these numbers.
fn task_by(task: &WindowTask) -> Task
    ensures { result ≡ task_by task.now }
{
    match task.kind {
        6 => Task::Look(task.part),
        7 => Task::Return(task.part),
        8 => Task::GiveBack,
        _ => late_task(task),
    }
}

/// Begins a look. Returns false, and changes nothing, if one stands.
#[unsafe(no_mangle)]
pub extern "C" fn pageshare_window_begin_tasks(tasks: &mut LookTasks) -> bool
    ensures begun { result ≡ rests (tasks_of tasks.old).stage }
    ensures tasks { rests (tasks_of tasks.old).stage ≡ true → tasks_of tasks.new ≡ look_begun }
    ensures same { rests (tasks_of tasks.old).stage ≡ false → tasks.new ≡ tasks.old }
{
    tasks.begin()
}

/// Counts what was used of a budget since the last call, where the clocks read `now` and `spent`. Returns what the thread does next: it sleeps
/// if its budget says so.
#[unsafe(no_mangle)]
pub extern "C" fn pageshare_window_next_task(
    tasks: &mut LookTasks,
    budget: &mut WindowBudget,
    now: u64,
    spent: u64,
) -> WindowTask
    ensures budget { ledger_of budget.new ≡ settled (ledger_of budget.old) now spent }
    ensures task { result ≡ task_numbers (task_of (tasks_of tasks.old) now (wait_of (ledger_of budget.new))) }
    ensures tasks { tasks_of tasks.new ≡ asked_then (tasks_of tasks.old) now (wait_of (ledger_of budget.new)) }
{
    let wait = settle(budget, now, spent);
    task_numbers(tasks.next(now, wait))
}

/// Takes what came of a task, where the clock reads `now`. While no look stands nothing changes.
#[unsafe(no_mangle)]
pub extern "C" fn pageshare_window_task_done(
    tasks: &mut LookTasks,
    task: &WindowTask,
    outcome: &TaskOutcome,
    now: u64,
)
    ensures { tasks_of tasks.new ≡ done_then (tasks_of tasks.old) (task_by task.now) outcome.now now }
{
    tasks.done(task_by(task), outcome, now);
}
