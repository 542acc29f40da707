//! A whole run: a thread for each guest, and the merger on the calling thread.
ghost use Rattle.std.specs.Prelude.{◌≡◌, ◌≤◌, ◌⊎◌, None, [], All, IfOk, IfErr, MatchResult, length, map, vec_capacity};
ghost use Rattle.std.specs.List.{position};
ghost use Rattle.share_rings.specs.Ends.{closed_got, closed_sent, closed_capacity};
ghost use Rattle.merge_core.specs.Shown.{state_of};
ghost use Rattle.merge_machine.specs.Kept.{end_names, closed_names, closed_views};
ghost use Rattle.merge_machine.specs.Machines.{opening};
ghost use Rattle.merge_machine.specs.View.{ends_of, core_of, journal_of, machine_of};
ghost use Rattle.merge_settle.specs.Settling.{Settles, is_running, is_undrained};
ghost use Rattle.merge_settle.specs.View.{settled_journal, settled_ports, settled_core};
ghost use Rattle.merge_run.specs.Fronts.{AreOfFronts};
ghost use Rattle.merge_run.specs.Observed.{ObservesRun};
ghost use Rattle.merge_run.specs.Runs.{CanBeRun, IsWholeRun, NotRunFor};
ghost use Rattle.merge_run.specs.Tasks.{IsReady, task_names, task_capacities, task_requests, ports_of, lists_of};
ghost use Rattle.merge_run.specs.Crews.{HasRunObserved};
ghost use Rattle.merge_run.specs.Turns.{CanRun};
ghost use Rattle.merge_run.specs.declared.run_fault.RunFault.TheVariants.{OutOfMemory, NoThread};

use crate::crew::{Crew, Lists, new_lists};
use crate::finished::Finished;
use crate::gate::Gate;
use crate::observer::{NoObserver, Observer};
use crate::rounds::serve_all;
use crate::run_fault::RunFault;
use crate::task::{DoneTask, Task};
use crate::task_list::{count_requests, has_room, into_lists, new_tasks};
use crate::threads::{join_all, start_all};
use merge_machine::{Config, JournalFull, Merger, open_checked_machine};
use merge_settle::settle;
use page_digest::PageHash;
use page_model::{Request, Verdict};
use share_rings::ClosedPort;
use std::alloc::Allocator;
use std::sync::Wait;
use std::thread;
use std::thread::{Scope, Threads};

/// Runs a machine to its end: a thread for each guest sends its script and then a close, and takes its verdicts, while
/// the merger serves them on the calling thread.
///
/// There is one script for each guest, guest 0's first, and no script contains a close. `gate` is called in the guests'
/// threads, around each send and verdict, and on the calling thread before the first thread is started.
///
/// At `Ok` the machine is settled. Each guest sent its script and a close, and received exactly one verdict for each request, in
/// order. These verdicts are those of one thread that replays the journal on plain page contents.
///
/// # Errors
///
/// The first cause that holds, in the order of [`RunFault`]. All memory that the run can't do without is allocated before
/// the first thread is started.
///
/// Once the start of a thread is refused, no more are started. The guests whose threads were started are served to
/// their end, their threads are joined, and the machine is dropped.
pub fn run<
    R: Threads + Wait + Sync,
    H: PageHash + Drop,
    A: Allocator + Copy + Send + Sync,
    G: Gate + Sync,
>(
    rt: &R,
    alloc: A,
    config: &Config<A>,
    hash: H,
    scripts: Vec<Vec<Request, A>, A>,
    gate: &G,
) -> Result<Finished<H, A>, RunFault>
    requires scripts { CanBeRun config.now scripts.items }
    ensures run { MatchResult result
        (λ f. IsWholeRun H.hash_of config.now scripts.items f.settled f.verdicts.items)
        (λ fault. NotRunFor config.now scripts.items fault) }
{
    let (finished, _) = run_observed(rt, alloc, config, hash, scripts, gate, NoObserver)?;
    Ok(finished)
}

/// Runs a machine as [`run`] does, with an observer that is shown the machine's report after each round, at most 64 requests
/// after the one before. Each time that is the report of the replay of the whole journal so far, and the last time of the
/// whole run. The observer comes back with what it kept of them.
///
/// # Errors
///
/// Those of [`run`]. The observer is dropped then.
pub fn run_observed<
    R: Threads + Wait + Sync,
    H: PageHash + Drop,
    A: Allocator + Copy + Send + Sync,
    G: Gate + Sync,
    O: Observer,
>(
    rt: &R,
    alloc: A,
    config: &Config<A>,
    hash: H,
    scripts: Vec<Vec<Request, A>, A>,
    gate: &G,
    observer: O,
) -> Result<(Finished<H, A>, O), RunFault>
    requires scripts { CanBeRun config.now scripts.items }
    requires fresh { O.kept observer ≡ [] }
    ensures run { MatchResult result
        (λ (f, o). IsWholeRun H.hash_of config.now scripts.items f.settled f.verdicts.items)
        (λ fault. NotRunFor config.now scripts.items fault) }
    ensures observer { IfOk result (λ (f, o). ObservesRun O.name O.kept O.becomes H.hash_of observer o f.settled) }
{
    let checked = config.check()?;
    if !has_room(config.journal, &scripts) {
        return Err(RunFault::Stopped(JournalFull));
    }
    let (merger, ports) = open_checked_machine(alloc, &checked, hash)?;
    let requests = count_requests(&scripts);
    let tasks = new_tasks(alloc, ports, scripts)?;
    gate.starting(requests);
    run_tasks(rt, alloc, gate, merger, tasks, observer)
}

/// Runs the guests' tasks alongside their merger, and settles the machine.
fn run_tasks<
    R: Threads + Wait + Sync,
    H: PageHash + Drop,
    A: Allocator + Copy + Send + Sync,
    G: Gate + Sync,
    O: Observer,
>(
    rt: &R,
    alloc: A,
    gate: &G,
    merger: Merger<H, A>,
    tasks: Vec<Task<A>, A>,
    observer: O,
) -> Result<(Finished<H, A>, O), RunFault>
    requires ready { All IsReady tasks.items }
    requires pairs { task_names tasks.items ≡ end_names (ends_of merger) }
    requires unserved { journal_of merger ≡ [] }
    requires fronts { AreOfFronts H.hash_of (machine_of merger) (journal_of merger) (O.kept observer) }
    ensures settles { IfOk result
        (λ (f, o). Settles H.hash_of (settled_ports f.settled) (settled_journal f.settled) (settled_core f.settled)) }
    ensures machine { IfOk result (λ (f, o). opening (state_of (settled_core f.settled)) ≡ machine_of merger) }
    ensures capacities { IfOk result (λ (f, o). map closed_capacity (settled_ports f.settled) ≡ task_capacities tasks.items) }
    ensures sent { IfOk result (λ (f, o). map closed_sent (settled_ports f.settled) ≡ task_requests tasks.items) }
    ensures got { IfOk result (λ (f, o). map (λ list. list.items) f.verdicts.items ≡ map closed_got (settled_ports f.settled)) }
    ensures observer { IfOk result (λ (f, o). ObservesRun O.name O.kept O.becomes H.hash_of observer o f.settled) }
    ensures fault { IfErr result (λ fault. (fault ≡ OutOfMemory) ⊎ (fault ≡ NoThread)) }
{
    let guests = tasks.len();
    let lists = new_lists(alloc, guests)?;
    let Lists {
        handles,
        done,
        ports,
        verdicts,
    } = lists;
    let crew = Crew {
        tasks,
        handles,
        done,
    };
    let (merger, done, observer) = run_threads(rt, &alloc, gate, merger, crew, observer);
    if done.len() < guests {
        return Err(RunFault::NoThread);
    }
    Ok((finish(merger, done, ports, verdicts), observer))
}

/// Settles a machine whose guests have all ended. The two lists are empty, with room for each guest's part.
fn finish<H: PageHash, A: Allocator>(
    merger: Merger<H, A>,
    done: Vec<DoneTask<A>, A>,
    mut ports: Vec<ClosedPort<A>, A>,
    mut verdicts: Vec<Vec<Verdict, A>, A>,
) -> Finished<H, A>
    requires ports { (ports.items ≡ []) × (length done.items ≤ vec_capacity ports) }
    requires verdicts { (verdicts.items ≡ []) × (length done.items ≤ vec_capacity verdicts) }
    requires pairs { closed_names (ports_of done.items) ≡ end_names (ends_of merger) }
    requires ended { position is_running (ends_of merger) ≡ None }
    requires drained { position is_undrained (ports_of done.items) ≡ None }
    ensures settles { Settles H.hash_of (settled_ports result.settled) (settled_journal result.settled) (settled_core result.settled) }
    ensures core { settled_core result.settled ≡ core_of merger }
    ensures journal { settled_journal result.settled ≡ journal_of merger }
    ensures ports { closed_views (settled_ports result.settled) ≡ closed_views (ports_of done.items) }
    ensures verdicts { result.verdicts.items ≡ lists_of done.items }
{
    into_lists(done, &mut ports, &mut verdicts);
    match settle(merger, ports) {
        Ok(settled) => Finished { settled, verdicts },
        Err(_) => unreachable!(),
    }
}

/// Starts the guests' threads, serves those that could be started to their end, and joins them. The others are dropped.
fn run_threads<
    R: Threads + Wait + Sync,
    H: PageHash + Drop,
    A: Allocator + Send + Sync,
    G: Gate + Sync,
    O: Observer,
>(
    rt: &R,
    alloc: &A,
    gate: &G,
    merger: Merger<H, A>,
    crew: Crew<A>,
    observer: O,
) -> (Merger<H, A>, Vec<DoneTask<A>, A>, O)
    requires ready { CanRun crew.tasks.items merger crew.handles crew.done }
    requires fronts { AreOfFronts H.hash_of (machine_of merger) (journal_of merger) (O.kept observer) }
    ensures { HasRunObserved H.hash_of O.name O.kept O.becomes crew.tasks.items merger observer result.0 result.1.items result.2 }
{
    thread::scope(
        thread::scope_env(),
        rt,
        |scope| -> (Merger<H, A>, Vec<DoneTask<A>, A>, O)
            requires ready { CanRun crew.tasks.items merger crew.handles crew.done }
            requires fronts { AreOfFronts H.hash_of (machine_of merger) (journal_of merger) (O.kept observer) }
            ensures { HasRunObserved H.hash_of O.name O.kept O.becomes crew.tasks.items merger observer result.0 result.1.items result.2 }
        { run_in(scope, rt, alloc, gate, merger, crew, observer) },
    )
}

/// Does the same in a scope.
fn run_in<
    's,
    E,
    R: Threads + Wait + Sync,
    H: PageHash + Drop,
    A: Allocator + Send + Sync + 's,
    G: Gate + Sync,
    O: Observer,
>(
    scope: &Scope<'s, E>,
    rt: &'s R,
    alloc: &'s A,
    gate: &'s G,
    mut merger: Merger<H, A>,
    crew: Crew<A>,
    observer: O,
) -> (Merger<H, A>, Vec<DoneTask<A>, A>, O)
    requires ready { CanRun crew.tasks.items merger crew.handles crew.done }
    requires fronts { AreOfFronts H.hash_of (machine_of merger) (journal_of merger) (O.kept observer) }
    ensures { HasRunObserved H.hash_of O.name O.kept O.becomes crew.tasks.items merger observer result.0 result.1.items result.2 }
{
    let Crew {
        tasks,
        mut handles,
        mut done,
    } = crew;
    start_all(scope, rt, gate, tasks, &mut handles);
    let observer = serve_all(rt, alloc, &mut merger, handles.len() as u8, observer);
    join_all(rt, handles, &mut done);
    (merger, done, observer)
}
