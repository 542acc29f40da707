//! A whole run of a machine whose reports are shown to a viewer.
ghost use Rattle.std.specs.Prelude.{◌≡◌, [], IfOk, MatchResult};
ghost use Rattle.merge_core.specs.Shown.{state_of};
ghost use Rattle.merge_machine.specs.Machines.{opening};
ghost use Rattle.merge_settle.specs.View.{settled_journal, settled_core};
ghost use Rattle.watched_machine.specs.Lists.{published};
ghost use Rattle.merge_run.specs.Fronts.{AreOfFronts};
ghost use Rattle.merge_run.specs.Observed.{ObservesRun};
ghost use Rattle.merge_run.specs.Runs.{CanBeRun, IsWholeRun, NotRunFor};
ghost use Rattle.watched_machine.specs.View.{settled_in};

use crate::causes::find_cause;
use crate::finished::Finished;
use crate::lent_publisher::LentPublisher;
use crate::plan::Plan;
use crate::settled::Settled;
use crate::view::{end_view, view};
use crate::viewer::Viewer;
use crate::{Publisher, Watch};
use merge_machine::Config;
use merge_run::{Gate, Observer, RunFault, run_observed};
use page_digest::PageHash;
use page_model::Request;
use std::alloc::Allocator;
use std::sync::Wait;
use std::sync::atomic::AtomicU64;
use std::thread;
use std::thread::Threads;

/// Runs a machine to its end, as [`merge_run::run`] does: a thread for each guest sends its script and then a close, and takes
/// its verdicts, while the merger serves them on the calling thread. `gate` is called as it is there.
///
/// The merger publishes its report after every 4,096 requests, and when it has nothing to serve. A separate thread has a watch,
/// and shows the viewer what it reads, ten times a second; if that thread can't be started, the viewer is shown only the whole
/// run.
///
/// There is one script for each guest, guest 0's first, and no script holds a close.
///
/// # Errors
///
/// The first cause that holds, in the order of [`RunFault`]. All memory except that of a publish and of the viewer's thread is
/// taken before the first guest's thread is started, the publisher's first.
pub fn run<
    R: Threads + Wait + Sync,
    H: PageHash + Drop,
    A: Allocator + Copy + Send + Sync,
    G: Gate + Sync,
    V: Viewer + Sync,
>(
    rt: &R,
    alloc: A,
    config: &Config<A>,
    hash: H,
    scripts: Vec<Vec<Request, A>, A>,
    gate: &G,
    viewer: &V,
) -> Result<Finished<H, A>, RunFault>
    requires scripts { CanBeRun config.now scripts.items }
    ensures run { MatchResult result
        (λ f. IsWholeRun H.hash_of config.now scripts.items (settled_in f.settled) f.verdicts.items)
        (λ fault. NotRunFor config.now scripts.items fault) }
{
    let Ok(mut publisher) = Publisher::new(rt, alloc) else {
        return Err(find_cause(config, &scripts));
    };
    let plan = Plan {
        config,
        hash,
        scripts,
        gate,
    };
    match run_published(rt, alloc, plan, viewer, &mut publisher) {
        Ok(finished) => {
            let merge_run::Finished { settled, verdicts } = finished;
            viewer.show(&settled.report());
            let settled = Settled { settled, publisher };
            Ok(Finished { settled, verdicts })
        }
        Err(fault) => {
            publisher.end(rt);
            Err(fault)
        }
    }
}

/// Runs a machine that publishes its reports with `publisher`.
fn run_published<
    R: Threads + Wait + Sync,
    H: PageHash + Drop,
    A: Allocator + Copy + Send + Sync,
    G: Gate + Sync,
    V: Viewer + Sync,
>(
    rt: &R,
    alloc: A,
    plan: Plan<'_, H, A, G>,
    viewer: &V,
    publisher: &mut Publisher<A>,
) -> Result<merge_run::Finished<H, A>, RunFault>
    requires scripts { CanBeRun plan.config.now plan.scripts.items }
    requires fresh { published publisher.old ≡ [] }
    ensures run { MatchResult result
        (λ f. IsWholeRun H.hash_of plan.entry.config.now plan.entry.scripts.items f.settled f.verdicts.items)
        (λ fault. NotRunFor plan.entry.config.now plan.entry.scripts.items fault) }
    ensures fronts { IfOk result
        (λ f. AreOfFronts H.hash_of (opening (state_of (settled_core f.settled))) (settled_journal f.settled) (published publisher.new)) }
{
    let watch = publisher.watch().ok();
    let lent = LentPublisher {
        publisher,
        unpublished: 0,
    };
    let (finished, lent) = run_viewed(rt, alloc, plan, viewer, watch, lent)?;
    let LentPublisher {
        publisher,
        unpublished: _,
    } = lent;
    take_back(publisher);
    Ok(finished)
}

/// Runs a machine with this observer, while another thread shows the viewer what the watch reads.
fn run_viewed<
    R: Threads + Wait + Sync,
    H: PageHash + Drop,
    A: Allocator + Copy + Send + Sync,
    G: Gate + Sync,
    V: Viewer + Sync,
    O: Observer,
>(
    rt: &R,
    alloc: A,
    plan: Plan<'_, H, A, G>,
    viewer: &V,
    watch: Option<Watch<A>>,
    observer: O,
) -> Result<(merge_run::Finished<H, A>, O), RunFault>
    requires scripts { CanBeRun plan.config.now plan.scripts.items }
    requires fresh { O.kept observer ≡ [] }
    ensures run { MatchResult result
        (λ (f, o). IsWholeRun H.hash_of plan.entry.config.now plan.entry.scripts.items f.settled f.verdicts.items)
        (λ fault. NotRunFor plan.entry.config.now plan.entry.scripts.items fault) }
    ensures observer { IfOk result (λ (f, o). ObservesRun O.name O.kept O.becomes H.hash_of observer o f.settled) }
{
    let Plan {
        config,
        hash,
        scripts,
        gate,
    } = plan;
    let over = AtomicU64::new(0);
    let over = &over;
    let shows = move || view(rt, viewer, watch, over);
    let runs = move || -> Result<(merge_run::Finished<H, A>, O), RunFault>
        requires scripts { CanBeRun config.now scripts.items }
        requires fresh { O.kept observer ≡ [] }
        ensures run { MatchResult result
            (λ (f, o). IsWholeRun H.hash_of config.entry.now scripts.items f.settled f.verdicts.items)
            (λ fault. NotRunFor config.entry.now scripts.items fault) }
        ensures observer { IfOk result (λ (f, o). ObservesRun O.name O.kept O.becomes H.hash_of observer o f.settled) }
    {
        let answer = run_observed(rt, alloc, config, hash, scripts, gate, observer);
        end_view(over);
        answer
    };
    let (_, answer) = thread::join(rt, shows, runs);
    answer
}

/// The loan ends: nothing changes.
fn take_back<T>(lent: &mut T)
    ensures { lent.new ≡ lent.old }
{}
