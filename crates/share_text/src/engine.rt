//! The engine that runs a script, with a thread for each guest.
ghost use Rattle.std.specs.Prelude.{◌≡◌, false, MatchResult};
ghost use Rattle.merge_run.specs.Runs.{CanBeRun, IsWholeRun, NotRunFor};
ghost use Rattle.journal_replay.specs.Ends.{has_read_fault, has_write_fault};
ghost use Rattle.script_text.specs.Views.{script_seen};
ghost use Rattle.share_text.specs.Faults.{AsThreaded};
ghost use Rattle.share_text.specs.Threads as threads;
ghost use Rattle.share_text.specs.Threads.{EndsAs, IsLeft, NeitherFailed, RunsText, Serves, as_written, no_thread_text, of_text};

use crate::fault::TextFault;
use crate::form::Output;
use crate::printing::print_run;
use crate::threaded_fault::ThreadedFault;
use journal_replay::ends::{read_all, write_all};
use journal_replay::engine::print_fault;
use journal_replay::{Sink, Source};
use merge_machine::Config;
use merge_run::{Finished, Gate, RunFault, run};
use page_digest::PageHash;
use page_model::{Report, Request};
use script_text::{Script, read_script};
use std::alloc::Allocator;
use std::sync::Wait;
use std::thread::Threads;
use watched_machine::Viewer;

/// Returns the answer of work in which no run was refused.
fn of_text(answer: Result<(), text_words::TextFault>) -> Result<(), ThreadedFault>
    ensures answer { result ≡ of_text answer }
    ensures written { as_written result ≡ answer }
{
    match answer {
        Ok(()) => Ok(()),
        Err(fault) => Err(ThreadedFault::Text(fault)),
    }
}

/// Writes the line of a run that was refused for lack of a thread, and returns that fault.
fn print_no_thread<W: Sink>(writer: &mut W) -> Result<(), ThreadedFault>
    requires fine { W.has_failed writer.old ≡ false }
    ensures ends { EndsAs threads.NoThread no_thread_text (W.contents writer.old) (W.contents writer.new) result }
    ensures reader { has_read_fault (as_written result) ≡ false }
    ensures writer { W.has_failed writer.new ≡ has_write_fault (as_written result) }
{
    match write_all(writer, "fault run: no-thread\n".as_bytes()) {
        Ok(()) => Err(ThreadedFault::NoThread),
        Err(fault) => Err(ThreadedFault::Text(fault)),
    }
}

/// Returns why the run of a script that was read was refused. If it was for lack of a thread, writes the line of that fault.
fn print_refusal<W: Sink>(writer: &mut W, fault: RunFault) -> Result<(), ThreadedFault>
    requires left { IsLeft fault }
    requires fine { W.has_failed writer.old ≡ false }
    ensures ends { EndsAs threads.NoThread no_thread_text (W.contents writer.old) (W.contents writer.new) result }
    ensures reader { has_read_fault (as_written result) ≡ false }
    ensures writer { W.has_failed writer.new ≡ has_write_fault (as_written result) }
{
    match fault {
        RunFault::NoThread => print_no_thread(writer),
        RunFault::OutOfMemory => Err(ThreadedFault::Text(text_words::TextFault::OutOfMemory)),
        RunFault::Frames => unreachable!(),
        RunFault::Guests => unreachable!(),
        RunFault::Pages => unreachable!(),
        RunFault::Ring => unreachable!(),
        RunFault::Journal => unreachable!(),
        RunFault::Stopped(_) => unreachable!(),
    }
}

/// A viewer that never exists.
struct Nobody;

impl Viewer for Nobody {
    fn show(&self, _report: &Report) {}
}

/// Who looks on at a run: the gate that its threads call, and the viewer, if there is one.
#[derive(Drop)]
struct Onlookers<'o, G, V> {
    gate: &'o G,
    viewer: Option<&'o V>,
}

/// Runs a machine to its end. If there is a viewer, it is shown the reports as they are published.
fn run_machine<
    T: Threads + Wait + Sync,
    H: PageHash + Drop,
    A: Allocator + Copy + Send + Sync,
    G: Gate + Sync,
    V: Viewer + Sync,
>(
    rt: &T,
    alloc: A,
    config: &Config<A>,
    hash: H,
    scripts: Vec<Vec<Request, A>, A>,
    onlookers: Onlookers<'_, G, V>,
) -> Result<Finished<H, A>, RunFault>
    requires scripts { CanBeRun config.now scripts.items }
    ensures run { MatchResult result (λ f. IsWholeRun H.hash_of config.now scripts.items f.settled f.verdicts.items)
        (λ fault. NotRunFor config.now scripts.items fault) }
{
    let Onlookers { gate, viewer } = onlookers;
    let Some(viewer) = viewer else {
        return run(rt, alloc, config, hash, scripts, gate);
    };
    match watched_machine::run(rt, alloc, config, hash, scripts, gate, viewer) {
        Ok(finished) => Ok(finished.unwatched(rt)),
        Err(fault) => Err(fault),
    }
}

/// Runs a script, and writes the output of the run, or the line of its fault. The machine is dropped here.
fn run_script<
    T: Threads + Wait + Sync,
    W: Sink,
    H: PageHash + Drop,
    A: Allocator + Copy + Send + Sync,
    G: Gate + Sync,
    V: Viewer + Sync,
>(
    rt: &T,
    alloc: A,
    script: Script<A>,
    writer: &mut W,
    hash: H,
    onlookers: Onlookers<'_, G, V>,
    form: Output,
) -> Result<(), ThreadedFault>
    requires fine { W.has_failed writer.old ≡ false }
    ensures serves { Serves H.hash_of form (script_seen script) (W.contents writer.old) (W.contents writer.new) result }
    ensures reader { has_read_fault (as_written result) ≡ false }
    ensures writer { W.has_failed writer.new ≡ has_write_fault (as_written result) }
{
    let Script { config, scripts } = script;
    match run_machine(rt, alloc, &config, hash, scripts, onlookers) {
        Ok(finished) => of_text(print_run(alloc, form, &config, &finished, writer)),
        Err(fault) => print_refusal(writer, fault),
    }
}

/// Reads a script and runs it.
fn read_and_run<
    T: Threads + Wait + Sync,
    R: Source,
    W: Sink,
    H: PageHash + Drop,
    A: Allocator + Copy + Send + Sync,
    G: Gate + Sync,
    V: Viewer + Sync,
>(
    rt: &T,
    alloc: A,
    reader: &mut R,
    writer: &mut W,
    hash: H,
    onlookers: Onlookers<'_, G, V>,
    form: Output,
) -> Result<(), ThreadedFault>
    requires { NeitherFailed (R.has_failed reader.old) (W.has_failed writer.old) }
    ensures { RunsText H.hash_of form (R.remaining reader.old) (W.contents writer.old) (W.contents writer.new) (R.has_failed reader.new)
        (W.has_failed writer.new) result }
{
    let text = match read_all(alloc, reader) {
        Ok(text) => text,
        Err(fault) => return Err(ThreadedFault::Text(fault)),
    };
    match read_script(alloc, &text) {
        Ok(script) => run_script(rt, alloc, script, writer, hash, onlookers, form),
        Err(fault) => of_text(print_fault(alloc, writer, fault)),
    }
}

/// Reads a script, runs it with a thread for each guest, and writes what `form` names. That is each guest's verdict lines in the
/// order in which it got them, guest 0's first, and then the report line. Or it is the text of the run's journal.
///
/// The journal of a run depends on the threads; in every journal the entries are of the script's guests, and each guest asks
/// for what its script says and then closes. `gate` is called in the guests' threads, around each send and verdict, and on the
/// calling thread before the first of them is started.
///
/// # Errors
///
/// If the text is at fault, only the line of the fault is written, and the fault is returned. The same goes for `Run(NoThread)`,
/// if the start of a guest's thread is refused. On `OutOfMemory`, `Read` and `Long` nothing was written, and on `Write` a front
/// of the output went out. `Read` is returned exactly if the reader failed, and `Write` exactly if the writer did.
#[tactic(auto, unfolding(crate::specs::Faults::plain))]
pub fn threaded<
    T: Threads + Wait + Sync,
    R: Source,
    W: Sink,
    H: PageHash + Drop,
    A: Allocator + Copy + Send + Sync,
    G: Gate + Sync,
>(
    rt: &T,
    alloc: A,
    reader: &mut R,
    writer: &mut W,
    hash: H,
    gate: &G,
    form: Output,
) -> Result<(), TextFault>
    requires { NeitherFailed (R.has_failed reader.old) (W.has_failed writer.old) }
    ensures { AsThreaded result (λ r. RunsText H.hash_of form (R.remaining reader.old) (W.contents writer.old) (W.contents writer.new)
        (R.has_failed reader.new) (W.has_failed writer.new) r) }
{
    let onlookers: Onlookers<'_, G, Nobody> = Onlookers { gate, viewer: None };
    match read_and_run(rt, alloc, reader, writer, hash, onlookers, form) {
        Ok(()) => Ok(()),
        Err(ThreadedFault::Text(fault)) => Err(TextFault::from(fault)),
        Err(ThreadedFault::NoThread) => Err(TextFault::Run(RunFault::NoThread)),
    }
}

/// Does the same as [`threaded`], while its gate is also a viewer, which is shown how the run goes on, in a separate thread.
/// Nothing that is written depends on it.
#[tactic(auto, unfolding(crate::specs::Faults::plain))]
pub fn threaded_viewed<
    T: Threads + Wait + Sync,
    R: Source,
    W: Sink,
    H: PageHash + Drop,
    A: Allocator + Copy + Send + Sync,
    V: Gate + Viewer + Sync,
>(
    rt: &T,
    alloc: A,
    reader: &mut R,
    writer: &mut W,
    hash: H,
    viewer: &V,
    form: Output,
) -> Result<(), TextFault>
    requires { NeitherFailed (R.has_failed reader.old) (W.has_failed writer.old) }
    ensures { AsThreaded result (λ r. RunsText H.hash_of form (R.remaining reader.old) (W.contents writer.old) (W.contents writer.new)
        (R.has_failed reader.new) (W.has_failed writer.new) r) }
{
    let onlookers = Onlookers {
        gate: viewer,
        viewer: Some(viewer),
    };
    match read_and_run(rt, alloc, reader, writer, hash, onlookers, form) {
        Ok(()) => Ok(()),
        Err(ThreadedFault::Text(fault)) => Err(TextFault::from(fault)),
        Err(ThreadedFault::NoThread) => Err(TextFault::Run(RunFault::NoThread)),
    }
}
