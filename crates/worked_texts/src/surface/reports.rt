//! `watched_machine`: a machine whose reports are published.
ghost use Rattle.std.specs.Prelude.{◌≡◌, ◌<◌, ◌∷◌, [], IfOk, IfSome};
ghost use Rattle.page_model.specs.Limits.{shapes};
ghost use Rattle.page_model.specs.Replay.{empty_state};
ghost use Rattle.share_rings.specs.Ends.{closed_name, port_name};
ghost use Rattle.merge_run.specs.View.{closed_names, end_names, ends_of, guest_count, memory_of, port_names};
ghost use Rattle.watched_machine.specs.Lists.{publisher_id, told_id, watch_id};
ghost use Rattle.watched_machine.specs.View.{merger_in, publisher_in};

use crate::checks::holds;
use crate::surface::machines::{list_of, one_guest, only};
use std::alloc::Global;
use std::process::Abort;
use std::sync::Wait;
use std::thread::Threads;
use watched_machine::{
    ClosedPort, Fault, Machine, Merger, Port, Report, Settled, Sha256Hash, Step, Unsettled, Watch,
    settle,
};

fn new_machine<R: Wait>(rt: &R, alloc: Global) -> Result<(Merger<Sha256Hash>, Vec<Port>), Fault>
    ensures pairs { IfOk result (λ (merger, ports). port_names ports.items ≡ end_names (ends_of (merger_in merger))) }
    ensures guests { IfOk result (λ (merger, _). guest_count (merger_in merger) ≡ 1) }
    ensures memory { IfOk result (λ (merger, _). memory_of (merger_in merger) ≡ empty_state 1 (shapes (0 ∷ []) (1 ∷ []))) }
{
    let config = one_guest(alloc)?;
    Machine::new(rt, alloc, &config, Sha256Hash)
}

/// Returns the first byte of the page of a new machine.
fn first_byte(merger: &Merger<Sha256Hash>) -> u8
    requires { memory_of (merger_in merger.now) ≡ empty_state 1 (shapes (0 ∷ []) (1 ∷ [])) }
{
    merger.read(0, 0, 0)
}

/// Publishes, and lets the watch learn it. Returns what it reads before and after.
fn publish<R: Wait + Abort>(
    rt: &R,
    merger: &mut Merger<Sha256Hash>,
    watch: &mut Watch,
) -> (Option<Report>, Option<Report>)
    requires { watch_id watch.old ≡ publisher_id (publisher_in merger.old) }
    ensures { merger_in merger.new ≡ merger_in merger.old }
{
    let before = watch.read();
    watch.learn(merger.tell());
    let told = merger.publish(rt).expect(rt, "memory");
    watch.learn(told);
    (before, watch.read())
}

/// Serves a store by a step and a close by a round, and publishes both.
fn serve<R: Threads + Wait + Sync + Abort>(
    rt: &R,
    alloc: Global,
    merger: &mut Merger<Sha256Hash>,
    port: Port,
) -> ClosedPort
    requires { 0 < guest_count (merger_in merger.old) }
    ensures merger { end_names (ends_of (merger_in merger.new)) ≡ end_names (ends_of (merger_in merger.old)) }
    ensures port { closed_name result ≡ port_name port }
    ensures reports { publisher_id (publisher_in merger.new) ≡ publisher_id (publisher_in merger.old) }
{
    let mut port = port;
    holds(rt, port.store(0, 0, &[0x41]).is_ok());
    holds(rt, merger.step(0) == Ok(Step::Done));
    let Ok(mut closed) = port.close() else {
        panic!(rt; "busy");
    };
    holds(rt, merger.round(rt, alloc, 2, 64) == Ok(1));
    holds(rt, closed.verdict().is_some());
    holds(rt, closed.verdict().is_some());
    holds(rt, merger.journal().len() == 2);
    holds(rt, merger.report().entries() == 2);
    closed
}

/// Checks what a settled machine shows of its guest.
fn look(rt: &impl Abort, settled: &Settled<Sha256Hash>) {
    let core = settled.core();
    holds(rt, core.guests() == 1);
    holds(rt, core.pages(0) > 0);
    holds(rt, settled.read(0, 0, 0) == 0x41);
    holds(rt, settled.port(0).drained());
}

/// Ends a settled machine, which still tells what was published.
fn end_settled<R: Wait + Abort>(rt: &R, settled: Settled<Sha256Hash>) {
    let mut settled = settled;
    let mut watch = settled.watch().expect(rt, "a watch");
    watch.learn(settled.tell());
    holds(rt, watch.read() == Some(settled.report()));
    holds(rt, settled.journal().len() == 2);
    holds(rt, settled.core().entries() == 2);
    look(rt, &settled);
    settled.end(rt);
    holds(rt, watch.read().is_none());
}

/// Settles a machine, and ends it.
fn end<R: Wait + Abort>(rt: &R, merger: Merger<Sha256Hash>, ports: Vec<ClosedPort>)
    requires { closed_names ports.items ≡ end_names (ends_of (merger_in merger)) }
{
    match settle(merger, ports) {
        Ok(settled) => end_settled(rt, settled),
        Err(unsettled) => {
            let Unsettled { merger, .. } = unsettled;
            merger.end(rt);
            panic!(rt; "not settled");
        }
    }
}

#[test]
fn a_watched_machine(rt: HostRuntime) {
    let Ok((mut merger, ports)) = new_machine(&rt, rt.alloc()) else {
        panic!(rt; "no machine");
    };
    holds(&rt, first_byte(&merger) == 0);
    let port = only(ports).expect(&rt, "one port");
    let mut watch = merger.watch().expect(&rt, "a watch");
    let closed = serve(&rt, rt.alloc(), &mut merger, port);
    let (before, after) = publish(&rt, &mut merger, &mut watch);
    end(
        &rt,
        merger,
        list_of(rt.alloc(), closed).expect(&rt, "memory"),
    );
    holds(&rt, before == Some(Report::new(0, 0, 0, 0, 0)));
    holds(&rt, after == Some(Report::new(2, 1, 0, 1, 0)));
}
