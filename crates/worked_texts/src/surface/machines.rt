//! `merge_run`: a machine of one guest on one thread, from its first request to its settling.
ghost use Rattle.std.specs.Prelude.{◌≡◌, ◌<◌, ◌∷◌, [], IfOk, IfSome, length};
ghost use Rattle.share_rings.specs.Ends.{closed_name, port_name};
ghost use Rattle.merge_run.specs.View.{closed_names, end_names, ends_of, guest_count, port_names};

use crate::checks::holds;
use merge_run::{Config, Fault, Machine, Merger, Settled, Step, settle};
use page_digest::Sha256Hash;
use page_model::Verdict;
use share_rings::{ClosedPort, Port};
use std::alloc::{AllocError, Global};
use std::process::Abort;
use std::sync::Wait;
use std::thread::Threads;

/// A machine of one guest with one page.
pub fn one_guest(alloc: Global) -> Result<Config, AllocError>
    ensures guests { IfOk result (λ config. length config.pages.items ≡ 1) }
    ensures frames { IfOk result (λ config. config.frames ≡ 1) }
    ensures pages { IfOk result (λ config. config.pages.items ≡ 1 ∷ []) }
    ensures salts { IfOk result (λ config. config.salts.items ≡ 0 ∷ []) }
{
    Ok(Config {
        frames: 1,
        pages: Vec::from_slice(alloc, &[1])?,
        salts: Vec::from_slice(alloc, &[0])?,
        ring: 4,
        journal: 8,
    })
}

/// Returns the only port.
pub fn only(ports: Vec<Port>) -> Option<Port>
    ensures { IfSome result (λ port. ports.items ≡ port ∷ []) }
{
    let mut ports = ports;
    let port = ports.pop()?;
    if !ports.is_empty() {
        return None;
    }
    Some(port)
}

/// Returns the list of one closed port.
pub fn list_of(alloc: Global, port: ClosedPort) -> Result<Vec<ClosedPort>, AllocError>
    ensures { IfOk result (λ ports. ports.items ≡ port ∷ []) }
{
    let mut ports = Vec::with_capacity(alloc, 1)?;
    ports.push_reserved(port);
    Ok(ports)
}

fn new_machine(alloc: Global) -> Result<(Merger<Sha256Hash>, Vec<Port>), Fault>
    ensures pairs { IfOk result (λ (merger, ports). port_names ports.items ≡ end_names (ends_of merger)) }
    ensures guests { IfOk result (λ (merger, _). guest_count merger ≡ 1) }
{
    let config = one_guest(alloc)?;
    Machine::new(alloc, &config, Sha256Hash)
}

/// Serves a store by a step, and a close by a round. Returns the closed port.
fn serve<R: Threads + Wait + Sync + Abort>(
    rt: &R,
    alloc: Global,
    merger: &mut Merger<Sha256Hash>,
    port: Port,
) -> Option<ClosedPort>
    requires { 0 < guest_count merger.old }
    ensures merger { end_names (ends_of merger.new) ≡ end_names (ends_of merger.old) }
    ensures port { IfSome result (λ closed. closed_name closed ≡ port_name port) }
{
    let mut port = port;
    holds(rt, port.store(0, 0, &[0x41]).is_ok());
    holds(rt, merger.step(0) == Ok(Step::Done));
    holds(rt, port.verdict() == Some(Verdict::Mapped));
    let mut closed = port.close().ok()?;
    holds(rt, merger.round(rt, alloc, 2, 64) == Ok(1));
    holds(rt, closed.verdict() == Some(Verdict::Closed));
    Some(closed)
}

/// Returns the first byte of page 0 of guest 0.
fn first_byte(rt: &impl Abort, merger: &Merger<Sha256Hash>) -> u8 {
    let core = merger.core();
    holds(rt, core.guests() > 0);
    holds(rt, core.pages(0) > 0);
    merger.read(0, 0, 0)
}

/// Checks what a settled machine shows.
fn look(rt: &impl Abort, settled: &Settled<Sha256Hash>) {
    let core = settled.core();
    holds(rt, core.guests() == 1);
    holds(rt, core.pages(0) > 0);
    holds(rt, settled.read(0, 0, 0) == 0x41);
    holds(rt, settled.port(0).drained());
    holds(rt, settled.journal().len() == 2);
    holds(rt, settled.report().mapped() == 1);
}

#[test]
fn a_machine(rt: HostRuntime) {
    let (mut merger, ports) = new_machine(rt.alloc()).expect(&rt, "memory");
    let port = only(ports).expect(&rt, "not one port");
    let port = serve(&rt, rt.alloc(), &mut merger, port).expect(&rt, "busy");
    holds(&rt, first_byte(&rt, &merger) == 0x41);
    holds(&rt, merger.journal().len() == 2);
    holds(&rt, merger.report().entries() == 2);
    match settle(merger, list_of(rt.alloc(), port).expect(&rt, "memory")) {
        Ok(settled) => look(&rt, &settled),
        Err(_) => panic!(rt; "not settled"),
    }
}
