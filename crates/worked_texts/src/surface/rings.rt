//! `share_rings`: a pair of rings, and scans.
ghost use Rattle.std.specs.Prelude.{◌≡◌, length};
ghost use Rattle.share_rings.specs.Ends.{closed_name, port_name, end_name, end_taken, end_given};

use crate::checks::{equal, holds};
use page_model::{Request, Verdict};
use share_rings::{ClosedPort, Meeting, MergerEnd, Port, Scan, SendFault, meet, ring_pair};
use std::process::Abort;

/// Sends a request by each call of a port, whose rings hold six items, and gets no verdict yet.
fn send_all(rt: &impl Abort, port: &mut Port)
    ensures { port_name port.new ≡ port_name port.old }
{
    holds(rt, port.send(Request::Count) == Ok(()));
    holds(rt, port.propose(0) == Ok(()));
    holds(rt, port.store(0, 4_096, &[0x41]) == Err(SendFault::Crosses));
    holds(rt, port.load(0, 0, 0) == Err(SendFault::Length));
    holds(rt, port.release(0) == Ok(()));
    holds(rt, port.count() == Ok(()));
    holds(rt, port.verdict().is_none());
}

/// Takes a request and answers it.
fn serve(rt: &impl Abort, end: &mut MergerEnd)
    requires { length (end_given end.old) ≡ length (end_taken end.old) }
    ensures pair { end_name end.new ≡ end_name end.old }
    ensures answered { length (end_given end.new) ≡ length (end_taken end.new) }
{
    holds(rt, !end.ended());
    if end.free() == 0 {
        return;
    }
    match end.take() {
        None => {}
        Some(Request::Close) => end.give(Verdict::Closed),
        Some(Request::Count) => end.give(Verdict::NoPage),
        Some(Request::Propose(_)) => end.give(Verdict::NoPage),
        Some(Request::Store(_)) => end.give(Verdict::NoPage),
        Some(Request::Load(_)) => end.give(Verdict::NoPage),
        Some(Request::Release(_)) => end.give(Verdict::NoPage),
    }
}

/// Serves five requests.
fn serve_five(rt: &impl Abort, end: &mut MergerEnd)
    requires { length (end_given end.old) ≡ length (end_taken end.old) }
    ensures { end_name end.new ≡ end_name end.old }
{
    for _ in 0..5 {
        serve(rt, end);
    }
}

/// Gets four verdicts.
fn get_four(rt: &impl Abort, port: &mut ClosedPort)
    ensures { closed_name port.new ≡ closed_name port.old }
{
    for _ in 0..4 {
        holds(rt, port.verdict() == Some(Verdict::NoPage));
    }
}

#[test]
fn a_pair(rt: HostRuntime) {
    let (mut port, mut end) = ring_pair(rt.alloc(), 6).expect(&rt, "memory");
    send_all(&rt, &mut port);
    let mut port = port.close().ok().expect(&rt, "busy");
    serve_five(&rt, &mut end);
    get_four(&rt, &mut port);
    holds(&rt, meet(&mut port, &mut end) == Meeting::Undrained);
    holds(&rt, port.verdict() == Some(Verdict::Closed));
    holds(&rt, port.drained());
    holds(&rt, meet(&mut port, &mut end) == Meeting::Met);
}

#[test]
fn scans(rt: HostRuntime) {
    let (mut first, mut second) = (Scan::sequential(3), Scan::random(0, 3));
    equal(&rt, (first.next(), first.next()), (0, 1));
    holds(&rt, second.next() < 3);
}
