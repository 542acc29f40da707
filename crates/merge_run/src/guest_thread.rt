//! What a guest's thread does.
ghost use Rattle.std.specs.Prelude.{◌≡◌, true, false, [], ◌∷◌, ◌++◌};
ghost use Rattle.page_model.specs.declared.request.Request.TheVariants.{Close};
ghost use Rattle.share_rings.specs.Closing.{is_close, last_closed};
ghost use Rattle.share_rings.specs.Ends.{port_sent, port_got, port_name, port_capacity};
ghost use Rattle.share_rings.specs.Ends.{closed_sent, closed_got, closed_name, closed_capacity};
ghost use Rattle.merge_run.specs.Tasks.{IsReady, IsDone};

use crate::gate::Gate;
use crate::inbox::Inbox;
use crate::patience::Patience;
use crate::task::{DoneTask, Task};
use page_model::Request;
use share_rings::{ClosedPort, Port};
use std::alloc::Allocator;
use std::sync::Wait;

/// How long a guest sleeps after waiting without success, in microseconds: about as long as the merger takes for a round.
const NAP: u64 = 100;

/// The number of guests up to which each has a processor, or nearly so. So few guests keep looking for longer than a round
/// of hashes takes, since a guest that sleeps then leaves the merger without work; more guests would take the merger's
/// processor.
const FEW: usize = 4;

/// Returns how many failed looks a verdict offsets, and how many a guest may make in a row before it sleeps.
fn looks(guests: usize) -> (u32, u32) {
    if guests <= FEW {
        (96, 8_000)
    } else {
        (32, 2_000)
    }
}

/// Sends the script and then a close, and takes the verdicts up to `Closed`, as one of `guests` guests.
pub(crate) fn do_task<R: Wait, A: Allocator, G: Gate>(
    rt: &R,
    gate: &G,
    task: Task<A>,
    guests: usize,
) -> DoneTask<A>
    requires { IsReady task }
    ensures { IsDone task result }
{
    let (looks, most_looks) = looks(guests);
    let Task {
        guest,
        mut port,
        script,
        verdicts,
    } = task;
    let mut inbox = Inbox {
        gate,
        guest,
        most: script.len() + 1,
        verdicts,
        patience: Patience::new(most_looks, NAP),
        looks,
    };
    let mut nth = 0;
    for request in script {
        gate.before(guest, nth);
        send(rt, &mut port, &mut inbox, request);
        nth += 1;
    }
    gate.before(guest, nth);
    let mut port = close(rt, port, &mut inbox);
    drain(rt, &mut port, &mut inbox);
    DoneTask {
        port,
        verdicts: inbox.verdicts,
    }
}

/// Sends a request. While the ring is full, it takes verdicts, or waits if none is seen.
fn send<R: Wait, A: Allocator, G: Gate>(
    rt: &R,
    port: &mut Port<A>,
    inbox: &mut Inbox<'_, A, G>,
    request: Request,
)
    requires request { is_close request ≡ false }
    requires got { inbox.old.verdicts.items ≡ port_got port.old }
    ensures sent { port_sent port.new ≡ port_sent port.old ++ request ∷ [] }
    ensures got { inbox.new.verdicts.items ≡ port_got port.new }
    ensures name { port_name port.new ≡ port_name port.old }
    ensures capacity { port_capacity port.new ≡ port_capacity port.old }
{
    let mut request = request;
    for _ in rt.forever() {
        match port.send(request) {
            Ok(()) => return,
            Err((back, _)) => request = back,
        }
        if !collect(port, inbox) {
            inbox.patience.wait(rt);
        }
    }
    unreachable!()
}

/// Sends the close in the same way.
fn close<R: Wait, A: Allocator, G: Gate>(
    rt: &R,
    port: Port<A>,
    inbox: &mut Inbox<'_, A, G>,
) -> ClosedPort<A>
    requires got { inbox.old.verdicts.items ≡ port_got port }
    ensures sent { closed_sent result ≡ port_sent port ++ Close ∷ [] }
    ensures got { inbox.new.verdicts.items ≡ closed_got result }
    ensures name { closed_name result ≡ port_name port }
    ensures capacity { closed_capacity result ≡ port_capacity port }
{
    let mut port = port;
    for _ in rt.forever() {
        match port.close() {
            Ok(closed) => return closed,
            Err(back) => port = back,
        }
        if !collect(&mut port, inbox) {
            inbox.patience.wait(rt);
        }
    }
    unreachable!()
}

/// Takes the verdicts up to `Closed`, and waits whenever none is seen.
fn drain<R: Wait, A: Allocator, G: Gate>(
    rt: &R,
    port: &mut ClosedPort<A>,
    inbox: &mut Inbox<'_, A, G>,
)
    requires { inbox.old.verdicts.items ≡ closed_got port.old }
    ensures sent { closed_sent port.new ≡ closed_sent port.old }
    ensures got { inbox.new.verdicts.items ≡ closed_got port.new }
    ensures drained { last_closed (closed_got port.new) ≡ true }
    ensures name { closed_name port.new ≡ closed_name port.old }
    ensures capacity { closed_capacity port.new ≡ closed_capacity port.old }
{
    for _ in rt.forever() {
        if port.drained() {
            return;
        }
        if !collect_closed(port, inbox) {
            inbox.patience.wait(rt);
        }
    }
    unreachable!()
}

/// Takes a verdict, if one is seen, and returns whether it did.
fn collect<A: Allocator, G: Gate>(port: &mut Port<A>, inbox: &mut Inbox<'_, A, G>) -> bool
    requires { inbox.old.verdicts.items ≡ port_got port.old }
    ensures sent { port_sent port.new ≡ port_sent port.old }
    ensures got { inbox.new.verdicts.items ≡ port_got port.new }
    ensures name { port_name port.new ≡ port_name port.old }
    ensures capacity { port_capacity port.new ≡ port_capacity port.old }
{
    if !inbox.has_room() {
        return false;
    }
    let Some(verdict) = port.verdict() else {
        return false;
    };
    inbox.keep(verdict);
    true
}

/// Does the same after the close.
fn collect_closed<A: Allocator, G: Gate>(
    port: &mut ClosedPort<A>,
    inbox: &mut Inbox<'_, A, G>,
) -> bool
    requires { inbox.old.verdicts.items ≡ closed_got port.old }
    ensures sent { closed_sent port.new ≡ closed_sent port.old }
    ensures got { inbox.new.verdicts.items ≡ closed_got port.new }
    ensures name { closed_name port.new ≡ closed_name port.old }
    ensures capacity { closed_capacity port.new ≡ closed_capacity port.old }
{
    if !inbox.has_room() {
        return false;
    }
    let Some(verdict) = port.verdict() else {
        return false;
    };
    inbox.keep(verdict);
    true
}
