//! Requests to the machine behind a handle.
ghost use Rattle.std.specs.Prelude.{◌≡◌, ◌+◌, ◌<◌, ◌≤◌, length, None, Ok, Err, IfOk, MatchResult};
ghost use Rattle.merge_core.specs.Applying.{Applies};
ghost use Rattle.merge_core.specs.Shown.{state_of};
ghost use Rattle.merge_core.specs.declared.counting.TheConstants.{MAX_REQUESTS};
ghost use Rattle.pageshare_c.specs.Access.{store_of, load_of};
ghost use Rattle.pageshare_c.specs.Framed.{named_frame, own_frame, asked_frame, freed_at, freed_by};
ghost use Rattle.pageshare_c.specs.Kept.{CoreKeeps, FramesKept};
ghost use Rattle.pageshare_c.specs.Outcomes.{refusal_for, accepted, answered, answered_state, outcome, state_after, seen};
ghost use Rattle.pageshare_c.specs.Gets.{answer_of, answer_to, counted, loaded, overlaid};

use crate::answer::{Answer, Refusal, Totals, answer_of, refuse, totals_of};
use crate::framed::{find_named, find_own, freed_at};
use crate::machine::Machine;
use c_surface::Handle;
use merge_core::{Core, MAX_REQUESTS};
use page_digest::PageHash;
use page_model::{Request, RequestFault, Verdict};
use std::alloc::Global;

/// Makes a store's request.
#[tactic(auto, using(crate::proofs::Accesses::access_is))]
pub(crate) fn store_request(ppn: u32, at: u32, bytes: &[u8]) -> Result<Request, RequestFault>
    ensures { result ≡ store_of ppn at bytes.now }
{
    Request::store(ppn, at, bytes)
}

/// Makes a load's request. A length above 64 is refused, however large it is.
#[tactic(auto, using(crate::proofs::Accesses::access_is, crate::proofs::Accesses::access_long))]
pub(crate) fn load_request(ppn: u32, at: u32, len: usize) -> Result<Request, RequestFault>
    ensures { result ≡ load_of ppn at len }
{
    if len > 64 {
        return Err(RequestFault::Length);
    }
    Request::load(ppn, at, len as u32)
}

/// Returns why the machine refuses a call of this guest that counts as `requests` requests, if it does.
pub(crate) fn refusal_for<H: PageHash>(core: &Core<H>, guest: u32, requests: u32) -> Option<Refusal>
    ensures refusal { result ≡ refusal_for requests (state_of core.now) guest }
    ensures guest { result ≡ None → guest < length (state_of core.now).guests }
    ensures few { result ≡ None → guest < 256 }
    ensures room { result ≡ None → core.now.entries + requests ≤ MAX_REQUESTS }
{
    if guest >= u32::from(core.guests()) {
        return Some(Refusal::NoGuest);
    }
    if core.entries() > MAX_REQUESTS - requests {
        return Some(Refusal::Full);
    }
    None
}

/// Returns the request if the machine accepts it.
fn accept<'a, H: PageHash>(
    core: &Core<H>,
    guest: u32,
    asked: &'a Result<Request, RequestFault>,
) -> Result<&'a Request, Refusal>
    ensures request { MatchResult result (λ request. accepted (state_of core.now) guest asked.now ≡ Ok request.now)
        (λ refusal. accepted (state_of core.now) guest asked.now ≡ Err refusal) }
    ensures asked { IfOk result (λ request. asked.now ≡ Ok request.now) }
    ensures guest { IfOk result (λ _. guest < length (state_of core.now).guests) }
    ensures few { IfOk result (λ _. guest < 256) }
    ensures room { IfOk result (λ _. core.now.entries < MAX_REQUESTS) }
{
    if let Some(refusal) = refusal_for(core, guest, 1) {
        return Err(refusal);
    }
    match asked {
        Ok(request) => Ok(request),
        Err(RequestFault::Length) => Err(Refusal::Length),
        Err(RequestFault::Crosses) => Err(Refusal::Crosses),
    }
}

/// Serves an accepted request. Returns the verdict, and the answer with it.
fn apply<H: PageHash>(core: &mut Core<H>, guest: u32, request: &Request) -> (Verdict, Answer)
    requires guest { guest < length (state_of core.old).guests }
    requires few { guest < 256 }
    requires room { core.old.entries < MAX_REQUESTS }
    ensures applies { Applies H.hash_of guest request.now result.0 core.old core.new }
    ensures answer { result.1 ≡ answer_of (Ok result.0) (named_frame core.new.pmap guest request.now)
        (freed_at result.0 (own_frame core.old.pmap guest request.now)) }
{
    let own = find_own(core, guest, request);
    let verdict = core.apply(guest as u8, request);
    let frame = find_named(core, guest, request);
    let answer = answer_of(&verdict, frame, freed_at(&verdict, own));
    (verdict, answer)
}

/// Serves a request whose verdict has nothing for C beyond the answer.
#[tactic(auto, using(crate::proofs::Tellings::not_accepted))]
pub(crate) fn answer<H: PageHash>(
    core: &mut Core<H>,
    guest: u32,
    asked: &Result<Request, RequestFault>,
) -> Answer
    ensures answer { result ≡ answer_of (answered H.hash_of (state_of core.old) guest asked.now) (asked_frame core.new.pmap guest asked.now)
        (freed_by (answered H.hash_of (state_of core.old) guest asked.now) core.old.pmap guest asked.now) }
    ensures state { state_of core.new ≡ answered_state H.hash_of (state_of core.old) guest asked.now }
    ensures frames { CoreKeeps guest asked.now (answered H.hash_of (state_of core.old) guest asked.now) core.old core.new }
{
    match accept(core, guest, asked) {
        Err(refusal) => refuse(refusal),
        Ok(request) => apply(core, guest, request).1,
    }
}

/// Serves a load, and puts the bytes into `room`.
#[tactic(auto, using(crate::proofs::Tellings::not_accepted))]
pub(crate) fn answer_load<H: PageHash>(
    core: &mut Core<H>,
    guest: u32,
    asked: &Result<Request, RequestFault>,
    room: &mut [u8],
) -> Answer
    ensures answer { result ≡ answer_of (answered H.hash_of (state_of core.old) guest asked.now) (asked_frame core.new.pmap guest asked.now)
        (freed_by (answered H.hash_of (state_of core.old) guest asked.now) core.old.pmap guest asked.now) }
    ensures state { state_of core.new ≡ answered_state H.hash_of (state_of core.old) guest asked.now }
    ensures frames { CoreKeeps guest asked.now (answered H.hash_of (state_of core.old) guest asked.now) core.old core.new }
    ensures bytes { room.new ≡ loaded room.old (answered H.hash_of (state_of core.old) guest asked.now) }
{
    match accept(core, guest, asked) {
        Err(refusal) => refuse(refusal),
        Ok(request) => {
            let (verdict, answer) = apply(core, guest, request);
            put_loaded(room, &verdict);
            answer
        }
    }
}

/// Serves a count, and puts the numbers into the totals.
#[tactic(auto, using(crate::proofs::Tellings::not_accepted))]
pub(crate) fn answer_count<H: PageHash>(
    core: &mut Core<H>,
    guest: u32,
    asked: &Result<Request, RequestFault>,
    totals: &mut Totals,
) -> Answer
    ensures answer { result ≡ answer_of (answered H.hash_of (state_of core.old) guest asked.now) (asked_frame core.new.pmap guest asked.now)
        (freed_by (answered H.hash_of (state_of core.old) guest asked.now) core.old.pmap guest asked.now) }
    ensures state { state_of core.new ≡ answered_state H.hash_of (state_of core.old) guest asked.now }
    ensures frames { CoreKeeps guest asked.now (answered H.hash_of (state_of core.old) guest asked.now) core.old core.new }
    ensures totals { totals.new ≡ counted totals.old (answered H.hash_of (state_of core.old) guest asked.now) }
{
    match accept(core, guest, asked) {
        Err(refusal) => refuse(refusal),
        Ok(request) => {
            let (verdict, answer) = apply(core, guest, request);
            put_counted(totals, &verdict);
            answer
        }
    }
}

/// Serves a request of a guest whose verdict has nothing for C beyond the answer.
pub(crate) fn serve(
    alloc: Global,
    machine: &mut Machine,
    guest: u32,
    asked: &Result<Request, RequestFault>,
) -> Answer
    ensures answer { result ≡ answer_to machine.old.slot.core machine.new.slot.core guest asked.now }
    ensures state { seen machine.new.slot.core ≡ state_after machine.old.slot.core guest asked.now }
    ensures frames { FramesKept guest asked.now
        (outcome machine.old.slot.core guest asked.now) machine.old.slot.core machine.new.slot.core }
{
    match machine.take(alloc) {
        None => refuse(Refusal::NoMachine),
        Some(mut core) => {
            let answer = core.answer(guest, asked);
            machine.put(core);
            answer
        }
    }
}

/// Serves a load, and puts the bytes into `room`.
pub(crate) fn serve_load(
    alloc: Global,
    machine: &mut Machine,
    guest: u32,
    asked: &Result<Request, RequestFault>,
    room: &mut [u8],
) -> Answer
    ensures answer { result ≡ answer_to machine.old.slot.core machine.new.slot.core guest asked.now }
    ensures state { seen machine.new.slot.core ≡ state_after machine.old.slot.core guest asked.now }
    ensures frames { FramesKept guest asked.now
        (outcome machine.old.slot.core guest asked.now) machine.old.slot.core machine.new.slot.core }
    ensures bytes { room.new ≡ loaded room.old (outcome machine.old.slot.core guest asked.now) }
{
    match machine.take(alloc) {
        None => refuse(Refusal::NoMachine),
        Some(mut core) => {
            let answer = core.answer_load(guest, asked, room);
            machine.put(core);
            answer
        }
    }
}

/// Serves a count, and puts the numbers into the totals.
pub(crate) fn serve_count(
    alloc: Global,
    machine: &mut Machine,
    guest: u32,
    asked: &Result<Request, RequestFault>,
    totals: &mut Totals,
) -> Answer
    ensures answer { result ≡ answer_to machine.old.slot.core machine.new.slot.core guest asked.now }
    ensures state { seen machine.new.slot.core ≡ state_after machine.old.slot.core guest asked.now }
    ensures frames { FramesKept guest asked.now
        (outcome machine.old.slot.core guest asked.now) machine.old.slot.core machine.new.slot.core }
    ensures totals { totals.new ≡ counted totals.old (outcome machine.old.slot.core guest asked.now) }
{
    match machine.take(alloc) {
        None => refuse(Refusal::NoMachine),
        Some(mut core) => {
            let answer = core.answer_count(guest, asked, totals);
            machine.put(core);
            answer
        }
    }
}

/// Puts the bytes that a verdict loaded at the start of `room`.
fn put_loaded(room: &mut [u8], verdict: &Verdict)
    ensures { room.new ≡ loaded room.old (Ok verdict.now) }
{
    if let Verdict::Bytes(bytes) = verdict {
        put_bytes(room, bytes.as_slice());
    }
}

/// Puts bytes at the start of `room`, if they fit.
fn put_bytes(room: &mut [u8], bytes: &[u8])
    ensures { room.new ≡ overlaid room.old bytes.now }
{
    if bytes.len() <= room.len() {
        room[..bytes.len()].copy_from_slice(bytes);
    }
}

/// Puts what a verdict counted into the totals.
fn put_counted(totals: &mut Totals, verdict: &Verdict)
    ensures { totals.new ≡ counted totals.old (Ok verdict.now) }
{
    if let Verdict::Totals(report) = verdict {
        *totals = totals_of(report);
    }
}
