//! The merger's rounds over all guests, on the calling thread.
ghost use Rattle.std.specs.Prelude.{◌≡◌, ◌≤◌, true, length};
ghost use Rattle.merge_machine.specs.Same.{SameMachine};
ghost use Rattle.merge_machine.specs.View.{ends_of, journal_of, machine_of, guest_count};
ghost use Rattle.merge_run.specs.Fronts.{AreOfFronts};
ghost use Rattle.merge_run.specs.Observed.{ObservesMerger};
ghost use Rattle.merge_run.specs.Showings.{GrowsBy};
ghost use Rattle.merge_run.specs.Turns.{HaveEnded};

use crate::observer::Observer;
use crate::patience::Patience;
use merge_machine::{JournalFull, Merger};
use page_digest::PageHash;
use share_rings::MergerEnd;
use std::alloc::Allocator;
use std::sync::Wait;
use std::thread::Threads;

/// How many workers may compute a round's hashes. One of them is the calling thread.
const WORKERS: u32 = 2;

/// How many requests a round serves at most.
pub(crate) const LIMIT: u32 = 64;

/// How many failed looks the merger makes before it sleeps: they take some 100 microseconds.
const MOST_LOOKS: u32 = 2_000;

/// How many failed looks are offset by a round that served something.
const LOOKS_A_ROUND: u32 = 1_000;

/// How long the merger sleeps after waiting without success, in microseconds.
const NAP: u64 = 20;

/// Serves by rounds until each of the first `guests` guests has ended, and waits after a round that served nothing. The
/// observer is shown the report after each round.
///
/// The other guests, whose threads were not started, send nothing: a visit to them finds no request.
pub(crate) fn serve_all<
    R: Threads + Wait + Sync,
    H: PageHash,
    A: Allocator + Send + Sync,
    O: Observer,
>(rt: &R, alloc: &A, merger: &mut Merger<H, A>, guests: u8, observer: O) -> O
    requires guests { guests ≤ guest_count merger.old }
    requires fronts { AreOfFronts H.hash_of (machine_of merger.old) (journal_of merger.old) (O.kept observer) }
    ensures same { SameMachine merger.old merger.new }
    ensures ended { HaveEnded guests (ends_of merger.new) }
    ensures observer { ObservesMerger O.name O.kept O.becomes H.hash_of observer result merger.old merger.new }
{
    let mut observer = observer;
    let mut patience = Patience::new(MOST_LOOKS, NAP);
    for _ in rt.forever() {
        let (shown, served) = serve_and_show(rt, alloc, merger, observer);
        observer = shown;
        if served > 0 {
            patience.regain(LOOKS_A_ROUND);
        } else if have_ended(merger.ends(), guests as usize) {
            return observer;
        } else {
            patience.wait(rt);
        }
    }
    unreachable!()
}

/// Serves a round, and then shows the observer the report of the whole journal. Returns the observer, and how many requests
/// were served.
fn serve_and_show<R: Threads + Wait + Sync, H: PageHash, A: Allocator + Send + Sync, O: Observer>(
    rt: &R,
    alloc: &A,
    merger: &mut Merger<H, A>,
    observer: O,
) -> (O, u32)
    requires fronts { AreOfFronts H.hash_of (machine_of merger.old) (journal_of merger.old) (O.kept observer) }
    ensures same { SameMachine merger.old merger.new }
    ensures journal { GrowsBy result.1 (journal_of merger.old) (journal_of merger.new) }
    ensures observer { ObservesMerger O.name O.kept O.becomes H.hash_of observer result.0 merger.old merger.new }
{
    let served = serve_round(rt, alloc, merger);
    let report = merger.report();
    let observer = observer.observe(rt, report, served);
    (observer, served)
}

/// Serves what waits in the guests' rings, and returns how many requests that was: also 0 if the journal is full.
fn serve_round<R: Threads + Wait + Sync, H: PageHash, A: Allocator + Send + Sync>(
    rt: &R,
    alloc: &A,
    merger: &mut Merger<H, A>,
) -> u32
    ensures same { SameMachine merger.old merger.new }
    ensures journal { GrowsBy result (journal_of merger.old) (journal_of merger.new) }
{
    match merger.round(rt, alloc, WORKERS, LIMIT) {
        Ok(served) => served,
        Err(JournalFull) => 0,
    }
}

/// Whether each of the first `guests` guests was given its `Closed`.
fn have_ended<A: Allocator>(ends: &[MergerEnd<A>], guests: usize) -> bool
    requires { guests ≤ length ends.now }
    ensures { result ≡ true → HaveEnded guests ends.now }
{
    for guest in 0..guests {
        if !ends[guest].ended() {
            return false;
        }
    }
    true
}
