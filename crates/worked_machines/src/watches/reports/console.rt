//! Watches in their own threads.
ghost use Rattle.std.specs.Prelude.{◌≡◌};
ghost use Rattle.watched_machine.specs.Reports.{last_of};
ghost use Rattle.watched_machine.specs.Lists.{published};

use crate::checks::equal;
use crate::watches::reports::makes::mixed;
use page_model::Report;
use std::sync::Wait;
use std::thread;
use std::thread::{Threads, join};
use watched_machine::{Publisher, Watch};

const TRIES: u32 = 1 << 30;

const READS: u32 = 5_000;

const PUBLISHED: u32 = 5_000;

/// How many reads returned a report, and how many of these had fewer entries than the read before. Then how many had a number
/// that was not published with that number of entries.
#[derive(Clone, Copy, Debug, PartialEq, Eq)]
struct Tally {
    reports: u32,
    falls: u32,
    strangers: u32,
}

// Publishes reports of 1, 2, .. entries, and returns how many were published.
fn publish_all<R: Wait>(rt: &R, publisher: &mut Publisher) -> u32
    requires { (last_of (published publisher.old)).entries ≡ 0 }
{
    let mut done = 0u32;
    for before in 0..PUBLISHED {
        match publisher.publish(rt, mixed(before + 1)) {
            Ok(_told) => done = done.wrapping_add(1),
            Err(_) => {}
        }
    }
    done
}

// Waits for the first published report, so that the reads come while others are published.
fn wait_for_the_first(watch: &mut Watch) {
    for _ in 0..TRIES {
        if let Some(report) = watch.read() {
            if report.entries() > 0 {
                return;
            }
        }
        thread::yield_now();
    }
}

fn read_often(watch: Watch) -> Tally {
    let mut watch = watch;
    let mut tally = Tally {
        reports: 0,
        falls: 0,
        strangers: 0,
    };
    let mut last = 0;
    wait_for_the_first(&mut watch);
    for _ in 0..READS {
        let Some(report) = watch.read() else {
            continue;
        };
        tally.reports = tally.reports.wrapping_add(1);
        if report.entries() < last {
            tally.falls = tally.falls.wrapping_add(1);
        }
        if report != mixed(report.entries()) {
            tally.strangers = tally.strangers.wrapping_add(1);
        }
        last = report.entries();
    }
    tally
}

fn run_beside<R: Threads + Wait + Sync>(
    rt: &R,
    publisher: &mut Publisher,
    first: Watch,
    second: Watch,
) -> (u32, (Tally, Tally))
    requires { (last_of (published publisher.old)).entries ≡ 0 }
{
    join(
        rt,
        || publish_all(rt, publisher),
        || join(rt, move || read_often(first), move || read_often(second)),
    )
}

// Two watches read while reports are published: each of 5,000 reads returns a report, all its six numbers were published
// together, and it never has fewer entries than the one before.
#[test]
fn entries_never_fall(rt: HostRuntime) {
    let mut publisher = Publisher::new(&rt, rt.alloc()).expect(&rt, "memory");
    let first = publisher.watch().expect(&rt, "a watch");
    let second = publisher.watch().expect(&rt, "a watch");
    let (done, tallies) = run_beside(&rt, &mut publisher, first, second);
    publisher.end(&rt);
    let all = Tally {
        reports: READS,
        falls: 0,
        strangers: 0,
    };
    equal(&rt, done, PUBLISHED);
    equal(&rt, tallies, (all, all));
}
