//! What a watch reads was published.
ghost use Rattle.std.specs.Prelude.{◌≡◌, ◌<◌, Contains, IfSome};
ghost use Rattle.watched_machine.specs.Reports.{last_of};
ghost use Rattle.watched_machine.specs.Lists.{published, publisher_id, watch_id};

use crate::checks::equal;
use crate::watches::reports::makes::mixed;
use page_model::Report;
use std::sync::Wait;
use watched_machine::{Publisher, Watch};

const MANY: u32 = 1_100_000;

/// Returns what the watch reads, if the publisher confirms all that the watch has seen: it is among what was published.
fn read_published(publisher: &Publisher, watch: &mut Watch) -> Option<Report>
    requires { watch_id watch.old ≡ publisher_id publisher.now }
    ensures same { watch_id watch.new ≡ watch_id watch.old }
    ensures published { IfSome result (λ report. 0 < report.entries → Contains (published publisher.now) report) }
{
    let report = watch.read()?;
    let told = watch.tell();
    if !publisher.has_published(&told) {
        return None;
    }
    Some(report)
}

// Publishes reports of 1, 2, .. entries, and returns how many were published, read and confirmed.
fn publish_each<R: Wait>(rt: &R, publisher: &mut Publisher, watch: &mut Watch) -> u32
    requires first { (last_of (published publisher.old)).entries ≡ 0 }
    requires same { watch_id watch.old ≡ publisher_id publisher.old }
{
    let mut done = 0u32;
    for before in 0..MANY {
        let report = mixed(before + 1);
        match publisher.publish(rt, report) {
            Ok(_told) => {
                if read_published(publisher, watch) == Some(report) {
                    done = done.wrapping_add(1);
                }
            }
            Err(_) => {}
        }
    }
    done
}

#[test]
fn a_million_reports(rt: HostRuntime) {
    let mut publisher = Publisher::new(&rt, rt.alloc()).expect(&rt, "memory");
    let mut watch = publisher.watch().expect(&rt, "a watch");
    let done = publish_each(&rt, &mut publisher, &mut watch);
    publisher.end(&rt);
    equal(&rt, done, MANY);
}
