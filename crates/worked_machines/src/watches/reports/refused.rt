//! Memory that is refused to a publisher.
ghost use Rattle.std.specs.Prelude.{◌≡◌, ◌≤◌, ◌++◌, ◌∷◌, []};
ghost use Rattle.watched_machine.specs.Reports.{last_of};
ghost use Rattle.watched_machine.specs.Lists.{published, publisher_id, watch_id, told_id};

use crate::checks::{equal, holds, holds_at};
use crate::watches::reports::makes::{all_zeros, one_page};
use page_model::Report;
use refusing::Refusing;
use std::alloc::Allocator;
use std::process::Abort;
use std::sync::Wait;
use watched_machine::{OutOfMemory, Publisher, Told, Watch};

const MOST: u64 = 100;

// Publishes a report, and again if the first try was refused. After a refusal the watch reads what it read before.
fn publish<R: Abort + Wait, A: Allocator>(
    rt: &R,
    publisher: &mut Publisher<A>,
    watch: &mut Watch<A>,
    report: Report,
    before: Report,
) -> Told
    requires not_older { (last_of (published publisher.old)).entries ≤ report.entries }
    requires same { watch_id watch.old ≡ publisher_id publisher.old }
    ensures list { published publisher.new ≡ published publisher.old ++ report ∷ [] }
    ensures publisher { publisher_id publisher.new ≡ publisher_id publisher.old }
    ensures watch { watch_id watch.new ≡ watch_id watch.old }
    ensures told { told_id result ≡ publisher_id publisher.old }
{
    if let Ok(told) = publisher.publish(rt, report) {
        return told;
    }
    watch.learn(publisher.tell());
    equal(rt, watch.read(), Some(before));
    match publisher.publish(rt, report) {
        Ok(told) => told,
        Err(_) => panic!(rt; "refused with memory"),
    }
}

// Publishes two reports, with a watch that was made first and one that was made last.
fn run_to_the_end<R: Abort + Wait, A: Allocator>(rt: &R, publisher: Publisher<A>)
    requires { published publisher ≡ [] }
{
    let mut publisher = publisher;
    let mut watch = publisher.watch().expect(rt, "a first watch");
    let told = publish(rt, &mut publisher, &mut watch, one_page(1), all_zeros());
    watch.learn(told);
    equal(rt, watch.read(), Some(one_page(1)));
    let told = publish(rt, &mut publisher, &mut watch, one_page(2), one_page(1));
    let mut late = publisher.watch().expect(rt, "a second watch");
    late.learn(told);
    equal(rt, late.read(), Some(one_page(2)));
    publisher.end(rt);
}

// The nth request for memory is refused, with n counting up until a run has no refusal: first those of the new
// publisher, then those of a publish. A watch asks for none.
#[test]
fn each_growth_refused_in_turn(rt: HostRuntime) {
    let mut whole_at = None;
    for n in 0..MOST {
        let heap = Refusing::new(rt.alloc(), n, 0);
        match Publisher::new(&rt, &heap) {
            Ok(publisher) => run_to_the_end(&rt, publisher),
            Err(OutOfMemory) => holds_at(&rt, n, heap.has_refused()),
        }
        holds_at(&rt, n, heap.holds_nothing());
        if !heap.has_refused() {
            whole_at = Some(n);
            break;
        }
    }
    holds(&rt, whole_at.is_some());
}
