//! How many watches there are.
use crate::checks::{equal, holds};
use page_model::MAX_WATCHES;
use watched_machine::{NoWatch, Publisher};

// There is no ninth watch; when one of the eight is dropped, its place is free again.
#[test]
fn nine_watches(rt: HostRuntime) {
    let mut publisher = Publisher::new(&rt, rt.alloc()).expect(&rt, "memory");
    let mut watches = Vec::new(rt.alloc());
    for _ in 0..MAX_WATCHES {
        let watch = publisher.watch().expect(&rt, "a watch");
        watches.push(watch).expect(&rt, "memory");
    }
    equal(&rt, publisher.watch().err(), Some(NoWatch));
    drop(watches.pop());
    holds(&rt, publisher.watch().is_ok());
    publisher.end(&rt);
}
