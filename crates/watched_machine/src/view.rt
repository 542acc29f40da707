//! The thread of a viewer.
use crate::Watch;
use crate::viewer::Viewer;
use std::alloc::Allocator;
use std::sync::Wait;
use std::sync::atomic::{AtomicU64, Ordering};
use std::time::Duration;

/// The pause between two reads, in milliseconds.
const PAUSE: u64 = 100;

/// What the word of a run holds once the run is over.
const OVER: u64 = 1;

/// Shows the latest published report ten times a second, until the run is over. Shows nothing if there is no watch.
pub(crate) fn view<R: Wait, A: Allocator, V: Viewer>(
    rt: &R,
    viewer: &V,
    watch: Option<Watch<A>>,
    run: &AtomicU64,
) {
    let Some(mut watch) = watch else {
        return;
    };
    for _ in rt.forever() {
        if run.load(Ordering::SeqCst) == OVER {
            return;
        }
        if let Some(report) = watch.read() {
            viewer.show(&report);
        }
        run.park_timeout(rt, 0, Duration::from_millis(PAUSE));
    }
}

/// Ends the viewer's thread.
pub(crate) fn end_view(run: &AtomicU64) {
    run.store(OVER, Ordering::SeqCst);
    run.wake_all();
}
