//! Scripts that are read with memory refused.
use crate::checks::{holds, holds_at};
use refusing::Refusing;
use share_text::{TextFault, read_script};

/// A store, a scan of two pages at random, and a release.
const SCRIPT: &str =
    "pageshare script 1\nframes 2\npages 1\nring 1\njournal 5\n0 store 0 0 41\n0 scan random 7 2\n0 release 0\nend 3\n";

/// Whether the script's four requests are read, or memory was refused.
fn reads_or_wants(heap: &Refusing) -> bool {
    match read_script(heap, SCRIPT.as_bytes()) {
        Ok(read) => !heap.has_refused() && read.scripts[0].len() == 4,
        Err(fault) => heap.has_refused() && fault == TextFault::OutOfMemory,
    }
}

#[test]
fn refused_growths(rt: HostRuntime) {
    for first in 0..100 {
        let heap = Refusing::new(rt.alloc(), first, 0);
        holds_at(&rt, first, reads_or_wants(&heap));
        holds(&rt, heap.holds_nothing());
        if !heap.has_refused() {
            return;
        }
    }
    panic!(rt; "no growth is the last");
}
