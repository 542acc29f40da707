//! A journal that is written and read again, with memory refused.
use crate::checks::{holds, holds_at};
use refusing::Refusing;
use share_text::{read_journal, write_journal};

/// A journal with a request of each kind.
const REQUESTS: &str = "\
    pageshare journal 2\n\
    frames 1048576\n\
    pages 1048575 1\n\
    salts 1 2\n\
    0 store 4294967295 4095 00\n\
    1 store 0 0 0aff\n\
    0 load 0 4032 64\n\
    1 propose 4294967295\n\
    0 release 7\n\
    1 count\n\
    1 close\n\
    0 close\n\
    end 8\n";

/// Whether what is read and written with this allocator is the text, or memory was refused.
fn writes_or_wants(heap: &Refusing, text: &str) -> bool {
    match read_journal(heap, text.as_bytes()) {
        Ok(journal) => match write_journal(heap, &journal) {
            Ok(written) => !heap.has_refused() && written.as_str() == text,
            Err(_) => heap.has_refused(),
        },
        Err(_) => heap.has_refused(),
    }
}

#[test]
fn refused_growths(rt: HostRuntime) {
    for first in 0..200 {
        let heap = Refusing::new(rt.alloc(), first, 0);
        holds_at(&rt, first, writes_or_wants(&heap, REQUESTS));
        holds(&rt, heap.holds_nothing());
        if !heap.has_refused() {
            return;
        }
    }
    panic!(rt; "no growth is the last");
}
