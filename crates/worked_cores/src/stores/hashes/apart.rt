//! A hash of two pages, each of which waits for the other, so that two workers are needed.
ghost use Rattle.std.specs.Prelude.{◌≡◌};

use crate::checks::{equal, holds};
use crate::stores::hashes::many::hashes_of;
use page_digest::PageHash;
use page_model::{HashFunction, Page};
use std::sync::atomic::{AtomicBool, Ordering};
use std::thread;

const TRIES: u64 = 1 << 30;

/// Hashes to byte 0 of the page, once a page of zeros and another page are both being hashed.
#[derive(Drop)]
struct Together {
    blank_came: AtomicBool,
    other_came: AtomicBool,
    missed: AtomicBool,
}

impl Together {
    // Sets a flag and waits for the other. Notes if that is never seen.
    fn meet(&self, own: &AtomicBool, other: &AtomicBool) {
        own.store(true, Ordering::SeqCst);
        for _ in 0..TRIES {
            if other.load(Ordering::SeqCst) {
                return;
            }
            thread::yield_now();
        }
        self.missed.store(true, Ordering::SeqCst);
    }
}

impl HashFunction for Together {
    ghost use Rattle.page_digest.specs.Hashes.{first_byte_hash};

    ghost hash_of = { first_byte_hash };
}

impl PageHash for Together {
    fn hash(&self, _salt: u32, page: &Page) -> u64 {
        if page[0] == 0 {
            self.meet(&self.blank_came, &self.other_came);
        } else {
            self.meet(&self.other_came, &self.blank_came);
        }
        page[0].into()
    }
}

// On one thread the page of zeros would wait in vain for the other.
#[test]
fn by_two_workers(rt: HostRuntime) {
    let hash = Together {
        blank_came: AtomicBool::new(false),
        other_came: AtomicBool::new(false),
        missed: AtomicBool::new(false),
    };
    let hashes = hashes_of(&rt, rt.alloc(), rt.alloc(), 2, &hash, 2).expect(&rt, "memory");
    equal(&rt, hashes.as_slice(), [0, 0x41].as_slice());
    holds(&rt, !hash.missed.load(Ordering::SeqCst));
}
