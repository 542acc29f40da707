//! How often pages that clients lend are hashed.
use crate::checks::holds;
use crate::domains::counted::Counted;
use lent_slots::LentSlots;
use machine_frames::Frames;
use merge_core::SaltedHash;
use std::alloc::Global;
use std::process::Abort;
use std::sync::atomic::{AtomicU32, Ordering};

const SALT: u32 = 7;

/// Lends three pages whose hashes are known, and releases one.
fn lend_known(rt: &impl Abort, slots: &mut LentSlots<Counted<'_>>) {
    for byte in [5, 6, 5] {
        let known = SaltedHash {
            salt: SALT,
            hash: u64::from(byte),
        };
        holds(rt, slots.lend(0, &[byte; 4096], known).is_ok());
    }
    holds(rt, slots.release(0).is_none());
}

/// Lends a page whose hash is known under another salt. No frame is left for it.
fn lend_otherwise(rt: &impl Abort, slots: &mut LentSlots<Counted<'_>>) {
    let other = SaltedHash { salt: 8, hash: 7 };
    holds(rt, slots.lend(0, &[7; 4096], other).is_err());
}

/// Returns how often pages are hashed by lends with the slots' salt, and then by one with another salt, too.
fn calls_by_lends(rt: &impl Abort, alloc: Global) -> [u32; 2] {
    let calls = AtomicU32::new(0);
    let frames = Frames::new(alloc, 3).expect(rt, "there is memory");
    let mut slots = LentSlots::new(alloc, 5, 2, SALT, Counted(&calls), frames).expect(
        rt,
        "there is memory",
    );
    lend_known(rt, &mut slots);
    let known = calls.load(Ordering::SeqCst);
    lend_otherwise(rt, &mut slots);
    [known, calls.load(Ordering::SeqCst)]
}

/// The caller's hash is taken over, since the slots have its salt: no page is hashed again. With another salt each would be.
#[test]
fn no_page_is_hashed_again(rt: HostRuntime) {
    let [known, otherwise] = calls_by_lends(&rt, rt.alloc());
    holds(&rt, known == 0);
    holds(&rt, otherwise == 1);
}
