//! Two guests that wait for each other, so that the run ends only if each has its own thread.
use crate::checks::{equal, holds};
use crate::runs::makes::{Ask, Numbers};
use crate::runs::plain::{got, replayed};
use merge_run::Gate;
use std::sync::atomic::{AtomicBool, Ordering};
use std::thread;
use worked_answers::Answer;

const TRIES: u64 = 1 << 30;

// Each guest stores the same byte to its page, and proposes it.
const SCRIPT: [Ask; 2] = [Ask::Store(0, 0x41), Ask::Propose(0)];

/// Makes neither guest send before both are about to, and guest 0 propose only after guest 1 got its first verdict.
#[derive(Drop)]
struct Meeting {
    first_came: AtomicBool,
    second_came: AtomicBool,
    second_was_served: AtomicBool,
    failed: AtomicBool,
}

impl Meeting {
    fn new() -> Meeting {
        Meeting {
            first_came: AtomicBool::new(false),
            second_came: AtomicBool::new(false),
            second_was_served: AtomicBool::new(false),
            failed: AtomicBool::new(false),
        }
    }

    /// Waits for a flag, and notes a failure if it is never seen.
    fn wait_for(&self, flag: &AtomicBool) {
        for _ in 0..TRIES {
            if flag.load(Ordering::SeqCst) {
                return;
            }
            thread::yield_now();
        }
        self.failed.store(true, Ordering::SeqCst);
    }

    fn has_failed(&self) -> bool {
        self.failed.load(Ordering::SeqCst)
    }

    /// Whether both guests came, and the second got its first verdict.
    fn is_over(&self) -> bool {
        self.first_came.load(Ordering::SeqCst)
            && self.second_came.load(Ordering::SeqCst)
            && self.second_was_served.load(Ordering::SeqCst)
    }
}

impl Gate for Meeting {
    fn before(&self, guest: u8, nth: u32) {
        match (guest, nth) {
            (0, 0) => {
                self.first_came.store(true, Ordering::SeqCst);
                self.wait_for(&self.second_came);
            }
            (1, 0) => {
                self.second_came.store(true, Ordering::SeqCst);
                self.wait_for(&self.first_came);
            }
            (0, 1) => self.wait_for(&self.second_was_served),
            _ => {}
        }
    }

    fn after(&self, guest: u8, nth: u32) {
        if guest == 1 && nth == 0 {
            self.second_was_served.store(true, Ordering::SeqCst);
        }
    }
}

// On one thread guest 0 would wait in vain for guest 1, or guest 1 for guest 0.
#[test]
fn guests_that_wait_for_each_other(rt: HostRuntime) {
    let numbers = Numbers {
        frames: 2,
        pages: &[1, 1],
        salts: &[0, 0],
        ring: 1,
        journal: 6,
    };
    let gate = Meeting::new();
    let ran = replayed(&rt, rt.alloc(), &numbers, &[&SCRIPT, &SCRIPT], &gate);
    holds(&rt, !gate.has_failed());
    holds(&rt, gate.is_over());
    let hinted = [Answer::Mapped, Answer::Hinted, Answer::Closed];
    let paired = [Answer::Mapped, Answer::Paired, Answer::Closed];
    let first_leads = got(&ran, 0, &hinted) && got(&ran, 1, &paired);
    let second_leads = got(&ran, 0, &paired) && got(&ran, 1, &hinted);
    holds(&rt, first_leads || second_leads);
    equal(&rt, ran.report, [6, 2, 2, 1, 1, 0]);
}
