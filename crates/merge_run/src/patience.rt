//! How a thread of a run waits.
use std::hint::spin_loop;
use std::sync::Wait;
use std::sync::atomic::AtomicU64;
use std::time::Duration;

/// How often a thread looks again after a failed look, and how long it sleeps after that.
///
/// It doesn't yield: when other work wants the processors, a thread that yields may wait for a whole slice of their time,
/// thousands of times longer than what it waits for. A thread that sleeps is soon woken, and leaves its processor to those
/// that have work, such as the merger among many guests that wait for it.
#[derive(Drop)]
pub(crate) struct Patience {
    looks: u32,
    most: u32,
    // In microseconds.
    nap: u64,
    // What the thread sleeps on. Nobody wakes it.
    word: AtomicU64,
}

impl Patience {
    /// Makes the patience of a thread that makes at most `most` failed looks in a row before it sleeps, `nap` microseconds at
    /// a time.
    pub(crate) fn new(most: u32, nap: u64) -> Patience {
        Patience {
            looks: most,
            most,
            nap,
            word: AtomicU64::new(0),
        }
    }

    /// Waits a moment before the next look, or sleeps if no failed looks are left.
    pub(crate) fn wait<R: Wait>(&mut self, rt: &R) {
        if self.looks == 0 {
            let nap = Duration::from_micros(self.nap);
            self.word.park_timeout(rt, 0, nap);
        } else {
            self.looks -= 1;
            spin_loop();
        }
    }

    /// Allows `looks` more failed looks, since one succeeded, but never more than `most` in a row.
    pub(crate) fn regain(&mut self, looks: u32) {
        self.looks = self.looks.saturating_add(looks).min(self.most);
    }
}
