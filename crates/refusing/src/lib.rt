//! An allocator for tests, which refuses some of the requests for memory and passes on the rest.
//!
//! Its counts are in atomics, about which no contract can say anything. So its functions have no clauses but those of
//! `Allocator`, which are proved: what it grants is a block of the inner allocator, which is returned there.
#![tactic(auto)]

use std::alloc::{AllocError, Allocator, Global};
use std::sync::atomic::{AtomicU64, Ordering};

/// An allocator that refuses some requests, which are numbered from 0.
///
/// Code that allocates gets a `&` to it, which is an allocator too and can go to other threads. A collection makes a
/// request each time it grows, since it gets a new block.
#[derive(Drop)]
pub struct Refusing<B: Allocator = Global> {
    inner: B,
    requests: Requests,
}

// What was asked for, granted and returned, and which requests are refused.
#[derive(Drop)]
struct Requests {
    asked: AtomicU64,
    bytes: AtomicU64,
    granted: AtomicU64,
    returned: AtomicU64,
    first_refused: AtomicU64,
    more_refused: AtomicU64,
}

impl Requests {
    // Counts one more request, of `size` bytes, and returns whether it is refused.
    fn refuses_next(&self, size: usize) -> bool {
        self.bytes.fetch_add(size as u64, Ordering::SeqCst);
        let number = self.asked.fetch_add(1, Ordering::SeqCst);
        let first = self.first_refused.load(Ordering::SeqCst);
        let more = self.more_refused.load(Ordering::SeqCst);
        if number >= first && number - first <= more {
            return true;
        }
        self.granted.fetch_add(1, Ordering::SeqCst);
        false
    }

    // Counts one more block that was returned.
    fn take_back(&self) {
        self.returned.fetch_add(1, Ordering::SeqCst);
    }
}

impl<B: Allocator> Refusing<B> {
    /// Makes an allocator that refuses request number `first`, counted from 0, and the next `more` requests.
    pub fn new(inner: B, first: u64, more: u64) -> Refusing<B> {
        Refusing {
            inner,
            requests: Requests {
                asked: AtomicU64::new(0),
                bytes: AtomicU64::new(0),
                granted: AtomicU64::new(0),
                returned: AtomicU64::new(0),
                first_refused: AtomicU64::new(first),
                more_refused: AtomicU64::new(more),
            },
        }
    }

    /// Refuses every request from now on.
    pub fn refuse_all(&self) {
        self.requests.first_refused.store(0, Ordering::SeqCst);
        self.requests.more_refused.store(u64::MAX, Ordering::SeqCst);
    }

    /// Whether any request was refused so far.
    pub fn has_refused(&self) -> bool {
        self.requests.asked.load(Ordering::SeqCst) > self.requests.granted.load(Ordering::SeqCst)
    }

    /// Returns how many bytes all requests so far asked for together, modulo 2^64.
    pub fn bytes_asked(&self) -> u64 {
        self.requests.bytes.load(Ordering::SeqCst)
    }

    /// Whether each block that was granted has been returned.
    pub fn holds_nothing(&self) -> bool {
        self.requests.granted.load(Ordering::SeqCst)
            == self.requests.returned.load(Ordering::SeqCst)
    }
}

unsafe impl<B: Allocator> Allocator for Refusing<B> {
    ghost dealloc_token = { λ heap ty ptr. B.dealloc_token heap.inner ty ptr };

    fn allocate(&self, size: usize, align: usize) -> Result<*mut u8, AllocError> {
        if self.requests.refuses_next(size) {
            return Err(AllocError);
        }
        self.inner.allocate(size, align)
    }

    unsafe fn deallocate(&self, ptr: *mut u8, size: usize, align: usize) {
        self.requests.take_back();
        self.inner.deallocate(ptr, size, align);
    }
}

#[cfg(test)]
mod tests;
