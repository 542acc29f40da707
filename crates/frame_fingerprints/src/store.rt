//! The fingerprints of the frames in use, as callers see them.
ghost use Rattle.std.specs.Prelude.{◌≡◌, ◌≤◌, IfOk, None, Some, is_some, replicate, slice_index_or, slice_set};
ghost use Rattle.frame_fingerprints.specs.declared.node.TheConstants.{NOWHERE};
ghost use Rattle.frame_fingerprints.specs.Held.{Finds, is_held, none_held, with_held};
ghost use Rattle.frame_fingerprints.specs.declared.limits.TheConstants.{MAX_FRAMES};

use crate::chains::Chains;
use crate::node::{NOWHERE, Node};
use lazy_list::LazyList;
use recent_fingerprints::{Buckets, bucket_count};
use std::alloc::{AllocError, Allocator, Global};
use std::marker::Model;

/// The fingerprints of the frames in use, by the frames' numbers. It says whether a frame has a fingerprint, and which.
///
/// `new` takes all memory.
#[derive(Drop)]
pub struct FrameFingerprints<A: Allocator = Global> {
    chains: Chains<A>,
}

impl<A: Allocator> Model for FrameFingerprints<A> {
    ghost use Rattle.std.specs.Prelude.{map};
    ghost use Rattle.frame_fingerprints.specs.Held.{Fingerprints};
    ghost use Rattle.frame_fingerprints.specs.Chained.{AreKept, fingerprint_in};

    ghost Value = { Fingerprints };

    ghost view = { λ f. record { factor = f.chains.buckets.factor; held = map fingerprint_in f.chains.nodes } };

    ghost invariant = { λ f. AreKept f.chains.nodes f.chains.heads.items f.chains.buckets.factor f.chains.buckets.shift };
}

impl<A: Allocator + Clone> FrameFingerprints<A> {
    /// Makes an empty store for the fingerprints of `frames` frames: 16 bytes for each, and at most 4 more for the buckets. It takes
    /// all memory, but a frame's 16 bytes are first touched when that frame or a later one is put.
    ///
    /// The caller draws the seed at random and keeps it secret: knowing it, one can choose fingerprints that take long to look up.
    /// No result depends on it.
    pub fn new(alloc: A, frames: u32, seed: u64) -> Result<FrameFingerprints<A>, AllocError>
        requires limit { frames ≤ MAX_FRAMES }
        ensures { IfOk result (λ fingerprints. fingerprints ≡ none_held frames seed) }
    {
        let (count, shift) = bucket_count(frames / 2);
        let heads = new_heads(alloc.clone()?, count)?;
        let free = Node {
            fingerprint: 0,
            next: NOWHERE,
            before: NOWHERE,
        };
        let nodes = LazyList::new(alloc, frames, free)?;
        Ok(FrameFingerprints {
            chains: Chains {
                nodes,
                heads,
                buckets: Buckets {
                    factor: seed | 1,
                    shift,
                },
            },
        })
    }
}

// Returns the heads of `count` empty buckets.
fn new_heads<A: Allocator>(alloc: A, count: u32) -> Result<Vec<u32, A>, AllocError>
    ensures { IfOk result (λ heads. heads.items ≡ replicate count NOWHERE) }
{
    let mut heads = Vec::with_capacity(alloc, count as usize)?;
    for _ in 0..count {
        heads.push_reserved(NOWHERE);
    }
    Ok(heads)
}

impl<A: Allocator> FrameFingerprints<A> {
    /// Whether a frame has this fingerprint.
    pub fn has(&self, fingerprint: u64) -> bool
        ensures { result ≡ is_held fingerprint self.now.held }
    {
        self.find(fingerprint, 1, &[]).is_some()
    }

    /// Returns a frame that has this fingerprint, any one of several. The frames are in parts of `each` in a row: one that is in a part
    /// with `true` in `tried` isn't returned, and `None` if all that have the fingerprint are in such parts.
    pub fn find(&self, fingerprint: u64, each: u32, tried: &[bool]) -> Option<u32>
        requires { 1 ≤ each }
        ensures { Finds fingerprint each tried.now self.now.held result }
    {
        self.chains.find(fingerprint, each, tried)
    }

    /// Whether the fingerprint of a frame is kept.
    pub fn is_kept(&self, frame: u32) -> bool
        ensures { result ≡ is_some (slice_index_or self.now.held frame None) }
    {
        self.chains.is_used(frame)
    }

    /// Keeps the fingerprint of a frame, in place of the one that it has. Nothing changes if there is no such frame.
    pub fn put(&mut self, frame: u32, fingerprint: u64)
        ensures { self.new ≡ with_held (slice_set self.old.held frame (Some fingerprint)) self.old }
    {
        self.remove(frame);
        if frame < self.chains.nodes.len() {
            self.chains.put(frame, fingerprint);
        }
    }

    /// Forgets the fingerprint of a frame. Nothing changes if it has none, or there is no such frame.
    pub fn remove(&mut self, frame: u32)
        ensures { self.new ≡ with_held (slice_set self.old.held frame None) self.old }
    {
        if self.chains.is_used(frame) {
            self.chains.take(frame);
        }
    }
}
