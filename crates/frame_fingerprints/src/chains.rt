//! Frames in chains by the buckets of their fingerprints.
ghost use Rattle.std.specs.Prelude.{◌≡◌, ◌+◌, ◌<◌, ◌≤◌, ◌==◌, ◌&&◌, not, Some, None, IsSome, is_some, true, length, map, slice_set};
ghost use Rattle.frame_fingerprints.specs.Chained.{AreKept, fingerprint_in, heads_after, held_at, node_at, with_before, with_next};
ghost use Rattle.frame_fingerprints.specs.Held.{Finds, is_tried};

use crate::node::{NOWHERE, Node};
use lazy_list::LazyList;
use recent_fingerprints::Buckets;
use std::alloc::Allocator;

// The frames, and for each bucket the first one of its chain. A chain goes both ways, so a frame is taken out of it at once.
#[derive(Drop)]
pub(crate) struct Chains<A: Allocator> {
    pub(crate) nodes: LazyList<Node, A>,
    pub(crate) heads: Vec<u32, A>,
    pub(crate) buckets: Buckets,
}

impl<A: Allocator> Chains<A> {
    // Whether there is such a frame, and it has a fingerprint.
    pub(crate) fn is_used(&self, frame: u32) -> bool
        ensures used { result ≡ is_some (held_at self.now.nodes frame) }
        ensures within { result ≡ true → frame < length self.now.nodes }
    {
        if frame >= self.nodes.len() {
            return false;
        }
        self.nodes.get(frame).before != NOWHERE
    }

    // Returns a frame that has the fingerprint, the first one of its chain whose part wasn't tried.
    pub(crate) fn find(&self, fingerprint: u64, each: u32, tried: &[bool]) -> Option<u32>
        requires kept { AreKept self.now.nodes self.now.heads.items self.now.buckets.factor self.now.buckets.shift }
        requires each { 1 ≤ each }
        ensures { Finds fingerprint each tried.now (map fingerprint_in self.now.nodes) result }
    {
        let mut at = self.heads[self.buckets.of(fingerprint) as usize];
        for _ in 0..self.nodes.len() {
            if at >= self.nodes.len() {
                return None;
            }
            let node = self.nodes.get(at);
            if is_sought(&node, at, fingerprint, each, tried) {
                return Some(at);
            }
            at = node.next;
        }
        None
    }

    // Puts a frame that has no fingerprint before the others of its bucket.
    pub(crate) fn put(&mut self, frame: u32, fingerprint: u64)
        requires kept { AreKept self.old.nodes self.old.heads.items self.old.buckets.factor self.old.buckets.shift }
        requires within { frame < length self.old.nodes }
        requires free { held_at self.old.nodes frame ≡ None }
        ensures kept { AreKept self.new.nodes self.new.heads.items self.new.buckets.factor self.new.buckets.shift }
        ensures factor { self.new.buckets.factor ≡ self.old.buckets.factor }
        ensures held { map fingerprint_in self.new.nodes ≡ slice_set (map fingerprint_in self.old.nodes) frame (Some fingerprint) }
    {
        let bucket = self.buckets.of(fingerprint) as usize;
        let next = self.heads[bucket];
        let before = self.nodes.len() + bucket as u32;
        let node = Node {
            fingerprint,
            next,
            before,
        };
        self.nodes.set(frame, node);
        self.heads[bucket] = frame;
        set_before(&mut self.nodes, next, frame);
    }

    // Takes a frame with a fingerprint out of its chain.
    pub(crate) fn take(&mut self, frame: u32)
        requires kept { AreKept self.old.nodes self.old.heads.items self.old.buckets.factor self.old.buckets.shift }
        requires within { frame < length self.old.nodes }
        requires used { IsSome (held_at self.old.nodes frame) }
        ensures kept { AreKept self.new.nodes self.new.heads.items self.new.buckets.factor self.new.buckets.shift }
        ensures factor { self.new.buckets.factor ≡ self.old.buckets.factor }
        ensures held { map fingerprint_in self.new.nodes ≡ slice_set (map fingerprint_in self.old.nodes) frame None }
    {
        let node = self.nodes.get(frame);
        self.set_link(node.before, node.next);
        set_before(&mut self.nodes, node.next, node.before);
        set_before(&mut self.nodes, frame, NOWHERE);
    }
}

impl<A: Allocator> Chains<A> {
    // Lets the link of a frame or of a bucket lead elsewhere.
    fn set_link(&mut self, from: u32, to: u32)
        requires { from < length self.old.nodes + length self.old.heads.items }
        ensures nodes { self.new.nodes ≡ slice_set self.old.nodes from (with_next (node_at self.old.nodes from) to) }
        ensures heads { self.new.heads.items ≡ heads_after (length self.old.nodes) self.old.heads.items from to }
        ensures buckets { self.new.buckets ≡ self.old.buckets }
    {
        if from < self.nodes.len() {
            let node = self.nodes.get(from);
            self.nodes.set(from, Node { next: to, ..node });
        } else {
            let bucket = from - self.nodes.len();
            self.heads[bucket as usize] = to;
        }
    }
}

// Whether a frame's node has the fingerprint, and its part wasn't tried.
fn is_sought(node: &Node, frame: u32, fingerprint: u64, each: u32, tried: &[bool]) -> bool
    requires { 1 ≤ each }
    ensures { result ≡ ((node.now.fingerprint == fingerprint) && not (is_tried each tried.now frame)) }
{
    node.fingerprint == fingerprint && !is_tried(each, tried, frame)
}

// Whether the part of a frame was tried.
fn is_tried(each: u32, tried: &[bool], frame: u32) -> bool
    requires { 1 ≤ each }
    ensures { result ≡ is_tried each tried.now frame }
{
    match tried.get((frame / each) as usize) {
        Some(is) => *is,
        None => false,
    }
}

// Notes which frame or bucket is before a frame, if there is such a frame.
fn set_before<A: Allocator>(nodes: &mut LazyList<Node, A>, frame: u32, before: u32)
    ensures { nodes.new ≡ slice_set nodes.old frame (with_before (node_at nodes.old frame) before) }
{
    if frame < nodes.len() {
        let node = nodes.get(frame);
        nodes.set(frame, Node { before, ..node });
    }
}
