//! Traces.
use crate::Step;
use std::alloc::{Allocator, Global};

/// The most frames that a trace has: those of 64 machines.
pub const MAX_TRACE_FRAMES: u32 = 67_108_864;

/// How many pages and frames there are, all of zeros at first, and what happened and was seen, in order.
#[derive(Drop)]
pub struct Trace<A: Allocator = Global> {
    pub pages: u32,
    pub frames: u32,
    pub steps: Vec<Step, A>,
}
