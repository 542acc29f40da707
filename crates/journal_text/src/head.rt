//! A text's head.
ghost use Rattle.page_model.specs.Limits.{AreLimits};

use crate::version::Version;
use std::alloc::Allocator;

/// What a text's first lines say of its machine, which is within the limits, with a salt for each guest.
#[derive(Drop)]
pub struct Head<A: Allocator> {
    pub version: Version,
    pub frames: u32,
    pub pages: Vec<u32, A>,
    pub salts: Vec<u32, A>,
    pub ghost limits: { AreLimits frames pages.items salts.items },
}
