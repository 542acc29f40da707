//! What a reader of digests keeps.
ghost use Rattle.digest_text.specs.Repeats.{IsFront};

use crate::buffered::Lines;
use crate::row::Front;
use crate::so_far::SoFar;
use std::alloc::Allocator;
use std::io;

/// A digest's text that is read a line at a time, in memory that doesn't grow.
#[derive(Drop)]
pub struct DigestReader<R, A: Allocator> {
    pub(crate) lines: Lines<R, A>,
    pub(crate) so_far: Option<SoFar>,
    /// How the head was spelled on a line before: a line that begins with these bytes has the same head.
    pub(crate) front: Front,
    /// The number of the last line that was read.
    pub(crate) line: u64,
    /// The error of the last read of a line that failed.
    pub(crate) failure: Option<io::Error>,
    ghost repeats: { IsFront so_far front.items },
}
