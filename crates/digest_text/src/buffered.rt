//! A source with a buffer.
ghost use Rattle.std.specs.Prelude.{◌≡◌, ◌≤◌, vec_len};
ghost use Rattle.digest_text.specs.declared.buffered.TheConstants.{BUFFER_BYTES};

use std::alloc::Allocator;

/// How many bytes are read at once, at most.
pub(crate) const BUFFER_BYTES: usize = 65_536;

/// What comes next in a source.
#[derive(Clone, Copy)]
pub(crate) enum Found {
    /// A line of this many bytes, before its line feed.
    Line(usize),
    /// A line without a line feed, or one that is too long.
    Broken,
    /// Nothing.
    End,
}

/// A source, and a buffer with what was read of it and not yet taken.
#[derive(Drop)]
pub(crate) struct Lines<R, A: Allocator> {
    pub(crate) source: R,
    pub(crate) buffer: Vec<u8, A>,
    /// Where the bytes that aren't taken begin in the buffer, and where they end.
    pub(crate) from: usize,
    pub(crate) end: usize,
    ghost within: { (from ≤ end) × (end ≤ vec_len buffer) × (vec_len buffer ≡ BUFFER_BYTES) },
}
