//! Parts of a window.

/// The pages that a part has. The first and the last part of a window may have fewer.
pub const PART: usize = 512;
