//! What a program is built for.

/// What a program is built for: the hash of its machines, and what `--version` says.
///
/// A hash type that is faster on some processors than on others is named by the program that is built for them.
#[derive(Clone, Copy)]
pub struct Build<H> {
    pub hash: H,
    /// The version, and the processor level that the program is built for.
    pub version: &'static str,
}
