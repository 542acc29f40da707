//! What is asked of a digest, and the name of its guest.
ghost use Rattle.std.specs.Prelude.{◌≡◌};
ghost use Rattle.command_terms.specs.Digests.{IsFileName};

use crate::progress::Drawn;
use digest_text::GuestName;
use guest_digests::Sample;

/// What is digested.
#[derive(Clone, Copy, Debug, PartialEq, Eq)]
pub enum DigestSource<'a> {
    /// The image at this path.
    Image(&'a str),
    /// The memory of the process with this number.
    Process(u32),
}

/// What a digest is to be made of, and how.
#[derive(Debug, Drop, PartialEq, Eq)]
pub struct DigestWords<'a> {
    pub source: DigestSource<'a>,
    pub guest: GuestName,
    pub salt: u32,
    pub sample: Sample,
    /// How many threads read, if the words say so.
    pub workers: Option<u32>,
    /// Whether the image is raw, whatever it begins with.
    pub raw: bool,
    /// Whether all memory of the process is read, and not only what it offered for sharing.
    pub all_memory: bool,
    pub progress: Drawn,
}

/// Returns the name of a path's file: what comes after the last `/`.
pub fn file_name(path: &[u8]) -> &[u8]
    ensures { IsFileName path.now result.now }
{
    match memchr::memrchr(b'/', path) {
        Some(at) => &path[at + 1..],
        None => path,
    }
}
