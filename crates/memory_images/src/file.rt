//! Files of the system.
ghost use Rattle.std.specs.Prelude.{replicate};

use crate::ReadAt;
use page_model::Page;
use std::fs::File;
use std::io;
use std::os::unix::fs::FileExt;

/// A file that can be read, with the length it had when it was taken.
///
/// The system may change a file at any time, so none is steady. Its ghost bytes show only its length.
#[derive(Drop)]
pub struct FileBytes {
    file: File,
    len: u64,
}

impl FileBytes {
    /// Takes a file that was opened for reading. An error is that of the system, which was asked for the length.
    pub fn new(file: File) -> io::Result<FileBytes> {
        let len = file.metadata()?.len();
        Ok(FileBytes { file, len })
    }
}

impl ReadAt for FileBytes {
    type Fault = io::Error;

    ghost bytes = { λ file. replicate file.len 0 };

    ghost is_steady = { λ _. ⊥ };

    fn len(&self) -> u64 {
        self.len
    }

    fn read_at(&self, at: u64, into: &mut [u8]) -> io::Result<()> {
        self.file.read_exact_at(into, at)
    }

    fn read_pages_at(&self, at: u64, into: &mut [Page]) -> io::Result<()> {
        self.file.read_exact_at(into.as_flattened_mut(), at)
    }
}
