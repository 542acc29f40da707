//! `/proc/PID/mem`.
ghost use Rattle.std.specs.Prelude.{◌≡◌, ◌-◌, ◌^◌, replicate};

use memory_images::ReadAt;
use page_model::{PAGE_BYTES, Page};
use std::io::{self, ErrorKind};
use std::os::unix::fs::FileExt;

/// The system's number of the error that says that nothing is mapped at a place, `EIO`.
const NOTHING_MAPPED: i32 = 5;

/// The memory of a process by its addresses, of which the last one isn't used.
///
/// The process changes it at any time, so it isn't steady. Its ghost bytes show only how many there are.
#[derive(Drop)]
pub struct LiveMemory<F> {
    file: F,
    len: u64,
}

impl<F> LiveMemory<F> {
    /// Takes the file of a process's memory, `/proc/PID/mem`, that was opened for reading.
    pub fn new(file: F) -> LiveMemory<F>
        ensures { result.len ≡ 2 ^ 64 - 1 }
    {
        LiveMemory {
            file,
            len: u64::MAX,
        }
    }
}

impl<F: FileExt> ReadAt for LiveMemory<F> {
    type Fault = io::Error;

    ghost bytes = { λ memory. replicate memory.len 0 };

    ghost is_steady = { λ _. ⊥ };

    fn len(&self) -> u64 {
        self.len
    }

    fn read_at(&self, at: u64, into: &mut [u8]) -> io::Result<()> {
        read_mapped(&self.file, at, into)
    }

    fn read_pages_at(&self, at: u64, into: &mut [Page]) -> io::Result<()> {
        read_mapped(&self.file, at, into.as_flattened_mut())
    }
}

/// Reads bytes into the list until it is full, each byte once. A page where nothing is mapped reads as zeros; `at` is the first
/// byte of a page.
fn read_mapped(file: &impl FileExt, at: u64, into: &mut [u8]) -> io::Result<()> {
    let mut done = 0;
    while done < into.len() {
        match file.read_at(&mut into[done..], at.wrapping_add(done as u64)) {
            // The process has ended.
            Ok(0) => return Err(io::Error::from(ErrorKind::UnexpectedEof)),
            Ok(count) => done += count,
            Err(error) if error.raw_os_error() == Some(NOTHING_MAPPED) => {
                let page = PAGE_BYTES - done % PAGE_BYTES;
                let count = page.min(into.len() - done);
                into[done..done + count].fill(0);
                done += count;
            }
            Err(error) => return Err(error),
        }
    }
    Ok(())
}
