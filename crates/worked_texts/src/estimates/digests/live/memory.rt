//! Reads of a process's memory, some of which the system refuses.
use crate::checks::equal;
use live_memory::LiveMemory;
use memory_images::ReadAt;
use page_model::{PAGE_BYTES, Page};
use std::io::{self, ErrorKind};
use std::os::unix::fs::FileExt;
use std::sync::atomic::{AtomicU64, Ordering};

/// A file whose page n is filled with n + 1, read up to three pages at a time. At page `hole` the system says `error`.
#[derive(Drop)]
struct Numbered<'a> {
    hole: u64,
    error: i32,
    /// How many bytes were read.
    read: &'a AtomicU64,
}

impl FileExt for Numbered<'_> {
    fn read_at(&self, buf: &mut [u8], offset: u64) -> io::Result<usize> {
        let page = offset / PAGE_BYTES as u64;
        if page == self.hole {
            return Err(io::Error::from_raw_os_error(self.error));
        }
        let before_hole = if page < self.hole {
            (self.hole - page).min(3) as usize
        } else {
            3
        };
        let count = buf.len().min(before_hole * PAGE_BYTES);
        for at in 0..count {
            buf[at] = (page.wrapping_add((at / PAGE_BYTES) as u64) % 255) as u8 + 1;
        }
        self.read.fetch_add(count as u64, Ordering::SeqCst);
        Ok(count)
    }

    fn write_at(&self, _buf: &[u8], _offset: u64) -> io::Result<usize> {
        Err(io::Error::from(ErrorKind::Other))
    }
}

// The last bytes of eight pages as they are read, and how many pages were read; none where a read fails.
fn read_eight(hole: u64, error: i32) -> Option<([u8; 8], u64)> {
    let read = AtomicU64::new(0);
    let memory = LiveMemory::new(Numbered {
        hole,
        error,
        read: &read,
    });
    let mut pages: [Page; 8] = [[9; PAGE_BYTES]; 8];
    if memory.read_pages_at(0, &mut pages).is_err() {
        return None;
    }
    let mut lasts = [0; 8];
    for n in 0..8 {
        lasts[n] = pages[n][PAGE_BYTES - 1];
    }
    Some((lasts, read.load(Ordering::SeqCst) / PAGE_BYTES as u64))
}

#[test]
fn reads_where_nothing_is_mapped(rt: HostRuntime) {
    equal(&rt, read_eight(100, 5), Some(([1, 2, 3, 4, 5, 6, 7, 8], 8)));
    equal(&rt, read_eight(0, 5), Some(([0, 2, 3, 4, 5, 6, 7, 8], 7)));
    equal(&rt, read_eight(4, 5), Some(([1, 2, 3, 4, 0, 6, 7, 8], 7)));
    equal(&rt, read_eight(7, 5), Some(([1, 2, 3, 4, 5, 6, 7, 0], 7)));
    // Another error is a fault.
    equal(&rt, read_eight(4, 13), None);
}
