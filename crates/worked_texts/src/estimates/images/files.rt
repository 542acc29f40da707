//! Files in memory, and images of them.

use memory_images::{Image, ImageFault, ReadAt};
use std::alloc::{Allocator, Global};
use std::process::Abort;

/// A file whose first `readable` bytes can be read.
#[derive(Drop)]
pub struct Memory {
    pub bytes: Vec<u8>,
    pub readable: usize,
}

/// A byte isn't one of those that can be read.
#[derive(Clone, Copy, Debug, PartialEq, Eq)]
pub struct Unreadable;

impl ReadAt for Memory {
    type Fault = Unreadable;

    ghost bytes = { λ s. s.bytes.items };

    ghost is_steady = { λ _. Unit {0} };

    fn len(&self) -> u64 {
        self.bytes.len() as u64
    }

    fn read_at(&self, at: u64, into: &mut [u8]) -> Result<(), Unreadable> {
        let from = at as usize;
        let end = from + into.len();
        if end > self.readable {
            return Err(Unreadable);
        }
        into.copy_from_slice(&self.bytes[from..end]);
        Ok(())
    }
}

/// Makes a file of `len` zeros.
fn plain_file(rt: &impl Abort, alloc: Global, len: usize) -> Memory {
    Memory {
        bytes: vec![in alloc; 0; len].expect(rt, "memory"),
        readable: usize::MAX,
    }
}

/// Puts a little-endian number of `len` bytes at a place.
fn put(bytes: &mut [u8], at: usize, len: usize, number: u64) {
    let mut left = number;
    for i in 0..len {
        if let Some(byte) = bytes.get_mut(at.wrapping_add(i)) {
            *byte = (left % 256) as u8;
        }
        left /= 256;
    }
}

/// A program header: its type, the place and the number of its bytes in the file, and the number in memory.
#[derive(Clone, Copy)]
pub struct ProgramHeader {
    pub kind: u32,
    pub offset: u64,
    pub file_bytes: u64,
    pub memory_bytes: u64,
}

/// Returns a segment to load that is as long in memory as in the file.
pub fn load(offset: u64, len: u64) -> ProgramHeader {
    ProgramHeader {
        kind: 1,
        offset,
        file_bytes: len,
        memory_bytes: len,
    }
}

/// Makes a core of `len` bytes with these program headers, from byte 64 on.
pub fn core_file(rt: &impl Abort, alloc: Global, len: usize, headers: &[ProgramHeader]) -> Memory {
    let mut file = plain_file(rt, alloc, len);
    put_header(file.bytes.as_mut_slice(), headers.len() as u64);
    let mut at: usize = 64;
    for header in headers {
        put_program_header(file.bytes.as_mut_slice(), at, header);
        at = at.wrapping_add(56);
    }
    file
}

/// Puts the header of a core with `count` program headers.
fn put_header(bytes: &mut [u8], count: u64) {
    for (at, len, number) in [
        (0, 4, 0x464c_457f),
        (4, 1, 2),
        (5, 1, 1),
        (16, 2, 4),
        (32, 8, 64),
        (40, 8, 0),
        (54, 2, 56),
        (56, 2, count),
        (58, 2, 0),
    ] {
        put(bytes, at, len, number);
    }
}

/// Puts a program header at a place.
fn put_program_header(bytes: &mut [u8], at: usize, header: &ProgramHeader) {
    for (place, len, number) in [
        (0, 4, u64::from(header.kind)),
        (8, 8, header.offset),
        (32, 8, header.file_bytes),
        (40, 8, header.memory_bytes),
    ] {
        put(bytes, at.wrapping_add(place), len, number);
    }
}

/// Opens an image of a file.
pub fn open<A: Allocator + Clone>(
    alloc: A,
    file: Memory,
) -> Result<Image<Memory, A>, ImageFault<Unreadable>> {
    Image::open(alloc, file)
}

/// Whether a read of a file fails while it is opened.
pub fn is_unreadable(alloc: Global, file: Memory) -> bool {
    match open(alloc, file) {
        Err(ImageFault::Form(_)) => false,
        Err(ImageFault::Read(_)) => true,
        Err(ImageFault::OutOfMemory) => false,
        Ok(_) => false,
    }
}
