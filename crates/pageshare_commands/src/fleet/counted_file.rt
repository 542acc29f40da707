//! The file of a digest, whose bytes are counted.
use crate::reading::Reading;
use std::fs::File;
use std::io::{self, Eprint, Read};
use std::time::Clock;

/// The file of a digest, whose bytes are counted as they are read.
#[derive(Drop)]
pub struct CountedFile<'a, R> {
    file: File,
    reading: &'a Reading<'a, R>,
}

impl<'a, R> CountedFile<'a, R> {
    /// Makes such a file, of which nothing was read.
    pub fn new(file: File, reading: &'a Reading<'a, R>) -> CountedFile<'a, R> {
        CountedFile { file, reading }
    }
}

impl<R: Eprint + Clock> Read for CountedFile<'_, R> {
    fn read(&mut self, buf: &mut [u8]) -> io::Result<usize> {
        let count = self.file.read(buf)?;
        self.reading.add(count);
        Ok(count)
    }
}
