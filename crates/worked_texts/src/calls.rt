//! A reader and a writer that count their calls, one of which fails.
use std::alloc::Global;
use std::io::{self, ErrorKind, Read, Write};

/// Fails at only one of its calls, counted from 0, and counts its calls.
#[derive(Clone, Copy)]
pub struct Calls {
    pub fails_at: usize,
    pub made: usize,
}

impl Calls {
    pub fn failing_at(fails_at: usize) -> Calls {
        Calls { fails_at, made: 0 }
    }

    /// Counts one more call, and returns whether it is the one that fails.
    fn fails_next(&mut self) -> bool {
        let fails = self.made == self.fails_at;
        self.made = self.made.saturating_add(1);
        fails
    }
}

/// Returns at most `step` bytes of a text per call.
#[derive(Drop)]
pub struct Giver<'a> {
    pub text: &'a [u8],
    pub step: usize,
    pub calls: Calls,
}

impl Read for Giver<'_> {
    fn read(&mut self, buf: &mut [u8]) -> io::Result<usize> {
        if self.calls.fails_next() {
            return Err(io::Error::from(ErrorKind::ConnectionReset));
        }
        let len = self.step.min(self.text.len()).min(buf.len());
        buf[..len].copy_from_slice(&self.text[..len]);
        self.text = &self.text[len..];
        Ok(len)
    }
}

/// Takes at most `step` bytes per call.
#[derive(Drop)]
pub struct Taker {
    pub taken: Vec<u8>,
    pub step: usize,
    pub calls: Calls,
}

impl Write for Taker {
    fn write(&mut self, buf: &[u8]) -> io::Result<usize> {
        if self.calls.fails_next() {
            return Err(io::Error::from(ErrorKind::ConnectionReset));
        }
        let len = self.step.min(buf.len());
        self.taken.extend_from_slice(&buf[..len])?;
        Ok(len)
    }

    fn flush(&mut self) -> io::Result<()> {
        Ok(())
    }
}

pub fn taker_of(alloc: Global, step: usize, fails_at: usize) -> Taker {
    Taker {
        taken: Vec::new(alloc),
        step,
        calls: Calls::failing_at(fails_at),
    }
}
