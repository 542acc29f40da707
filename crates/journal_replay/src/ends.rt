//! Readers and writers that remember whether they failed.
ghost use Rattle.std.specs.Prelude.{◌≡◌, ◌≤◌, ◌||◌, ℕ, List, Option, Bool, false, length, vec_len, is_err, is_some};
ghost use Rattle.std.specs.Prelude.{IfOk, IfErr, IfSome};
ghost use Rattle.std.specs.Io.{ReadsAtMost, WritesAtMost};
ghost use Rattle.std.specs.Io.KnownBytes.{ReadConsumes, WriteAppends};
ghost use Rattle.page_model.specs.declared.limits.TheConstants.{MAX_TEXT_BYTES};
ghost use Rattle.journal_replay.specs.Ends.{inner_of, failed_of, write_failed, has_read_fault, NotRead, ReadsUpTo, WritesAll};

use page_model::MAX_TEXT_BYTES;
use std::alloc::Allocator;
use std::io::{self, ErrorKind, Read, Write};
use text_words::TextFault;

/// A reader that remembers whether a read failed.
pub trait Source {
    // The bytes that reads will return, if they are known.
    ghost remaining: { Self → Option (List ℕ) };
    // Whether a read failed.
    ghost has_failed: { Self → Bool };

    /// Reads into `buf`, as `std::io::Read::read` does.
    fn read(&mut self, buf: &mut [u8]) -> io::Result<usize>
        ensures bound { ReadsAtMost result buf.new }
        ensures bytes { ReadConsumes (remaining self.old) (remaining self.new) result buf.new }
        ensures failed { has_failed self.new ≡ (has_failed self.old || is_err result) };

    /// Whether a read failed.
    fn failed(&self) -> bool
        ensures { result ≡ has_failed self.now };
}

/// A writer that remembers whether a write failed; a write that wrote none of some bytes counts as failed.
pub trait Sink {
    // The bytes that the writer holds, if they are known.
    ghost contents: { Self → Option (List ℕ) };
    // Whether a write failed.
    ghost has_failed: { Self → Bool };

    /// Writes from `buf`, as `std::io::Write::write` does.
    fn write(&mut self, buf: &[u8]) -> io::Result<usize>
        ensures bound { WritesAtMost result buf.now }
        ensures bytes { WriteAppends (contents self.old) (contents self.new) result buf.now }
        ensures failed { has_failed self.new ≡ (has_failed self.old || write_failed result buf.now) };

    /// Whether a write failed.
    fn failed(&self) -> bool
        ensures { result ≡ has_failed self.now };
}

/// A reader or a writer of std, with the error of the last call on it that failed.
///
/// Each call makes one call of the inner reader or writer and returns its answer. No contract says that, since none can count
/// calls: tests check it.
#[derive(Drop)]
pub struct Noted<T> {
    inner: T,
    error: Option<io::Error>,
}

impl<T> Noted<T> {
    /// Makes a reader or a writer that has not failed.
    pub fn new(inner: T) -> Self
        ensures inner { inner_of result ≡ inner }
        ensures failed { failed_of result ≡ false }
    {
        Noted { inner, error: None }
    }

    /// Returns why the last failed call failed; `None` if none has. A write that wrote none of some bytes has the kind
    /// `WriteZero`.
    pub fn error(&self) -> Option<io::Error>
        ensures { is_some result ≡ failed_of self.now }
    {
        self.error
    }
}

impl<R: Read> Source for Noted<R> {
    ghost remaining = { λ noted. R.remaining (inner_of noted) };

    ghost has_failed = { λ noted. failed_of noted };

    fn read(&mut self, buf: &mut [u8]) -> io::Result<usize> {
        let got = self.inner.read(buf);
        if let Err(error) = &got {
            self.error = Some(*error);
        }
        got
    }

    fn failed(&self) -> bool {
        self.error.is_some()
    }
}

impl<W: Write> Sink for Noted<W> {
    ghost contents = { λ noted. W.contents (inner_of noted) };

    ghost has_failed = { λ noted. failed_of noted };

    fn write(&mut self, buf: &[u8]) -> io::Result<usize> {
        let took = self.inner.write(buf);
        if let Some(error) = write_error(&took, buf) {
            self.error = Some(error);
        }
        took
    }

    fn failed(&self) -> bool {
        self.error.is_some()
    }
}

/// Returns why a write of `buf` failed, if it did.
fn write_error(took: &io::Result<usize>, buf: &[u8]) -> Option<io::Error>
    ensures { is_some result ≡ write_failed took.now buf.now }
{
    match took {
        Ok(n) if *n == 0 && !buf.is_empty() => Some(io::Error::from(ErrorKind::WriteZero)),
        Ok(_) => None,
        Err(error) => Some(*error),
    }
}

/// How many bytes are asked for at once.
const PIECE_BYTES: usize = 65_536;

/// Returns this many zeros.
fn room<A: Allocator>(alloc: A, len: usize) -> Result<Vec<u8, A>, TextFault>
    ensures len { IfOk result (λ v. vec_len v ≡ len) }
    ensures err { IfErr result (λ e. e ≡ TextFault.OutOfMemory) }
{
    Ok(vec![in alloc; 0; len]?)
}

/// Reads all that a reader has. An `Err` is `Read`, `Long` or `OutOfMemory`. `Read` comes only where a read fails before
/// the text is too long.
pub fn read_all<R: Source, A: Allocator + Clone>(
    alloc: A,
    reader: &mut R,
) -> Result<Vec<u8, A>, TextFault>
    requires { R.has_failed reader.old ≡ false }
    ensures ok { IfOk result (λ text. IfSome (R.remaining reader.old) (λ bytes. text.items ≡ bytes)) }
    ensures short { IfOk result (λ text. length text.items ≤ MAX_TEXT_BYTES) }
    ensures failed { R.has_failed reader.new ≡ has_read_fault result }
    ensures err { IfErr result (λ e. NotRead (R.remaining reader.old) e) }
    ensures read { IfErr result (λ e. e ≡ TextFault.Read → ReadsUpTo MAX_TEXT_BYTES (R.remaining reader.old) (R.remaining reader.new)) }
{
    let mut text = Vec::new(alloc.clone()?);
    let mut piece = room(alloc, PIECE_BYTES)?;
    loop {
        match reader.read(&mut piece) {
            Err(_) => return Err(TextFault::Read),
            Ok(0) => return Ok(text),
            Ok(n) => {
                if n > MAX_TEXT_BYTES - text.len() {
                    return Err(TextFault::Long);
                }
                text.extend_from_slice(&piece[..n])?;
            }
        }
    }
}

/// Writes all of some bytes. An `Err` is `Write`, and then a front of them went out.
pub fn write_all<W: Sink>(writer: &mut W, bytes: &[u8]) -> Result<(), TextFault>
    requires { W.has_failed writer.old ≡ false }
    ensures { WritesAll (W.contents writer.old) (W.contents writer.new) (W.has_failed writer.new) bytes.now result }
{
    let mut done = 0;
    while done < bytes.len() {
        match writer.write(&bytes[done..]) {
            Err(_) => return Err(TextFault::Write),
            Ok(0) => return Err(TextFault::Write),
            Ok(n) => done += n,
        }
    }
    Ok(())
}
