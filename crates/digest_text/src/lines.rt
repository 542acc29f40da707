//! The lines of a source, found in a buffer of fixed size.
ghost use Rattle.std.specs.Prelude.{◌≡◌, ◌+◌, ◌≤◌, ◌<◌, IfOk, IfSome, length, drop, vec_len};
ghost use Rattle.std.specs.Io.KnownBytes.{Keeps};
ghost use Rattle.std.specs.List.{position_or_len};
ghost use Rattle.digest_text.specs.Rows.{is_feed};
ghost use Rattle.digest_text.specs.declared.buffered.TheConstants.{BUFFER_BYTES};
ghost use Rattle.digest_text.specs.Left.{IsFound, left, unread};

use crate::buffered::{BUFFER_BYTES, Found, Lines};
use crate::row::MAX_LINE_BYTES;
use std::alloc::{AllocError, Allocator};
use std::io::{self, Read};
use text_words::word::cut;

fn new_buffer<A: Allocator>(alloc: A) -> Result<Vec<u8, A>, AllocError>
    ensures { IfOk result (λ buffer. vec_len buffer ≡ BUFFER_BYTES) }
{
    vec![in alloc; 0; BUFFER_BYTES]
}

impl<R: Read + Drop, A: Allocator> Lines<R, A> {
    /// Makes a buffer for a source.
    pub(crate) fn new(alloc: A, source: R) -> Result<Lines<R, A>, AllocError>
        ensures { IfOk result (λ lines. left R.remaining lines ≡ R.remaining source) }
    {
        let buffer = new_buffer(alloc)?;
        Ok(Lines {
            source,
            buffer,
            from: 0,
            end: 0,
        })
    }

    /// Returns what was read and not yet taken.
    pub(crate) fn unread(&self) -> &[u8]
        ensures { result.now ≡ unread self.now }
    {
        &self.buffer[self.from..self.end]
    }

    /// Takes bytes that were read.
    pub(crate) fn take(&mut self, count: usize)
        requires { count ≤ length (unread self.old) }
        ensures unread { unread self.new ≡ drop count (unread self.old) }
        ensures source { self.new.source ≡ self.old.source }
    {
        self.from += count;
    }

    /// Moves what is unread to the front of the buffer.
    fn make_room(&mut self)
        ensures unread { unread self.new ≡ unread self.old }
        ensures source { self.new.source ≡ self.old.source }
        ensures end { self.new.end ≡ length (unread self.old) }
    {
        self.buffer.copy_within(self.from..self.end, 0);
        self.end -= self.from;
        self.from = 0;
    }

    /// Reads once more into the buffer.
    fn fill(&mut self) -> io::Result<usize>
        requires { self.old.end < BUFFER_BYTES }
        ensures keeps { Keeps (left R.remaining self.old) (left R.remaining self.new) }
        ensures len { IfOk result (λ n. length (unread self.new) ≡ length (unread self.old) + n) }
        ensures none { IfOk result (λ n. n ≡ 0 → unread self.new ≡ unread self.old) }
        ensures end { IfOk result (λ n. n ≡ 0 → IfSome (left R.remaining self.new) (λ bytes. bytes ≡ unread self.new)) }
    {
        let count = self.source.read(&mut self.buffer[self.end..])?;
        self.end += count;
        Ok(count)
    }

    /// Finds the next line, and takes nothing.
    pub(crate) fn find(&mut self) -> io::Result<Found>
        ensures keeps { Keeps (left R.remaining self.old) (left R.remaining self.new) }
        ensures found { IfOk result (λ found. IsFound found (unread self.new) (left R.remaining self.new)) }
    {
        loop {
            if let Some((line, _)) = cut(b'\n', self.unread()) {
                return Ok(Found::Line(line.len()));
            }
            if self.unread().len() > MAX_LINE_BYTES {
                return Ok(Found::Broken);
            }
            self.make_room();
            if self.fill()? == 0 {
                return Ok(self.at_end());
            }
        }
    }

    /// Returns what comes next, once all is read and there is no line feed.
    fn at_end(&self) -> Found
        requires read { IfSome (left R.remaining self.now) (λ bytes. bytes ≡ unread self.now) }
        requires none { position_or_len is_feed (unread self.now) ≡ length (unread self.now) }
        ensures { IsFound result (unread self.now) (left R.remaining self.now) }
    {
        if self.from == self.end {
            Found::End
        } else {
            Found::Broken
        }
    }
}
