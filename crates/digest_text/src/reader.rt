//! The reader of digests.
ghost use Rattle.std.specs.Prelude.{◌≡◌, IfSome};
ghost use Rattle.std.specs.Option.{option_map};
ghost use Rattle.digest_text.specs.Noted.{IsEnd};
ghost use Rattle.digest_text.specs.Rows.{check_header};
ghost use Rattle.digest_text.specs.Unread.{IsFirst, IsNext, failure_after, failure_of, head_of, rows_left};

use crate::buffered::{Found, Lines};
use crate::row::{Front, MAX_LINE_BYTES};
use crate::so_far::SoFar;
use crate::taken::take_line;
use crate::{Cause, DigestHead, DigestReader, LineFault, ReadFault};
use guest_digests::DigestLine;
use std::alloc::Allocator;
use std::io::{self, Read};

const HEADER: &[u8] = b"guest,salt,pages,sample,digest,copies";

/// Checks the first line.
fn check_header(line: &[u8]) -> Result<(), Cause>
    ensures { result ≡ check_header line.now }
{
    if line.len() > MAX_LINE_BYTES || line.iter().filter(|byte| **byte == b',').count() != 5 {
        return Err(Cause::Form);
    }
    if line != HEADER {
        return Err(Cause::Head);
    }
    Ok(())
}

/// Checks that the lines list all pages, where each content is kept.
fn check_end(so_far: &Option<SoFar>, line: u64) -> Result<(), LineFault>
    ensures { IsEnd so_far.now line result }
{
    match so_far {
        Some(so_far) => {
            if so_far.head.sample.get() == 1 && so_far.left != Some(0) {
                let cause = Cause::Total;
                return Err(LineFault { line, cause });
            }
            Ok(())
        }
        None => Ok(()),
    }
}

/// Returns the error of the last read that failed, by what it was before a line was read and how that ended.
fn failure_after(
    failure: Option<io::Error>,
    found: &Result<Option<DigestLine>, ReadFault>,
) -> Option<io::Error>
    ensures { result ≡ failure_after failure found.now }
{
    match found {
        Ok(_line) => failure,
        Err(ReadFault::Read(error)) => Some(*error),
        Err(ReadFault::OutOfMemory) => failure,
        Err(ReadFault::Line(_fault)) => failure,
    }
}

impl<R: Read + Drop, A: Allocator> DigestReader<R, A> {
    /// Makes a reader of a digest's text, and reads its header.
    pub fn new(alloc: A, source: R) -> Result<DigestReader<R, A>, ReadFault>
        ensures { IfSome (R.remaining source) (λ text. IsFirst (rows_left R.remaining) text result) }
    {
        let mut lines = Lines::new(alloc, source)?;
        let Found::Line(count) = lines.find()? else {
            let cause = Cause::Form;
            return Err(ReadFault::Line(LineFault { line: 1, cause }));
        };
        if let Err(cause) = check_header(&lines.unread()[..count]) {
            return Err(ReadFault::Line(LineFault { line: 1, cause }));
        }
        lines.take(count + 1);
        Ok(DigestReader {
            lines,
            so_far: None,
            front: Front::new(),
            line: 1,
            failure: None,
        })
    }

    /// Returns what all lines begin with, once a line was read.
    pub fn head(&self) -> Option<&DigestHead>
        ensures { option_map (λ head. head.now) result ≡ head_of self.now }
    {
        match &self.so_far {
            Some(so_far) => Some(&so_far.head),
            None => None,
        }
    }

    /// Returns the error of the last read of a line that failed.
    pub fn failure(&self) -> Option<&io::Error>
        ensures { option_map (λ error. error.now) result ≡ failure_of self.now }
    {
        self.failure.as_ref()
    }

    /// Reads the next line; `None` at the end. After a fault of a line or the end the reader returns the same again, and after
    /// a read that failed it goes on where it was.
    pub fn next_line(&mut self) -> Result<Option<DigestLine>, ReadFault>
        ensures next { IfSome (rows_left R.remaining self.old) (λ rows. IsNext rows (rows_left R.remaining self.new) (head_of self.new) result) }
        ensures failure { failure_of self.new ≡ failure_after (failure_of self.old) result }
    {
        let found = self.read_line();
        self.failure = failure_after(self.failure, &found);
        found
    }

    /// Reads the next line, and notes nothing of a read that fails.
    fn read_line(&mut self) -> Result<Option<DigestLine>, ReadFault>
        ensures next { IfSome (rows_left R.remaining self.old) (λ rows. IsNext rows (rows_left R.remaining self.new) (head_of self.new) result) }
        ensures failure { failure_of self.new ≡ failure_of self.old }
    {
        let line = self.line.saturating_add(1);
        match self.lines.find()? {
            Found::Line(count) => {
                match take_line(
                    &mut self.so_far,
                    &mut self.front,
                    &self.lines.unread()[..count],
                ) {
                    Ok(found) => {
                        self.lines.take(count + 1);
                        self.line = line;
                        Ok(Some(found))
                    }
                    Err(cause) => Err(ReadFault::Line(LineFault { line, cause })),
                }
            }
            Found::Broken => {
                let cause = Cause::Form;
                Err(ReadFault::Line(LineFault { line, cause }))
            }
            Found::End => match check_end(&self.so_far, self.line) {
                Ok(()) => Ok(None),
                Err(fault) => Err(ReadFault::Line(fault)),
            },
        }
    }
}
