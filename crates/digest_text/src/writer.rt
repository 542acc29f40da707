//! The writer of digests.
ghost use Rattle.std.specs.Prelude.{◌≡◌, ◌≤◌, ◌++◌, IfOk, [], codes, length, vec_len, vec_capacity};
ghost use Rattle.digest_text.specs.Rows.{header};
ghost use Rattle.digest_text.specs.Written.{IsSent, IsWritten, lines_text, text_of};

use crate::print::{LINE_ROOM, MAX_HEAD_BYTES, head_text, push_lines};
use crate::{GuestName, WriteFault};
use guest_digests::{DigestLine, GuestDigests};
use std::alloc::{AllocError, Allocator};
use std::io::{self, ErrorKind, Write};

/// How many bytes of output are kept before they are written.
const OUTPUT_BYTES: usize = 65_536;

/// How many lines are kept at most: there is always room for them.
const LINES_AT_ONCE: usize = OUTPUT_BYTES / LINE_ROOM;

const HEADER_LINE: &[u8] = b"guest,salt,pages,sample,digest,copies\n";

fn new_buffer<A: Allocator>(alloc: A) -> Result<Vec<u8, A>, AllocError>
    ensures { IfOk result (λ buffer. OUTPUT_BYTES ≤ vec_capacity buffer) }
{
    Vec::with_capacity(alloc, OUTPUT_BYTES)
}

/// Writes all of some bytes.
fn write_bytes<W: Write>(writer: &mut W, bytes: &[u8]) -> io::Result<()>
    ensures { IsSent (W.contents writer.old) (W.contents writer.new) bytes.now result }
{
    let mut done = 0;
    while done < bytes.len() {
        let count = writer.write(&bytes[done..])?;
        if count == 0 {
            return Err(io::Error::from(ErrorKind::WriteZero));
        }
        done += count;
    }
    Ok(())
}

/// Writes lines, as many as the buffer has room for.
fn write_some<W: Write, A: Allocator>(
    writer: &mut W,
    buffer: &mut Vec<u8, A>,
    head: &[u8],
    lines: &[DigestLine],
) -> io::Result<()>
    requires head { length head.now ≤ MAX_HEAD_BYTES }
    requires room { OUTPUT_BYTES ≤ vec_capacity buffer.old }
    requires few { length lines.now ≤ LINES_AT_ONCE }
    ensures sent { IsSent (W.contents writer.old) (W.contents writer.new) (lines_text head.now lines.now) result }
    ensures room { OUTPUT_BYTES ≤ vec_capacity buffer.new }
{
    buffer.clear();
    push_lines(buffer, head, lines);
    write_bytes(writer, buffer)
}

/// Writes all lines.
fn write_lines<W: Write, A: Allocator>(
    writer: &mut W,
    buffer: &mut Vec<u8, A>,
    head: &[u8],
    lines: &[DigestLine],
) -> io::Result<()>
    requires head { length head.now ≤ MAX_HEAD_BYTES }
    requires room { OUTPUT_BYTES ≤ vec_capacity buffer.old }
    ensures { IsSent (W.contents writer.old) (W.contents writer.new) (lines_text head.now lines.now) result }
{
    let mut done = 0;
    while done < lines.len() {
        let count = (lines.len() - done).min(LINES_AT_ONCE);
        write_some(writer, buffer, head, &lines[done..done + count])?;
        done += count;
    }
    Ok(())
}

/// Writes the header and all lines.
fn write_text<W: Write, A: Allocator>(
    writer: &mut W,
    buffer: &mut Vec<u8, A>,
    head: &[u8],
    lines: &[DigestLine],
) -> io::Result<()>
    requires head { length head.now ≤ MAX_HEAD_BYTES }
    requires room { OUTPUT_BYTES ≤ vec_capacity buffer.old }
    ensures { IsSent (W.contents writer.old) (W.contents writer.new) (header ++ (codes "\n" ++ lines_text head.now lines.now)) result }
{
    write_bytes(writer, HEADER_LINE)?;
    write_lines(writer, buffer, head, lines)
}

/// Writes the text of a guest's digests. All memory is taken before the first write, and it doesn't grow with the text.
pub fn write_digests<W: Write, A: Allocator, B: Allocator + Clone>(
    alloc: B,
    guest: &GuestName,
    digests: &GuestDigests<A>,
    writer: &mut W,
) -> Result<(), WriteFault>
    ensures { IsWritten (W.contents writer.old) (W.contents writer.new) (text_of guest.now digests.now) result }
{
    let mut buffer = new_buffer(alloc.clone()?)?;
    let head = head_text(alloc, guest, digests)?;
    match write_text(writer, &mut buffer, &head, &digests.lines) {
        Ok(()) => Ok(()),
        Err(error) => Err(WriteFault::Write(error)),
    }
}
