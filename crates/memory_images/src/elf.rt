//! The segments of an ELF core.
ghost use Rattle.std.specs.Prelude.{◌≡◌, ◌+◌, ◌*◌, ◌≤◌, ◌<◌, ◌^◌, ◌++◌, IfOk, IfErr, OnOk, nat_le, length};
ghost use Rattle.memory_images.specs.Words.{part};
ghost use Rattle.memory_images.specs.Headers.{header_of};
ghost use Rattle.memory_images.specs.Images as said;
ghost use Rattle.memory_images.specs.Pages.{AreWithin};
ghost use Rattle.memory_images.specs.Answers.{Answers, HasNoForm};

use crate::header::{
    HEADER_BYTES, PROGRAM_HEADER_BYTES, SECTION_HEADER_BYTES, read_header, read_program_header,
};
use crate::parts::{Header, ProgramHeader};
use crate::word::u32_at;
use crate::{FormFault, ImageFault, ReadAt, Segment};
use std::alloc::{AllocFailed, Allocator};

/// The number of program headers in an ELF header that has no room for the actual one.
const MANY: u16 = 65535;

/// The type of a segment to load, `PT_LOAD`.
const LOAD: u32 = 1;

/// Finds the segments of an ELF core.
pub(crate) fn core_segments<R: ReadAt, A: Allocator>(
    alloc: A,
    reader: &R,
) -> Result<Vec<Segment, A>, ImageFault<R::Fault>>
    ensures read { R.is_steady reader.now
        → Answers (λ segments. segments.items) result (said.core_segments (R.bytes reader.now)) }
    ensures within { IfOk result (λ segments. AreWithin (length (R.bytes reader.now)) segments.items) }
{
    let header = core_header(reader)?;
    let count = table_count(reader, header)?;
    table_segments(alloc, reader, header.table, count)
}

/// Reads the ELF header of a file.
#[tactic(auto, unfolding(crate::specs::Images::core_header))]
fn core_header<R: ReadAt>(reader: &R) -> Result<Header, ImageFault<R::Fault>>
    ensures { R.is_steady reader.now → Answers (λ header. header) result (said.core_header (R.bytes reader.now)) }
{
    if reader.len() < HEADER_BYTES as u64 {
        return Err(ImageFault::Form(FormFault::CutHeader));
    }
    let mut bytes = [0; HEADER_BYTES];
    read_part(reader, 0, &mut bytes)?;
    match read_header(&bytes) {
        Ok(header) => Ok(header),
        Err(fault) => Err(ImageFault::Form(fault)),
    }
}

/// Finds the number of program headers.
#[tactic(auto, unfolding(crate::specs::Images::table_count))]
fn table_count<R: ReadAt>(reader: &R, header: Header) -> Result<u32, ImageFault<R::Fault>>
    ensures { R.is_steady reader.now → Answers (λ count. count) result (said.table_count (R.bytes reader.now) header) }
{
    if header.count != MANY {
        return Ok(u32::from(header.count));
    }
    if !has_section(reader.len(), header) {
        return Err(ImageFault::Form(FormFault::CutSection));
    }
    let mut bytes = [0; SECTION_HEADER_BYTES];
    read_part(reader, header.sections, &mut bytes)?;
    Ok(u32_at(&bytes, 44))
}

/// Whether section header 0 is within a file of `size` bytes.
fn has_section(size: u64, header: Header) -> bool
    ensures { result ≡ said.has_section size header }
{
    header.sections != 0
        && header.section_bytes as usize == SECTION_HEADER_BYTES
        && is_within(size, header.sections, SECTION_HEADER_BYTES as u64)
}

/// Whether `len` bytes from `at` on are within a file of `size` bytes.
fn is_within(size: u64, at: u64, len: u64) -> bool
    ensures { result ≡ nat_le (at + len) size }
{
    at <= size && len <= size - at
}

/// Finds the segments of a table of `count` program headers.
#[tactic(auto, unfolding(crate::specs::Images::table_segments))]
fn table_segments<R: ReadAt, A: Allocator>(
    alloc: A,
    reader: &R,
    table: u64,
    count: u32,
) -> Result<Vec<Segment, A>, ImageFault<R::Fault>>
    ensures read { R.is_steady reader.now
        → Answers (λ segments. segments.items) result (said.table_segments (R.bytes reader.now) table count) }
    ensures within { IfOk result (λ segments. AreWithin (length (R.bytes reader.now)) segments.items) }
{
    let size = reader.len();
    if !is_within(size, table, u64::from(count) * PROGRAM_HEADER_BYTES as u64) {
        return Err(ImageFault::Form(FormFault::CutTable));
    }
    let segments = loads(alloc, reader, table, count)?;
    if !are_whole(size, &segments) {
        return Err(ImageFault::Form(FormFault::CutSegment));
    }
    Ok(segments)
}

/// Finds the segments to load, in the order of their program headers.
fn loads<R: ReadAt, A: Allocator>(
    alloc: A,
    reader: &R,
    table: u64,
    count: u32,
) -> Result<Vec<Segment, A>, ImageFault<R::Fault>>
    requires within { table + 56 * count ≤ length (R.bytes reader.now) }
    requires fits { length (R.bytes reader.now) < 2 ^ 64 }
    ensures fault { IfErr result (λ fault. HasNoForm fault) }
    ensures read { IfOk result (λ segments. R.is_steady reader.now → segments.items ≡ said.loads (R.bytes reader.now) table count) }
{
    let mut segments = Vec::new(alloc);
    for n in 0..count {
        let header = program_header(reader, table, n)?;
        push_load(&mut segments, header)?;
    }
    Ok(segments)
}

/// Appends the segment of a program header, if there is one to load.
fn push_load<A: Allocator>(
    segments: &mut Vec<Segment, A>,
    header: ProgramHeader,
) -> Result<(), AllocFailed<Segment>>
    ensures { OnOk result (segments.new.items ≡ segments.old.items ++ said.loaded header) }
{
    if is_load(header) {
        segments.push(segment_of(header))?;
    }
    Ok(())
}

/// Reads program header `n` of the table.
fn program_header<R: ReadAt>(
    reader: &R,
    table: u64,
    n: u32,
) -> Result<ProgramHeader, ImageFault<R::Fault>>
    requires within { table + 56 * (n + 1) ≤ length (R.bytes reader.now) }
    requires fits { length (R.bytes reader.now) < 2 ^ 64 }
    ensures fault { IfErr result (λ fault. HasNoForm fault) }
    ensures read { IfOk result (λ header. R.is_steady reader.now → header ≡ said.program_header (R.bytes reader.now) table n) }
{
    let mut bytes = [0; PROGRAM_HEADER_BYTES];
    let at = table + u64::from(n) * PROGRAM_HEADER_BYTES as u64;
    read_part(reader, at, &mut bytes)?;
    Ok(read_program_header(&bytes))
}

/// Whether a program header describes bytes to load.
fn is_load(header: ProgramHeader) -> bool
    ensures { result ≡ said.is_load header }
{
    header.kind == LOAD && header.file_bytes != 0
}

/// Returns the segment that a program header describes.
fn segment_of(header: ProgramHeader) -> Segment
    ensures { result ≡ said.segment_of header }
{
    Segment {
        offset: header.offset,
        len: header.file_bytes,
    }
}

/// Whether each segment lies whole within a file of `size` bytes.
fn are_whole(size: u64, segments: &[Segment]) -> bool
    ensures { result ≡ said.are_whole size segments.now }
{
    for segment in segments {
        if !is_within(size, segment.offset, segment.len) {
            return false;
        }
    }
    true
}

/// Reads bytes into the list until it is full, from byte `at` on.
pub(crate) fn read_part<R: ReadAt>(
    reader: &R,
    at: u64,
    into: &mut [u8],
) -> Result<(), ImageFault<R::Fault>>
    requires within { at + length into.old ≤ length (R.bytes reader.now) }
    ensures read { OnOk result (R.is_steady reader.now → into.new ≡ part (R.bytes reader.now) at (length into.old)) }
    ensures fault { IfErr result (λ fault. HasNoForm fault) }
{
    match reader.read_at(at, into) {
        Ok(()) => Ok(()),
        Err(fault) => Err(ImageFault::Read(fault)),
    }
}
