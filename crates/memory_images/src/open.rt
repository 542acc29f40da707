//! Images of files.
ghost use Rattle.std.specs.Prelude.{◌≡◌, ◌<◌, ◌≤◌, ◌^◌, IfOk, IfErr, OnOk, Some, None, length};
ghost use Rattle.memory_images.specs.Images as said;
ghost use Rattle.memory_images.specs.Pages.{AreStarts, AreWithin, count_of};
ghost use Rattle.memory_images.specs.Answers.{Answers, HasNoForm};
ghost use Rattle.memory_images.specs.Views.{reader_of, segments_of};

use crate::elf::{core_segments, read_part};
use crate::pages::page_count;
use crate::{FormFault, Image, ImageFault, ReadAt, Segment};
use std::alloc::{AllocError, Allocator};

/// What an ELF file begins with.
const MAGIC: [u8; 4] = [0x7f, 0x45, 0x4c, 0x46];

impl<R: ReadAt + Drop, A: Allocator + Clone> Image<R, A> {
    /// Makes the image of a raw file, whatever it begins with: page n is its bytes 4096n to 4096n + 4095.
    pub fn raw(alloc: A, reader: R) -> Result<Image<R, A>, ImageFault<R::Fault>>
        ensures read { Answers segments_of result (said.raw_of (R.bytes reader)) }
        ensures reader { IfOk result (λ image. reader_of image ≡ reader) }
    {
        let segments = whole_file(alloc.clone()?, reader.len())?;
        Image::of_segments(alloc, reader, segments)
    }

    /// Makes the image of a file: of an ELF core if it begins as an ELF file, and else of a raw file.
    pub fn open(alloc: A, reader: R) -> Result<Image<R, A>, ImageFault<R::Fault>>
        ensures read { R.is_steady reader → Answers segments_of result (said.image_of (R.bytes reader)) }
        ensures reader { IfOk result (λ image. reader_of image ≡ reader) }
    {
        let segments = file_segments(alloc.clone()?, &reader)?;
        Image::of_segments(alloc, reader, segments)
    }

    /// Makes the image of these segments of what is read, unless they have too many pages.
    pub fn of_segments(
        alloc: A,
        reader: R,
        segments: Vec<Segment, A>,
    ) -> Result<Image<R, A>, ImageFault<R::Fault>>
        requires within { AreWithin (length (R.bytes reader)) segments.items }
        requires fits { length (R.bytes reader) < 2 ^ 64 }
        ensures read { Answers segments_of result (said.few segments.items) }
        ensures reader { IfOk result (λ image. reader_of image ≡ reader) }
    {
        let Some(count) = count_pages(&segments) else {
            return Err(ImageFault::Form(FormFault::TooManyPages));
        };
        let starts = starts_of(alloc, &segments)?;
        Ok(Image {
            reader,
            segments,
            starts,
            count,
        })
    }
}

/// Finds the segments of a file.
fn file_segments<R: ReadAt, A: Allocator>(
    alloc: A,
    reader: &R,
) -> Result<Vec<Segment, A>, ImageFault<R::Fault>>
    ensures read { R.is_steady reader.now → Answers (λ segments. segments.items) result (said.file_segments (R.bytes reader.now)) }
    ensures within { IfOk result (λ segments. AreWithin (length (R.bytes reader.now)) segments.items) }
    ensures fits { length (R.bytes reader.now) < 2 ^ 64 }
{
    let size = reader.len();
    if is_elf(reader)? {
        return core_segments(alloc, reader);
    }
    Ok(whole_file(alloc, size)?)
}

/// Whether a file begins as an ELF file.
#[tactic(auto, unfolding(crate::specs::Images::is_elf))]
fn is_elf<R: ReadAt>(reader: &R) -> Result<bool, ImageFault<R::Fault>>
    ensures fault { IfErr result (λ fault. HasNoForm fault) }
    ensures read { IfOk result (λ yes. R.is_steady reader.now → yes ≡ said.is_elf (R.bytes reader.now)) }
{
    if reader.len() < MAGIC.len() as u64 {
        return Ok(false);
    }
    let mut bytes = [0; 4];
    read_part(reader, 0, &mut bytes)?;
    Ok(bytes == MAGIC)
}

/// Returns all bytes of a file as one segment.
fn whole_file<A: Allocator>(alloc: A, len: u64) -> Result<Vec<Segment, A>, AllocError>
    ensures { IfOk result (λ segments. segments.items ≡ said.whole_file len) }
{
    let mut segments = Vec::new(alloc);
    segments.push(Segment { offset: 0, len })?;
    Ok(segments)
}

/// Returns the number of pages of these segments, or `None` if it is more than 4,294,967,295.
fn count_pages(segments: &[Segment]) -> Option<u32>
    ensures { result ≡ said.counted (count_of segments.now) }
{
    let mut count: u64 = 0;
    for segment in segments {
        count += page_count(segment.len);
        if count > u64::from(u32::MAX) {
            return None;
        }
    }
    Some(count as u32)
}

/// Returns how many pages come before each segment.
fn starts_of<A: Allocator>(alloc: A, segments: &[Segment]) -> Result<Vec<u32, A>, AllocError>
    requires few { count_of segments.now < 2 ^ 32 }
    ensures { IfOk result (λ starts. AreStarts segments.now starts.items) }
{
    let mut starts = Vec::with_capacity(alloc, segments.len())?;
    let mut count = 0;
    for segment in segments {
        starts.push_reserved(count);
        count += page_count(segment.len) as u32;
    }
    Ok(starts)
}
