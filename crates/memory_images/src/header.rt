//! The headers of an ELF file of 64 bits.
ghost use Rattle.std.specs.Prelude.{◌≡◌, ◌<◌, ◌^◌, Bool};
ghost use Rattle.memory_images.specs.Headers.{header_of, program_header_of};

use crate::FormFault;
use crate::parts::{Header, ProgramHeader};
use crate::word::{u16_at, u32_at, u64_at};

/// The size of an ELF header.
pub(crate) const HEADER_BYTES: usize = 64;

/// The size of a program header.
pub(crate) const PROGRAM_HEADER_BYTES: usize = 56;

/// The size of a section header.
pub(crate) const SECTION_HEADER_BYTES: usize = 64;

/// Reads the ELF header of a core of 64 bits, little-endian.
#[tactic(auto, unfolding(crate::specs::Headers::header_of))]
pub(crate) fn read_header(bytes: &[u8; 64]) -> Result<Header, FormFault>
    ensures { result ≡ header_of bytes.now }
{
    if bytes[4] != 2 {
        return Err(FormFault::Class);
    }
    if bytes[5] != 1 {
        return Err(FormFault::ByteOrder);
    }
    if u16_at(bytes, 16) != 4 {
        return Err(FormFault::FileType);
    }
    if u16_at(bytes, 54) != 56 {
        return Err(FormFault::EntrySize);
    }
    Ok(Header {
        table: u64_at(bytes, 32),
        count: u16_at(bytes, 56),
        sections: u64_at(bytes, 40),
        section_bytes: u16_at(bytes, 58),
    })
}

/// Reads a program header.
#[tactic(auto, unfolding(crate::specs::Headers::program_header_of))]
pub(crate) fn read_program_header(bytes: &[u8; 56]) -> ProgramHeader
    ensures { result ≡ program_header_of bytes.now }
{
    ProgramHeader {
        kind: u32_at(bytes, 0),
        offset: u64_at(bytes, 8),
        file_bytes: u64_at(bytes, 32),
    }
}
