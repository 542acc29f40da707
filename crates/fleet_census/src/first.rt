//! The first line of a file.
ghost use Rattle.std.specs.Prelude.{◌≡◌, ◌<◌, ℕ, IfOk, IfSome, IfErr};
ghost use Rattle.digest_text.specs.Unread.{rows_left, failure_of};
ghost use Rattle.fleet_census.specs.declared.merging.TheConstants.{MAX_DIGESTS};
ghost use Rattle.fleet_census.specs.Openings.{IsFirstRead};
ghost use Rattle.fleet_census.specs.States.{IsOwn};
ghost use Rattle.fleet_census.specs.Faults.{IsFailureOf};

use crate::FleetFault;
use crate::entry::{AT_END, Entry};
use crate::files::fault_of;
use digest_text::{DigestHead, DigestReader};
use std::alloc::Allocator;
use std::io::Read;

/// What a file's first line says of its guest. A file without lines says nothing.
#[derive(Clone, Copy)]
pub(crate) struct First {
    pub(crate) entry: Entry,
    pub(crate) salt: u32,
    pub(crate) pages: u64,
    /// The sample, or 0 if there is no line.
    pub(crate) every: u32,
}

/// What a line and its head say.
fn first_of(entry: Entry, head: Option<&DigestHead>) -> First
    ensures entry { result.entry ≡ entry }
    ensures head { IfSome head.entry (λ head. (result.salt ≡ head.now.salt) × (result.pages ≡ head.now.pages)
        × (result.every ≡ head.now.sample)) }
{
    match head {
        Some(head) => First {
            entry,
            salt: head.salt,
            pages: head.pages,
            every: head.sample.get(),
        },
        None => First {
            entry,
            salt: 0,
            pages: 0,
            every: 0,
        },
    }
}

/// Reads the first line of a file.
pub(crate) fn read_first<R: Read + Drop, A: Allocator>(
    reader: &mut DigestReader<R, A>,
    file: usize,
) -> Result<First, FleetFault>
    requires { file < MAX_DIGESTS }
    ensures own { IfOk result (λ first. IsOwn file first.entry) }
    ensures failed { IfErr result (IsFailureOf file (failure_of reader.new)) }
    ensures read { IfSome (rows_left R.remaining reader.old) (λ said. IsFirstRead file said (rows_left R.remaining reader.new) result) }
{
    match reader.next_line() {
        Ok(Some(line)) => {
            let entry = Entry {
                digest: line.digest,
                copies: line.copies,
                file: file as u32,
            };
            Ok(first_of(entry, reader.head()))
        }
        Ok(None) => Ok(First {
            entry: AT_END,
            salt: 0,
            pages: 0,
            every: 0,
        }),
        Err(fault) => Err(fault_of(file, fault)),
    }
}
