//! Files that are read on, one line at a time.
ghost use Rattle.std.specs.Prelude.{◌≡◌, ◌<◌, ◌≤◌, ℕ, IfOk, length, map, IfErr};
ghost use Rattle.digest_text.specs.Unread.{rows_left, failure_of};
ghost use Rattle.fleet_census.specs.declared.merging.TheConstants.{MAX_DIGESTS};
ghost use Rattle.fleet_census.specs.States.{IsOwn, IsReadOn};
ghost use Rattle.fleet_census.specs.Faults.{fault_of, HasFailed};

use crate::FleetFault;
use crate::entry::{AT_END, Entry};
use digest_text::{DigestReader, ReadFault};
use std::alloc::Allocator;
use std::io::Read;

/// A fault of a file's reader, with the file's number.
pub(crate) fn fault_of(file: usize, fault: ReadFault) -> FleetFault
    ensures { result ≡ fault_of file fault }
{
    match fault {
        ReadFault::OutOfMemory => FleetFault::OutOfMemory,
        ReadFault::Read(error) => FleetFault::Read(file, error),
        ReadFault::Line(line) => FleetFault::Line(file, line),
    }
}

/// Reads the next line of a file.
pub(crate) fn read_entry<R: Read + Drop, A: Allocator>(
    readers: &mut [DigestReader<R, A>],
    file: usize,
) -> Result<Entry, FleetFault>
    requires within { file < length readers.old }
    requires few { length readers.old ≤ MAX_DIGESTS }
    ensures own { IfOk result (λ entry. IsOwn file entry) }
    ensures failed { IfErr result (HasFailed (map failure_of readers.new)) }
    ensures read { IsReadOn file (map (rows_left R.remaining) readers.old) (map (rows_left R.remaining) readers.new) result }
{
    match readers[file].next_line() {
        Ok(Some(line)) => Ok(Entry {
            digest: line.digest,
            copies: line.copies,
            file: file as u32,
        }),
        Ok(None) => Ok(AT_END),
        Err(fault) => Err(fault_of(file, fault)),
    }
}
