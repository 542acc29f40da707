//! The files that list one digest.
ghost use Rattle.std.specs.Prelude.{◌≡◌, ◌<◌, ◌≤◌, ◌==◌, ℕ, List, IfOk, IfSome, if◌then◌else◌, length, map, slice_index, IfErr};
ghost use Rattle.digest_text.specs.Fields.{Row};
ghost use Rattle.digest_text.specs.Unread.{rows_left, failure_of};
ghost use Rattle.fleet_census.specs.declared.merging.TheConstants.{MAX_DIGESTS};
ghost use Rattle.fleet_census.specs.States.{AreBehind, AreChained, AreOwn, IsTaken, AreReadOn, Said, passed};
ghost use Rattle.fleet_census.specs.Tournaments.{leaves};
ghost use Rattle.fleet_census.specs.Faults.{HasFailed};

use crate::FleetFault;
use crate::content::Holder;
use crate::entry::{Entry, NO_FILE};
use crate::files::read_entry;
use crate::tournament::Tournament;
use digest_text::DigestReader;
use std::alloc::Allocator;
use std::io::Read;

/// What an entry says of its guest. `zeros` has the digests of pages of zeros under the guests' salts.
fn holder_of(entry: Entry, zeros: &[u128]) -> Holder
    requires { entry.file < length zeros.now }
    ensures is { result ≡ record {
      file = entry.file;
      copies = entry.copies;
      zero =
          (if entry.digest == slice_index zeros.now entry.file then entry.copies else 0);
    } }
    ensures part { result.zero ≤ result.copies }
{
    let zero = if entry.digest == zeros[entry.file as usize] {
        entry.copies
    } else {
        0
    };
    Holder {
        file: entry.file,
        copies: entry.copies,
        zero,
    }
}

/// Takes the next line of all if it lists this digest, and reads that file on.
pub(crate) fn take_holder<R: Read + Drop, A: Allocator>(
    readers: &mut [DigestReader<R, A>],
    tournament: &mut Tournament<A>,
    zeros: &[u128],
    digest: u128,
) -> Result<Option<Holder>, FleetFault>
    requires few { length readers.old ≤ MAX_DIGESTS }
    requires files { tournament.old.files ≡ length readers.old }
    requires zeros { length zeros.now ≡ length readers.old }
    requires own { AreOwn (leaves tournament.old.files tournament.old.entries.items) }
    ensures files { tournament.new.files ≡ tournament.old.files }
    ensures own { AreOwn (leaves tournament.new.files tournament.new.entries.items) }
    ensures holder { IfOk result (λ found. IfSome found (λ holder. (holder.file < length readers.old) × (holder.zero ≤ holder.copies))) }
    ensures failed { IfErr result (HasFailed (map failure_of readers.new)) }
    ensures read { (files : List Said) → length files ≡ length readers.old → AreChained files (length files)
        (leaves tournament.old.files tournament.old.entries.items) (map (rows_left R.remaining) readers.old)
        → AreReadOn files (length files) (leaves tournament.new.files tournament.new.entries.items) (map (rows_left R.remaining) readers.new) result }
    ensures taken { (fleet : List (List Row)) (count : ℕ) → length fleet ≡ length readers.old
        → AreBehind fleet (passed digest count) (leaves tournament.old.files tournament.old.entries.items) (map
        (rows_left R.remaining) readers.old)
        → IsTaken fleet digest count zeros.now (leaves tournament.new.files tournament.new.entries.items) (map
        (rows_left R.remaining) readers.new) result }
{
    let first = tournament.first();
    if first.file == NO_FILE || first.digest != digest {
        return Ok(None);
    }
    let holder = holder_of(first, zeros);
    match read_entry(readers, first.file as usize) {
        Ok(next) => {
            tournament.put(first.file as usize, next);
            Ok(Some(holder))
        }
        Err(fault) => Err(fault),
    }
}
