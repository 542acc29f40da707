//! The first lines of all files.
ghost use Rattle.std.specs.Prelude.{◌≡◌, ◌+◌, ◌<◌, ◌≤◌, ℕ, List, [], IfOk, length, map, max, slice_index_or, vec_capacity, vec_len, IfErr};
ghost use Rattle.digest_text.specs.Fields.{Row};
ghost use Rattle.digest_text.specs.Unread.{rows_left, failure_of};
ghost use Rattle.guest_digests.specs.Samples.{zeros_digest};
ghost use Rattle.fleet_census.specs.declared.merging.TheConstants.{MAX_DIGESTS};
ghost use Rattle.fleet_census.specs.Fleets.{lines_of};
ghost use Rattle.fleet_census.specs.Openings.{AreWhole, IsJoined, IsOpen, IsOpenTo};
ghost use Rattle.fleet_census.specs.States.{AreChained, AreOwn, From, AreReadOn, Said};
ghost use Rattle.fleet_census.specs.Tournaments.{leaves};
ghost use Rattle.fleet_census.specs.Faults.{HasFailed};

use crate::first::{First, read_first};
use crate::tournament::Tournament;
use crate::{Amount, FleetFault, FleetGuest};
use digest_text::DigestReader;
use page_digest::digest_content;
use page_model::PAGE_BYTES;
use std::alloc::Allocator;
use std::io::Read;

/// What the first lines say together.
#[derive(Clone, Copy)]
pub(crate) struct Opening {
    /// The sample of all files, or 0 if none has a line.
    pub(crate) every: u32,
    /// How many pages the guests have.
    pub(crate) pages: u64,
}

impl Opening {
    /// Returns the sample of all files, or 1 if none has a line.
    pub(crate) fn sample(self) -> u32
        ensures { result ≡ max self.every 1 }
    {
        self.every.max(1)
    }

    /// Adds what one more file says.
    fn with(self, file: usize, first: &First) -> Result<Opening, FleetFault>
        ensures { IsJoined self first.now file result }
    {
        if self.every != 0 && first.every != 0 && self.every != first.every {
            return Err(FleetFault::OtherSample(file));
        }
        let Some(pages) = self.pages.checked_add(first.pages) else {
            return Err(FleetFault::TooManyPages);
        };
        let every = if self.every == 0 {
            first.every
        } else {
            self.every
        };
        Ok(Opening { every, pages })
    }
}

/// Returns the digest of a page of zeros.
fn zeros_digest(salt: u32) -> u128
    ensures { result ≡ zeros_digest salt }
{
    digest_content(salt, &[0; PAGE_BYTES])
}

/// Opens one more file: reads its first line.
fn open_next<R: Read + Drop, A: Allocator>(
    readers: &mut [DigestReader<R, A>],
    tournament: &mut Tournament<A>,
    zeros: &mut Vec<u128, A>,
    guests: &mut Vec<FleetGuest, A>,
    opening: Opening,
    file: usize,
) -> Result<Opening, FleetFault>
    requires within { file < length readers.old }
    requires few { length readers.old ≤ MAX_DIGESTS }
    requires files { tournament.old.files ≡ length readers.old }
    requires own { AreOwn (leaves tournament.old.files tournament.old.entries.items) }
    requires lens { (vec_len zeros.old ≡ file) × (vec_len guests.old ≡ file) }
    requires room { (length readers.old ≤ vec_capacity zeros.old) × (length readers.old ≤ vec_capacity guests.old) }
    ensures files { tournament.new.files ≡ tournament.old.files }
    ensures own { AreOwn (leaves tournament.new.files tournament.new.entries.items) }
    ensures lens { IfOk result (λ opening. (vec_len zeros.new ≡ file + 1) × (vec_len guests.new ≡ file + 1)) }
    ensures room { (vec_capacity zeros.new ≡ vec_capacity zeros.old) × (vec_capacity guests.new ≡ vec_capacity guests.old) }
    ensures failed { IfErr result (HasFailed (map failure_of readers.new)) }
    ensures read { (files : List Said) → length files ≡ length readers.old → AreChained files file
        (leaves tournament.old.files tournament.old.entries.items) (map (rows_left R.remaining) readers.old)
        → AreReadOn files (file + 1) (leaves tournament.new.files tournament.new.entries.items) (map (rows_left R.remaining) readers.new) result }
    ensures opened { (fleet : List (List Row)) → length fleet ≡ length readers.old → From 0 (lines_of (slice_index_or fleet file []))
        → IsOpenTo fleet file (leaves tournament.old.files tournament.old.entries.items) (map (rows_left R.remaining) readers.old)
        zeros.old.items guests.old.items opening
        → IsOpen fleet (file + 1) (leaves tournament.new.files tournament.new.entries.items) (map (rows_left R.remaining) readers.new)
        zeros.new.items guests.new.items result }
{
    match read_first(&mut readers[file], file) {
        Ok(first) => {
            tournament.put(file, first.entry);
            zeros.push_reserved(zeros_digest(first.salt));
            guests.push_reserved(FleetGuest {
                pages: first.pages,
                zero: 0,
                distinct: Amount::NOTHING,
                shared: Amount::NOTHING,
                alone: Amount::NOTHING,
            });
            opening.with(file, &first)
        }
        Err(fault) => Err(fault),
    }
}

/// Reads the first line of each file. `zeros` gets the digests of pages of zeros under the guests' salts, and `guests` the
/// guests' numbers without contents.
pub(crate) fn open<R: Read + Drop, A: Allocator>(
    readers: &mut [DigestReader<R, A>],
    tournament: &mut Tournament<A>,
    zeros: &mut Vec<u128, A>,
    guests: &mut Vec<FleetGuest, A>,
) -> Result<Opening, FleetFault>
    requires few { length readers.old ≤ MAX_DIGESTS }
    requires files { tournament.old.files ≡ length readers.old }
    requires own { AreOwn (leaves tournament.old.files tournament.old.entries.items) }
    requires empty { (zeros.old.items ≡ []) × (guests.old.items ≡ []) }
    requires room { (length readers.old ≤ vec_capacity zeros.old) × (length readers.old ≤ vec_capacity guests.old) }
    ensures files { tournament.new.files ≡ tournament.old.files }
    ensures own { AreOwn (leaves tournament.new.files tournament.new.entries.items) }
    ensures lens { IfOk result (λ opening. (vec_len zeros.new ≡ length readers.old) × (vec_len guests.new ≡ length readers.old)) }
    ensures failed { IfErr result (HasFailed (map failure_of readers.new)) }
    ensures read { (files : List Said) → length files ≡ length readers.old → AreChained files 0
        (leaves tournament.old.files tournament.old.entries.items) (map (rows_left R.remaining) readers.old)
        → AreReadOn files (length files) (leaves tournament.new.files tournament.new.entries.items) (map (rows_left R.remaining) readers.new) result }
    ensures opened { (fleet : List (List Row)) → length fleet ≡ length readers.old → AreWhole fleet (map (rows_left R.remaining) readers.old)
        → IsOpen fleet (length fleet) (leaves tournament.new.files tournament.new.entries.items) (map (rows_left R.remaining) readers.new)
        zeros.new.items guests.new.items result }
{
    let mut opening = Opening { every: 0, pages: 0 };
    for file in 0..readers.len() {
        match open_next(readers, tournament, zeros, guests, opening, file) {
            Ok(more) => opening = more,
            Err(fault) => return Err(fault),
        }
    }
    Ok(opening)
}
