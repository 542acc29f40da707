//! The merge.
ghost use Rattle.std.specs.Prelude.{◌≡◌, ◌<◌, ◌≤◌, ℕ, List, Err, IfOk, Some, [], length, map, replicate, vec_capacity, vec_len, IfErr};
ghost use Rattle.std.specs.List.{range_with_len};
ghost use Rattle.digest_text.specs.Fields.{Row};
ghost use Rattle.digest_text.specs.Unread.{rows_left, failure_of};
ghost use Rattle.fleet_census.specs.Classes.{no_contents};
ghost use Rattle.fleet_census.specs.Numbers.{IsAllCounted, IsMerged};
ghost use Rattle.fleet_census.specs.Openings.{AreWhole};
ghost use Rattle.fleet_census.specs.Pairs.{row_lengths, rows_of};
ghost use Rattle.fleet_census.specs.States.{IsReadWhole, Said};
ghost use Rattle.fleet_census.specs.Tallies.{IsNew};
ghost use Rattle.fleet_census.specs.Tournaments.{leaves};
ghost use Rattle.fleet_census.specs.declared.entry.TheConstants.{AT_END};
ghost use Rattle.fleet_census.specs.declared.fault.FleetFault.{FleetFault};
ghost use Rattle.fleet_census.specs.Faults.{HasFailed};

use crate::all::count_all;
use crate::class::{CLASSES, push_classes};
use crate::content::Holder;
use crate::open::open;
use crate::tally::Tally;
use crate::tournament::Tournament;
use crate::{FleetFault, FleetNumbers, Pairs};
use digest_text::DigestReader;
use std::alloc::Allocator;
use std::io::Read;

/// The most digests of one merge.
pub const MAX_DIGESTS: usize = 65_536;

/// Counts what the digests list together, and, if asked, what each two guests have in common. The guests are in the readers'
/// order. A digest is read once, and what is kept of all of them doesn't grow with their length.
///
/// If several digests are at fault, any of them may be the one that is reported; and none of their lines is read if there are more
/// than `MAX_DIGESTS`.
pub fn merge<R: Read + Drop, A: Allocator + Copy>(
    alloc: A,
    readers: &mut [DigestReader<R, A>],
    pairs: Pairs,
) -> Result<FleetNumbers<A>, FleetFault>
    requires some { 1 ≤ length readers.old }
    ensures few { MAX_DIGESTS < length readers.old → result ≡ Err FleetFault.TooManyDigests }
    ensures failed { IfErr result (HasFailed (map failure_of readers.new)) }
    ensures merged { (files : List Said) → map (rows_left R.remaining) readers.old ≡ map Some files → IsMerged files pairs result }
{
    let files = readers.len();
    if files > MAX_DIGESTS {
        return Err(FleetFault::TooManyDigests);
    }
    let tournament = Tournament::new(alloc, files)?;
    let zeros = Vec::with_capacity(alloc, files)?;
    let holders = Vec::with_capacity(alloc, files)?;
    let mut copies = Vec::with_capacity(alloc, CLASSES)?;
    let mut tally = Tally::new(alloc, files, pairs)?;
    match count_files(readers, tournament, zeros, holders, &mut tally) {
        Ok(sample) => {
            push_classes(&mut copies, &tally.classes);
            Ok(FleetNumbers {
                sample,
                guests: tally.guests,
                total: tally.total,
                copies,
                pairs: tally.pairs,
            })
        }
        Err(fault) => Err(fault),
    }
}

/// Counts all digests of the files, and returns their sample.
fn count_files<R: Read + Drop, A: Allocator>(
    readers: &mut [DigestReader<R, A>],
    mut tournament: Tournament<A>,
    mut zeros: Vec<u128, A>,
    mut holders: Vec<Holder, A>,
    tally: &mut Tally<A>,
) -> Result<u32, FleetFault>
    requires few { length readers.old ≤ MAX_DIGESTS }
    requires files { tournament.files ≡ length readers.old }
    requires ended { leaves tournament.files tournament.entries.items ≡ replicate (length readers.old) AT_END }
    requires empty { zeros.items ≡ [] }
    requires room { (length readers.old ≤ vec_capacity zeros) × (length readers.old ≤ vec_capacity holders) }
    requires new { IsNew (length readers.old) tally.old }
    ensures lens { IfOk result (λ _. (vec_len tally.new.guests ≡ length readers.old) × (vec_len tally.new.classes ≡ CLASSES)) }
    ensures lengths { IfOk result (λ _. row_lengths (rows_of tally.new.pairs.items) ≡ row_lengths (rows_of tally.old.pairs.items)) }
    ensures failed { IfErr result (HasFailed (map failure_of readers.new)) }
    ensures read { (files : List Said) → map (rows_left R.remaining) readers.old ≡ map Some files → IsReadWhole files result }
    ensures counted { (fleet : List (List Row)) → length fleet ≡ length readers.old → AreWhole fleet (map (rows_left R.remaining) readers.old)
        → IsAllCounted fleet tally.new result }
{
    let opening = match open(readers, &mut tournament, &mut zeros, &mut tally.guests) {
        Ok(opening) => opening,
        Err(fault) => return Err(fault),
    };
    tally.total.pages = opening.pages;
    let sample = opening.sample();
    match count_all(
        readers,
        &mut tournament,
        &zeros,
        &mut holders,
        tally,
        sample,
    ) {
        Ok(()) => Ok(sample),
        Err(fault) => Err(fault),
    }
}
