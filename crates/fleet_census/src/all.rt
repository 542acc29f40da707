//! All contents, counted one after the other.
ghost use Rattle.std.specs.Prelude.{◌≡◌, ◌<◌, ◌≤◌, ℕ, List, length, map, vec_capacity, vec_len, IfErr};
ghost use Rattle.digest_text.specs.Fields.{Row};
ghost use Rattle.digest_text.specs.Unread.{rows_left, failure_of};
ghost use Rattle.fleet_census.specs.declared.merging.TheConstants.{MAX_DIGESTS};
ghost use Rattle.fleet_census.specs.Gathers.{AreZeros};
ghost use Rattle.fleet_census.specs.Merged.{IsCounted};
ghost use Rattle.fleet_census.specs.Pairs.{row_lengths, rows_of};
ghost use Rattle.fleet_census.specs.States.{AreBehind, AreChained, AreOwn, IsReadWhole, Said};
ghost use Rattle.fleet_census.specs.Tallies.{AreTallied};
ghost use Rattle.fleet_census.specs.Tournaments.{leaves};
ghost use Rattle.fleet_census.specs.Faults.{HasFailed};

use crate::FleetFault;
use crate::content::Holder;
use crate::entry::NO_FILE;
use crate::gather::gather;
use crate::tally::Tally;
use crate::tournament::Tournament;
use digest_text::DigestReader;
use std::alloc::Allocator;
use std::io::Read;

/// Counts one content after the other, the least digest first, until all files are at their end. Each content has a page at least,
/// so that there are 2^64 pages if a content is left after all turns.
pub(crate) fn count_all<R: Read + Drop, A: Allocator>(
    readers: &mut [DigestReader<R, A>],
    tournament: &mut Tournament<A>,
    zeros: &[u128],
    holders: &mut Vec<Holder, A>,
    tally: &mut Tally<A>,
    every: u32,
) -> Result<(), FleetFault>
    requires few { length readers.old ≤ MAX_DIGESTS }
    requires files { tournament.old.files ≡ length readers.old }
    requires zeros { length zeros.now ≡ length readers.old }
    requires own { AreOwn (leaves tournament.old.files tournament.old.entries.items) }
    requires room { length readers.old ≤ vec_capacity holders.old }
    requires guests { vec_len tally.old.guests ≡ length readers.old }
    requires classes { vec_len tally.old.classes ≡ 65 }
    requires every { 1 ≤ every }
    ensures guests { vec_len tally.new.guests ≡ length readers.old }
    ensures classes { vec_len tally.new.classes ≡ 65 }
    ensures lengths { row_lengths (rows_of tally.new.pairs.items) ≡ row_lengths (rows_of tally.old.pairs.items) }
    ensures failed { IfErr result (HasFailed (map failure_of readers.new)) }
    ensures read { (files : List Said) → length files ≡ length readers.old → AreChained files (length files)
        (leaves tournament.old.files tournament.old.entries.items) (map (rows_left R.remaining) readers.old) → IsReadWhole files result }
    ensures counted { (fleet : List (List Row)) → length fleet ≡ length readers.old → AreZeros fleet zeros.now
        → AreBehind fleet (λ file. 0) (leaves tournament.old.files tournament.old.entries.items) (map (rows_left R.remaining) readers.old)
        → AreTallied fleet every 0 tally.old → IsCounted fleet every tally.new result }
{
    for _turn in 0..u64::MAX {
        let first = tournament.first();
        if first.file == NO_FILE {
            return Ok(());
        }
        match gather(readers, tournament, zeros, first.digest, holders) {
            Ok(content) => {
                if !tally.count(every, &content, holders) {
                    return Err(FleetFault::TooManyPages);
                }
            }
            Err(fault) => return Err(fault),
        }
    }
    let last = tournament.first();
    if last.file == NO_FILE {
        Ok(())
    } else {
        Err(FleetFault::TooManyPages)
    }
}
