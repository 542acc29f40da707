//! All that the files list of one digest.
ghost use Rattle.std.specs.Prelude.{◌≡◌, ◌+◌, ◌<◌, ◌≤◌, ◌^◌, ℕ, List, All, IfOk, MatchOption, length, map, vec_capacity, IfErr};
ghost use Rattle.digest_text.specs.Fields.{Row};
ghost use Rattle.digest_text.specs.Unread.{rows_left, failure_of};
ghost use Rattle.fleet_census.specs.declared.merging.TheConstants.{MAX_DIGESTS};
ghost use Rattle.fleet_census.specs.States.{AreBehind, AreChained, AreOwn, AreReadOn, Said};
ghost use Rattle.fleet_census.specs.Gathers.{AreZeros, IsGathered};
ghost use Rattle.fleet_census.specs.Tournaments.{leaves};
ghost use Rattle.fleet_census.specs.Faults.{HasFailed};

use crate::FleetFault;
use crate::content::{Content, Holder};
use crate::take::take_holder;
use crate::tournament::Tournament;
use digest_text::DigestReader;
use std::alloc::Allocator;
use std::io::Read;

impl Content {
    /// Adds what one more file lists. `None`: there are 2^64 copies or more.
    fn with(&self, holder: &Holder) -> Option<Content>
        requires zero { self.now.zero ≤ self.now.copies }
        requires part { holder.now.zero ≤ holder.now.copies }
        requires few { self.now.holders < MAX_DIGESTS }
        ensures { MatchOption result (2 ^ 64 ≤ self.now.copies + holder.now.copies) (λ more. more ≡ record {
          copies = self.now.copies + holder.now.copies;
          zero = self.now.zero + holder.now.zero;
          holders = self.now.holders + 1;
        }) }
    {
        let copies = self.copies.checked_add(holder.copies)?;
        Some(Content {
            copies,
            zero: self.zero + holder.zero,
            holders: self.holders + 1,
        })
    }
}

/// Gathers the files that list a digest, and reads the next line of each. The digest is the least one left. `holders` has
/// capacity for all files.
pub(crate) fn gather<R: Read + Drop, A: Allocator>(
    readers: &mut [DigestReader<R, A>],
    tournament: &mut Tournament<A>,
    zeros: &[u128],
    digest: u128,
    holders: &mut Vec<Holder, A>,
) -> Result<Content, FleetFault>
    requires few { length readers.old ≤ MAX_DIGESTS }
    requires files { tournament.old.files ≡ length readers.old }
    requires zeros { length zeros.now ≡ length readers.old }
    requires own { AreOwn (leaves tournament.old.files tournament.old.entries.items) }
    requires room { length readers.old ≤ vec_capacity holders.old }
    ensures files { tournament.new.files ≡ tournament.old.files }
    ensures own { AreOwn (leaves tournament.new.files tournament.new.entries.items) }
    ensures room { vec_capacity holders.new ≡ vec_capacity holders.old }
    ensures holders { All (λ holder. holder.file < length readers.old) holders.new.items }
    ensures failed { IfErr result (HasFailed (map failure_of readers.new)) }
    ensures read { (files : List Said) → length files ≡ length readers.old → AreChained files (length files)
        (leaves tournament.old.files tournament.old.entries.items) (map (rows_left R.remaining) readers.old)
        → AreReadOn files (length files) (leaves tournament.new.files tournament.new.entries.items) (map (rows_left R.remaining) readers.new) result }
    ensures gathered { (fleet : List (List Row)) → length fleet ≡ length readers.old → AreZeros fleet zeros.now
        → AreBehind fleet (λ file. digest) (leaves tournament.old.files tournament.old.entries.items) (map (rows_left R.remaining) readers.old)
        → IsGathered fleet digest (leaves tournament.new.files tournament.new.entries.items) (map (rows_left R.remaining) readers.new)
        holders.new.items result }
{
    holders.clear();
    let mut content = Content {
        copies: 0,
        zero: 0,
        holders: 0,
    };
    for turn in 0..readers.len() {
        match take_holder(readers, tournament, zeros, digest) {
            Ok(Some(holder)) => {
                let Some(more) = content.with(&holder) else {
                    return Err(FleetFault::TooManyPages);
                };
                content = more;
                holders.push_reserved(holder);
            }
            Ok(None) => return Ok(content),
            Err(fault) => return Err(fault),
        }
    }
    Ok(content)
}
