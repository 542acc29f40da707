//! Which of many files has the least digest next.
ghost use Rattle.std.specs.Prelude.{◌≡◌, ◌*◌, ◌<◌, ◌≤◌, ◌≢◌, ℕ, IfOk, length, replicate, slice_set, vec_len};
ghost use Rattle.fleet_census.specs.declared.merging.TheConstants.{MAX_DIGESTS};
ghost use Rattle.fleet_census.specs.Tournaments.{AreWon, AreWonBut, IsFirst, leaves};
ghost use Rattle.fleet_census.specs.declared.entry.TheConstants.{AT_END};

use crate::entry::{AT_END, Entry, lesser};
use std::alloc::{AllocError, Allocator};

/// The next lines of all files, and the winners among them. Winner n is the lesser of entries 2n and 2n + 1, and the files'
/// lines are the last entries; so winner 1 is the least of all.
#[derive(Drop)]
pub(crate) struct Tournament<A: Allocator> {
    pub(crate) entries: Vec<Entry, A>,
    pub(crate) files: usize,
    ghost some: { 1 ≤ files },
    ghost len: { length entries.items ≡ 2 * files },
    ghost won: { AreWon files entries.items },
}

/// Finds the winners again after one entry became another: `at` is the only one that may be wrong.
fn replay<A: Allocator>(entries: &mut Vec<Entry, A>, files: usize, mut at: usize)
    requires len { vec_len entries.old ≡ 2 * files }
    requires within { at < files }
    requires won { AreWonBut at files entries.old.items }
    ensures len { vec_len entries.new ≡ 2 * files }
    ensures won { AreWon files entries.new.items }
    ensures leaves { leaves files entries.new.items ≡ leaves files entries.old.items }
{
    while at > 0 {
        entries[at] = lesser(entries[2 * at], entries[2 * at + 1]);
        at /= 2;
    }
}

impl<A: Allocator> Tournament<A> {
    /// Makes a tournament of files that are all at their end.
    pub(crate) fn new(alloc: A, files: usize) -> Result<Tournament<A>, AllocError>
        requires { (1 ≤ files) × (files ≤ MAX_DIGESTS) }
        ensures { IfOk result (λ tournament. (tournament.files ≡ files) × (leaves files tournament.entries.items ≡ replicate files AT_END)) }
    {
        let entries = vec![in alloc; AT_END; 2 * files]?;
        Ok(Tournament { entries, files })
    }

    /// Returns the first of the files' entries.
    pub(crate) fn first(&self) -> Entry
        ensures { IsFirst (leaves self.now.files self.now.entries.items) result }
    {
        self.entries[1]
    }

    /// Puts a file's next line in place of the one before.
    pub(crate) fn put(&mut self, file: usize, entry: Entry)
        requires { file < self.old.files }
        ensures files { self.new.files ≡ self.old.files }
        ensures leaves { leaves self.new.files self.new.entries.items
            ≡ slice_set (leaves self.old.files self.old.entries.items) file entry }
    {
        let at = self.files + file;
        self.entries[at] = entry;
        replay(&mut self.entries, self.files, at / 2);
    }
}
