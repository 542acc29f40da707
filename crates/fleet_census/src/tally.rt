//! What is counted so far.
ghost use Rattle.std.specs.Prelude.{◌≡◌, ◌≤◌, ◌<◌, ◌^◌, ◌+◌, ℕ, List, [], All, IfOk, MatchOption, length, slice_index_or, vec_len};
ghost use Rattle.digest_text.specs.Fields.{Row};
ghost use Rattle.fleet_census.specs.Tallies.{AreTallied, IsNew, IsTallied, NoneBelow, weight_of};
ghost use Rattle.fleet_census.specs.Fleets.{content_of, holder_of};
ghost use Rattle.fleet_census.specs.Holders.{AreRising, found};
ghost use Rattle.fleet_census.specs.Pairs.{row_lengths, rows_for, rows_of};

use crate::class::{count_class, new_classes};
use crate::content::{Content, Holder};
use crate::guest::count_guests;
use crate::pair::{count_pairs, new_pairs};
use crate::{FleetClass, FleetGuest, FleetPair, FleetTotal, Pairs};
use std::alloc::{AllocError, Allocator};

/// What is counted of the contents so far.
#[derive(Drop)]
pub(crate) struct Tally<A: Allocator> {
    pub(crate) guests: Vec<FleetGuest, A>,
    pub(crate) total: FleetTotal,
    pub(crate) classes: Vec<FleetClass, A>,
    /// For each guest what it has in common with each guest before it; no rows if pairs aren't counted.
    pub(crate) pairs: Vec<Vec<FleetPair, A>, A>,
    /// How many pages the contents stand for: each but those of zeros for as many as the sample says.
    pub(crate) weight: u64,
}

/// Adds the pages that a content stands for. `None`: these are 2^64 pages or more.
fn weigh(weight: u64, every: u32, content: &Content) -> Option<u64>
    ensures { MatchOption result (2 ^ 64 ≤ weight + weight_of every content.now) (λ more. (more ≡ weight + weight_of every content.now)
        × (more < 2 ^ 64)) }
{
    if content.is_zeros() {
        weight.checked_add(content.copies)
    } else {
        weight.checked_add(u64::from(every).checked_mul(content.copies)?)
    }
}

impl<A: Allocator> Tally<A> {
    /// Makes a tally of nothing, with room for the guests and for their pairs, if these are counted.
    pub(crate) fn new(alloc: A, guests: usize, pairs: Pairs) -> Result<Tally<A>, AllocError>
    where
        A: Copy,
        ensures new { IfOk result (λ tally. IsNew guests tally) }
        ensures pairs { IfOk result (λ tally. rows_of tally.pairs.items ≡ rows_for pairs guests) }
    {
        let pairs = new_pairs(alloc, pairs, guests)?;
        let guests = Vec::with_capacity(alloc, guests)?;
        let classes = new_classes(alloc)?;
        Ok(Tally {
            guests,
            total: FleetTotal::NOTHING,
            classes,
            pairs,
            weight: 0,
        })
    }

    /// Counts a content, with the files that list it. Fails if there are too many pages.
    pub(crate) fn count(&mut self, every: u32, content: &Content, holders: &[Holder]) -> bool
        requires holders { All (λ holder. holder.file < vec_len self.old.guests) holders.now }
        requires classes { vec_len self.old.classes ≡ 65 }
        ensures guests { vec_len self.new.guests ≡ vec_len self.old.guests }
        ensures classes { vec_len self.new.classes ≡ 65 }
        ensures lengths { row_lengths (rows_of self.new.pairs.items) ≡ row_lengths (rows_of self.old.pairs.items) }
        ensures counted { (fleet : List (List Row)) (from at : ℕ) → from ≤ at → 1 ≤ every → vec_len self.old.guests ≡ length fleet
            → AreTallied fleet every from self.old → NoneBelow fleet from at → content.now ≡ content_of fleet at → 1 ≤ content.now.copies
            → AreRising holders.now
            → ((file : ℕ) → file < length fleet → found file holders.now ≡ holder_of file at (slice_index_or fleet file []))
            → IsTallied fleet every at self.new result }
    {
        let Some(weight) = weigh(self.weight, every, content) else {
            return false;
        };
        self.weight = weight;
        count_guests(&mut self.guests, content, holders);
        self.total.add(content);
        count_class(&mut self.classes, content);
        count_pairs(&mut self.pairs, content, holders);
        true
    }
}
