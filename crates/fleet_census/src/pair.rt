//! What each two guests have in common.
ghost use Rattle.std.specs.Prelude.{◌≡◌, ◌<◌, ℕ, IfOk, Some, [], length, slice_index_or};
ghost use Rattle.fleet_census.specs.Holders.{AreRising, found};
ghost use Rattle.fleet_census.specs.Pairs.{empty_rows, no_pair, pair_after, pair_at, pair_with, row_lengths, rows_for, rows_of};

use crate::Amount;
use crate::content::{Content, Holder};
use std::alloc::{AllocError, Allocator};

/// Whether a merge counts what each two guests have in common.
#[derive(Clone, Copy, Debug, PartialEq, Eq)]
pub enum Pairs {
    /// It does, in 64 bytes for each two guests.
    Counted,
    /// It doesn't.
    Omitted,
}

/// What two guests have in common.
#[derive(Clone, Copy, Debug, PartialEq, Eq)]
pub struct FleetPair {
    /// How many contents both have.
    pub contents: Amount,
    /// How many pages would be freed if one copy of each such content were kept: the copies of both less one.
    pub pages: Amount,
}

impl FleetPair {
    /// What two guests without contents have in common.
    pub(crate) const NOTHING: FleetPair = FleetPair {
        contents: Amount::NOTHING,
        pages: Amount::NOTHING,
    };

    /// Counts a content that both guests have.
    fn add(&mut self, content: &Content, holder: &Holder, other: &Holder)
        ensures { self.new ≡ pair_with content.now self.old holder.now other.now }
    {
        let is_zeros = content.is_zeros();
        let copies = holder.copies.saturating_add(other.copies);
        self.contents.add(is_zeros, 1);
        self.pages.add(is_zeros, copies.saturating_sub(1));
    }
}

/// Makes the rows of pairs without contents: a guest's row has an entry for each guest before it.
fn new_rows<A: Allocator + Copy>(
    alloc: A,
    guests: usize,
) -> Result<Vec<Vec<FleetPair, A>, A>, AllocError>
    ensures { IfOk result (λ rows. rows_of rows.items ≡ empty_rows guests) }
{
    let mut rows = Vec::with_capacity(alloc, guests)?;
    for before in 0..guests {
        let row = vec![in alloc; FleetPair::NOTHING; before]?;
        rows.push_reserved(row);
    }
    Ok(rows)
}

/// Makes the rows of pairs without contents, or none if pairs aren't counted.
pub(crate) fn new_pairs<A: Allocator + Copy>(
    alloc: A,
    pairs: Pairs,
    guests: usize,
) -> Result<Vec<Vec<FleetPair, A>, A>, AllocError>
    ensures { IfOk result (λ rows. rows_of rows.items ≡ rows_for pairs guests) }
{
    match pairs {
        Pairs::Counted => new_rows(alloc, guests),
        Pairs::Omitted => Ok(Vec::new(alloc)),
    }
}

/// Counts a content that a guest has, for it and each guest before it that has it, too. `row` has the guest's pairs.
fn count_row<A: Allocator>(
    row: &mut Vec<FleetPair, A>,
    content: &Content,
    holder: &Holder,
    others: &[Holder],
)
    ensures len { length row.new.items ≡ length row.old.items }
    ensures counted { AreRising others.now → (other : ℕ) → other < length row.old.items → slice_index_or row.new.items other no_pair
        ≡ pair_after content.now (slice_index_or row.old.items other no_pair) (Some holder.now) (found other others.now) }
{
    for other in others {
        if (other.file as usize) < row.len() {
            row[other.file as usize].add(content, holder, other);
        }
    }
}

/// Counts a content for each two guests that have it, if pairs are counted.
pub(crate) fn count_pairs<A: Allocator>(
    rows: &mut Vec<Vec<FleetPair, A>, A>,
    content: &Content,
    holders: &[Holder],
)
    ensures lengths { row_lengths (rows_of rows.new.items) ≡ row_lengths (rows_of rows.old.items) }
    ensures counted { AreRising holders.now → (file other : ℕ) → other < file
        → other < length (slice_index_or (rows_of rows.old.items) file [])
        → pair_at (rows_of rows.new.items) file other
        ≡ pair_after content.now (pair_at (rows_of rows.old.items) file other) (found file holders.now) (found other holders.now) }
{
    if rows.is_empty() {
        return;
    }
    for (n, holder) in holders.iter().enumerate() {
        if (holder.file as usize) < rows.len() {
            count_row(
                &mut rows[holder.file as usize],
                content,
                holder,
                &holders[..n],
            );
        }
    }
}
