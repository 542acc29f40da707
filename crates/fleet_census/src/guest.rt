//! What is counted of a guest.
ghost use Rattle.std.specs.Prelude.{◌≡◌, ◌<◌, ℕ, All, length};
ghost use Rattle.fleet_census.specs.Holders.{AreRising, found};
ghost use Rattle.fleet_census.specs.Steps.{guest_after, guest_at, guest_with};

use crate::Amount;
use crate::content::{Content, Holder};

/// What is counted of one guest.
#[derive(Clone, Copy, Debug, PartialEq, Eq)]
pub struct FleetGuest {
    /// How many pages there are, whatever the sample.
    pub pages: u64,
    /// How many pages are all zeros, whatever the sample.
    pub zero: u64,
    /// How many different contents the pages have.
    pub distinct: Amount,
    /// How many pages have a content that some other page has, too, of any guest.
    pub shared: Amount,
    /// How many pages sharing within the guest alone would reclaim: pages less different contents.
    pub alone: Amount,
}

impl FleetGuest {
    /// Counts a content that the guest has.
    fn add(&mut self, content: &Content, holder: &Holder)
        ensures { self.new ≡ guest_with content.now self.old holder.now }
    {
        let is_zeros = content.is_zeros();
        self.zero = self.zero.saturating_add(holder.zero);
        self.distinct.add(is_zeros, holder.copies.min(1));
        self.shared.add(is_zeros, content.shared(holder.copies));
        self.alone.add(is_zeros, holder.copies.saturating_sub(1));
    }
}

/// Counts a content for each guest that has it.
pub(crate) fn count_guests(guests: &mut [FleetGuest], content: &Content, holders: &[Holder])
    requires { All (λ holder. holder.file < length guests.old) holders.now }
    ensures { AreRising holders.now → (file : ℕ) → file < length guests.old
        → guest_at guests.new file ≡ guest_after content.now (guest_at guests.old file) (found file holders.now) }
{
    for holder in holders {
        guests[holder.file as usize].add(content, holder);
    }
}
