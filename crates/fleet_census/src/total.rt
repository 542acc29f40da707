//! What is counted of all guests.
ghost use Rattle.std.specs.Prelude.{◌≡◌};
ghost use Rattle.fleet_census.specs.Steps.{total_with};

use crate::Amount;
use crate::content::Content;

/// What is counted of all guests.
#[derive(Clone, Copy, Debug, PartialEq, Eq)]
pub struct FleetTotal {
    /// How many pages there are, whatever the sample.
    pub pages: u64,
    /// How many pages are all zeros, whatever the sample.
    pub zero: u64,
    /// How many pages have a content that some other page has, too.
    pub shared: Amount,
    /// How many different contents all pages have.
    pub frames: Amount,
    /// How many pages sharing would reclaim: pages less frames.
    pub reclaimed: Amount,
    /// How many of the pages to reclaim are all zeros, whatever the sample: pages of zeros less their different contents.
    pub zero_reclaimed: u64,
    /// How many pages only sharing between guests reclaims: pages to reclaim less those that the guests reclaim alone.
    pub between: Amount,
}

impl FleetTotal {
    /// What is counted of no contents.
    pub(crate) const NOTHING: FleetTotal = FleetTotal {
        pages: 0,
        zero: 0,
        shared: Amount::NOTHING,
        frames: Amount::NOTHING,
        reclaimed: Amount::NOTHING,
        zero_reclaimed: 0,
        between: Amount::NOTHING,
    };

    /// Counts a content.
    pub(crate) fn add(&mut self, content: &Content)
        ensures { self.new ≡ total_with content.now self.old }
    {
        let is_zeros = content.is_zeros();
        self.zero = self.zero.saturating_add(content.zero);
        self.shared.add(is_zeros, content.shared(content.copies));
        self.frames.add(is_zeros, content.copies.min(1));
        self.reclaimed
            .add(is_zeros, content.copies.saturating_sub(1));
        self.zero_reclaimed = self
            .zero_reclaimed
            .saturating_add(content.zero.saturating_sub(1));
        self.between
            .add(is_zeros, content.holders.saturating_sub(1));
    }
}
