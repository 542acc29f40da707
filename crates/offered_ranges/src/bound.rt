//! Between which pages the ranges of a table lie.
ghost use Rattle.offered_ranges.specs.Bounds.{AreBounds};

use crate::OfferedRange;

/// Two pages between which all ranges of a table lie.
#[repr(C)]
#[derive(Clone, Copy, Debug, PartialEq, Eq)]
pub struct OfferedBounds {
    /// The first page of a range, before which no range begins.
    pub begin: u64,
    /// The page behind the last one of a range, behind which no range ends.
    pub end: u64,
}

/// Returns the bounds of ranges: the least first page, and the greatest page behind a last one. Where there is no range both are 0.
pub fn bounds(ranges: &[OfferedRange]) -> OfferedBounds
    ensures { AreBounds ranges.now result }
{
    if ranges.is_empty() {
        return OfferedBounds { begin: 0, end: 0 };
    }
    let mut found = OfferedBounds {
        begin: ranges[0].begin,
        end: ranges[0].end,
    };
    for range in ranges {
        found = OfferedBounds {
            begin: found.begin.min(range.begin),
            end: found.end.max(range.end),
        };
    }
    found
}
