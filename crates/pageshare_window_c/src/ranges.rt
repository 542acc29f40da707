//! Where ranges lie, and what is left of windows.
ghost use Rattle.std.specs.Prelude.{◌≡◌, slice_get};
ghost use Rattle.offered_ranges.specs.Bounds.{AreBounds};
ghost use Rattle.offered_ranges.specs.Tables.{is_all_left};

use offered_ranges::{OfferedBounds, OfferedRange, bounds, is_all_left};

/// Finds the bounds of ranges: the least first page, and the greatest page behind a last one. Where there is no range both are 0.
#[unsafe(no_mangle)]
pub extern "C" fn pageshare_window_bounds(ranges: &[OfferedRange], found: &mut OfferedBounds)
    ensures { AreBounds ranges.now found.new }
{
    *found = bounds(ranges);
}

/// Returns whether these pages are all that is left of a window: they are the range at this place, and no other range is left of the
/// range's window.
#[unsafe(no_mangle)]
pub extern "C" fn pageshare_window_is_all_left(
    ranges: &[OfferedRange],
    place: usize,
    begin: u64,
    end: u64,
) -> bool
    ensures { result ≡ is_all_left place begin end (slice_get ranges.now place) ranges.now }
{
    is_all_left(ranges, place, begin, end)
}
