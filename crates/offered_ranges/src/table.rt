//! Tables of ranges: an array, and how many of its places are used.
ghost use Rattle.std.specs.Prelude.{◌≡◌, ◌+◌, ◌<◌, ◌≤◌, ◌++◌, ◌&&◌, ◌||◌, [], ◌∷◌, Some, if◌then◌else◌, length, not, option_map, slice_get};
ghost use Rattle.std.specs.List.{list_any, remove};
ghost use Rattle.offered_ranges.specs.Tables.{added, can_add, can_take_out, has_both, has_piece, is_all_left, is_of, part_of, ranges_of, taken_out};

use crate::{OfferedRange, next};

/// Returns whether a range is left of a window.
pub fn is_part_left(ranges: &[OfferedRange], window: u64) -> bool
    ensures { result ≡ list_any (is_of window) ranges.now }
{
    for range in ranges {
        if range.window == window {
            return true;
        }
    }
    false
}

/// Returns whether these pages are all that is left of a window: they are the range at this place, and no other range is left of the
/// range's window.
pub fn is_all_left(ranges: &[OfferedRange], place: usize, begin: u64, end: u64) -> bool
    ensures { result ≡ is_all_left place begin end (slice_get ranges.now place) ranges.now }
{
    if place >= ranges.len() {
        return false;
    }
    let range = ranges[place];
    let is_whole = range.begin == begin && range.end == end;
    is_whole && !is_other_left(ranges, place, range.window)
}

// Whether a range is left of a window, beside the one at a place.
fn is_other_left(ranges: &[OfferedRange], place: usize, window: u64) -> bool
    requires { place < length ranges.now }
    ensures { result ≡ list_any (is_of window) (remove ranges.now place) }
{
    is_part_left(&ranges[..place], window) || is_part_left(&ranges[place + 1..], window)
}

/// Adds a range that isn't a window yet. Returns whether it did: not if the range is empty, if one of its pages is in another range, or
/// if no place is free.
pub fn add(ranges: &mut [OfferedRange], count: &mut usize, begin: u64, end: u64, said: u64) -> bool
    ensures added { result ≡ can_add (length ranges.old) count.old (ranges_of count.old ranges.old) begin end }
    ensures ranges { ranges_of count.new ranges.new ≡ if result then added (ranges_of count.old ranges.old) begin end said else ranges_of count.old ranges.old }
    ensures count { count.new ≡ if result then count.old + 1 else count.old }
    ensures len { length ranges.new ≡ length ranges.old }
{
    let is_free = *count < ranges.len() && begin < end;
    if !is_free || next(&ranges[..*count], begin, end).is_some() {
        return false;
    }
    push(
        ranges,
        count,
        OfferedRange {
            begin,
            end,
            window: 0,
            base: begin,
            said,
        },
    );
    true
}

/// Takes pages out of the range at a place. What is left of that range, one part or two, goes to the end of the table. Returns whether
/// it did: not if these pages aren't a piece of that range, or if no place is free for a second part.
pub fn take_out(
    ranges: &mut [OfferedRange],
    count: &mut usize,
    place: usize,
    begin: u64,
    end: u64,
) -> bool
    ensures taken { result ≡ can_take_out (length ranges.old) count.old begin end (slice_get (ranges_of count.old ranges.old) place) }
    ensures ranges { ranges_of count.new ranges.new ≡ if result then taken_out place begin end (slice_get (ranges_of count.old ranges.old) place) (ranges_of count.old ranges.old) else ranges_of count.old ranges.old }
    ensures count { count.new ≡ if result then length (ranges_of count.new ranges.new) else count.old }
    ensures len { length ranges.new ≡ length ranges.old }
{
    if *count > ranges.len() || place >= *count {
        return false;
    }
    let range = ranges[place];
    if !can_split(&range, *count < ranges.len(), begin, end) {
        return false;
    }
    remove(ranges, count, place);
    push_part(ranges, count, range, range.begin, begin);
    push_part(ranges, count, range, end, range.end);
    true
}

// Whether these pages are a piece of the range, and a place is free if two parts are left.
fn can_split(range: &OfferedRange, is_free: bool, begin: u64, end: u64) -> bool
    ensures { result ≡ (has_piece begin end range.now && (is_free || not (has_both begin end range.now))) }
{
    let has_piece = range.begin <= begin && begin < end && end <= range.end;
    let has_both = range.begin < begin && end < range.end;
    has_piece && (is_free || !has_both)
}

// Puts a range to the first free place.
fn push(ranges: &mut [OfferedRange], count: &mut usize, range: OfferedRange)
    requires { count.old < length ranges.old }
    ensures ranges { ranges_of count.new ranges.new ≡ ranges_of count.old ranges.old ++ range ∷ [] }
    ensures count { count.new ≡ count.old + 1 }
    ensures len { length ranges.new ≡ length ranges.old }
{
    ranges[*count] = range;
    *count += 1;
}

// Puts a part of a range there, unless it is empty.
fn push_part(
    ranges: &mut [OfferedRange],
    count: &mut usize,
    range: OfferedRange,
    begin: u64,
    end: u64,
)
    requires { begin < end → count.old < length ranges.old }
    ensures ranges { ranges_of count.new ranges.new ≡ ranges_of count.old ranges.old ++ part_of range begin end }
    ensures count { count.new ≡ count.old + length (part_of range begin end) }
    ensures len { length ranges.new ≡ length ranges.old }
{
    if begin < end {
        push(
            ranges,
            count,
            OfferedRange {
                begin,
                end,
                ..range
            },
        );
    }
}

// Takes the range at a place out of the table.
fn remove(ranges: &mut [OfferedRange], count: &mut usize, place: usize)
    requires place { place < count.old }
    requires within { count.old ≤ length ranges.old }
    ensures ranges { ranges_of count.new ranges.new ≡ remove (ranges_of count.old ranges.old) place }
    ensures count { count.new + 1 ≡ count.old }
    ensures len { length ranges.new ≡ length ranges.old }
{
    move_last(&mut ranges[..*count], place);
    *count -= 1;
}

// Moves the range at a place behind the others.
fn move_last(ranges: &mut [OfferedRange], place: usize)
    requires { place < length ranges.old }
    ensures { Some (ranges.new) ≡ option_map (λ last. remove ranges.old place ++ last ∷ []) (slice_get ranges.old place) }
{
    ranges[place..].rotate_left(1);
}
