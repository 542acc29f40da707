//! The pages of a range that a call of the monitor is about.
ghost use Rattle.std.specs.Prelude.{◌≡◌, IfSome, Option, None, is_some};
ghost use Rattle.std.specs.List.{list_any};
ghost use Rattle.offered_ranges.specs.Pieces.{IsFirst, meets, piece_of, sooner};

use crate::OfferedRange;

/// The pages of a range that lie between two pages.
#[repr(C)]
#[derive(Clone, Copy, Debug, PartialEq, Eq)]
pub struct Piece {
    /// The place of the range in its table.
    pub place: usize,
    /// Its first page.
    pub begin: u64,
    /// The page behind its last one.
    pub end: u64,
    /// The window of the range; 0: it isn't one yet.
    pub window: u64,
    /// The number that its first page has in the window.
    pub first: u64,
}

/// Returns the first piece of ranges that lies between two pages: of `begin` and what comes after it, but of neither `end` nor what
/// comes after that.
pub fn next(ranges: &[OfferedRange], begin: u64, end: u64) -> Option<Piece>
    ensures found { is_some result ≡ list_any (meets begin end) ranges.now }
    ensures first { IfSome result (λ piece. IsFirst begin end ranges.now piece) }
{
    let mut first = None;
    for place in 0..ranges.len() {
        first = sooner(first, piece_of(&ranges[place], place, begin, end));
    }
    first
}

// The piece of a range at this place.
fn piece_of(range: &OfferedRange, place: usize, begin: u64, end: u64) -> Option<Piece>
    ensures { result ≡ piece_of begin end place range.now }
{
    let from = range.begin.max(begin);
    let to = range.end.min(end);
    if from >= to {
        return None;
    }
    Some(Piece {
        place,
        begin: from,
        end: to,
        window: range.window,
        first: from.saturating_sub(range.base),
    })
}

// The one of two pieces that begins sooner; the first of them where both begin at one page.
fn sooner(one: Option<Piece>, other: Option<Piece>) -> Option<Piece>
    ensures { result ≡ sooner one other }
{
    match (one, other) {
        (None, other) => other,
        (Some(one), None) => Some(one),
        (Some(one), Some(other)) => Some(if other.begin < one.begin { other } else { one }),
    }
}
