//! What the numbers of windows' pages are worth. The function's body is empty: the contract is all there is.
ghost use Rattle.offered_ranges.specs.NumberLaws.{NoneShared, StayApart};

/// No window has a number that a new one gets. So no two windows share a number, if none did before.
pub fn numbers_law()
    ensures new { NoneShared }
    ensures apart { StayApart }
{}
