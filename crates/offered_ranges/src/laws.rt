//! What tables of ranges are worth. The functions' bodies are empty: the contract is all there is.
ghost use Rattle.std.specs.Prelude.{◌≡◌};
ghost use Rattle.offered_ranges.specs.Laws.{AddedApart, AddedKeeps, AllInside, NoneBefore, NoneElsewhere, NoneOutside, NoneThere, TakenApart, TakenGone, TakenKeeps};

/// The first piece begins with the first page of a range that there is. All its pages are the range's, and lie where they were looked for.
/// Where no piece is found, there is no page of a range.
pub fn next_law()
    ensures before { NoneBefore }
    ensures inside { AllInside }
    ensures none { NoneThere }
{}

/// Of a table in which no page is in two ranges, a new range makes one of which that is so, too. All other pages are whose they were.
pub fn add_law()
    ensures apart { AddedApart }
    ensures others { AddedKeeps }
{}

/// A piece that is taken out takes its own pages along, and no other: they are in no range any more, and all others are whose they were.
pub fn take_out_law()
    ensures apart { TakenApart }
    ensures gone { TakenGone }
    ensures others { TakenKeeps }
{}

/// No page outside of a table's bounds is in a range.
pub fn bounds_law()
    ensures { NoneOutside }
{}

/// Where some pages are all that is left of a window, no other page is the window's.
pub fn left_law()
    ensures { NoneElsewhere }
{}
