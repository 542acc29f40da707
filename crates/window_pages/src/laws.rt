//! What counts and facts of pages are worth. The functions' bodies are empty: the contract is all there is.
ghost use Rattle.std.specs.Prelude.{◌≡◌};
ghost use Rattle.window_pages.specs.Lives.{EachLifeIsWell, HasNothing, IsRightStill, ShowsOn};
ghost use Rattle.window_pages.specs.Laws.{BeginsCounted, CopiesArePinned, CopiesStay, EachIsCounted, GoneIsBarred, NoneIsLost};

/// Of a part of at most 65,535 pages the counts are right at first, where all pages are structs of zeros, and stay right whatever page of it
/// becomes another.
pub fn counts_law()
    ensures begins { BeginsCounted }
    ensures follows { EachIsCounted }
{}

/// If the counts of a part are right and none of its slots is to be released, none of its pages has one that is.
pub fn release_law()
    ensures { NoneIsLost }
{}

/// While devices may hold copies over frames, a page whose memory may be such a copy counts as pinned. So no order leads to showing a frame or
/// gives the page other memory. And a page that has a copy stays where it is.
pub fn copy_law()
    ensures pinned { CopiesArePinned }
    ensures stays { CopiesStay }
{}

/// Nothing is lent of a page that has left its window, whatever else is so.
pub fn gone_law()
    ensures { GoneIsBarred }
{}

/// Whatever calls there are for the pages of a table whose bytes are zeros at first, in whatever order, whatever guests and others do in
/// between, and however often the lender goes and another comes: if what the calls say is so, what is believed of each page is right, and
/// each event of its orders is possible.
pub fn life_law()
    ensures { EachLifeIsWell }
{}

/// Where the lender goes, all pages of a table are detached and another lender comes: each page shows what it showed. What was right of it by the
/// protocol is so over the next lender's frames. And no slot of it counts any more.
pub fn detach_law()
    ensures shows { ShowsOn }
    ensures right { IsRightStill }
    ensures slots { HasNothing }
{}
