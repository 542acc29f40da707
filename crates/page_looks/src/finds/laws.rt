//! What every look at a page keeps to. The functions' bodies are empty: the contract is all there is.
ghost use Rattle.page_looks.specs.FindLaws.{EachLeavesFewer, FoundIsIdle, LaterFoundIsIdle, LaterReadsWhatItMay, ReadsWhatItMay};

/// A look reads bytes of a page, and finds something of it, only if the page is its window's and is there. Then nothing is lent of it, nothing
/// keeps it from being lent, and the system leaves its memory alone. That is so of its first step, and a later step reads bytes only after one that
/// does.
pub fn touch_law()
    ensures first { ReadsWhatItMay }
    ensures later { LaterReadsWhatItMay }
{}

/// A look finds something of a page only if the page is idle.
pub fn found_law()
    ensures first { FoundIsIdle }
    ensures later { LaterFoundIsIdle }
{}

/// Each step leaves fewer: a look at a page has at most three.
pub fn end_law()
    ensures { EachLeavesFewer }
{}
