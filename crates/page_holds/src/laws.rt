//! What a hold does to a page's bytes. The functions' bodies are empty: the contract is all there is.
ghost use Rattle.page_holds.specs.Laws.{EachHoldIsRight, EachStepLeavesLess};

/// Whatever comes of the steps of a hold, and in whatever order they are asked for: anyone who reads the page finds what its guest stored last.
/// Where nobody waits for the page, it is there. For that, each outcome is true, and frames keep their bytes meanwhile.
pub fn hold_law()
    ensures { EachHoldIsRight }
{}

/// Each step brings a hold nearer to its end, whether it was done or not. Of a page whose order is open a hold has at most four steps until it
/// is over, or until the system refuses to put the page back or to end its watch.
pub fn end_law()
    ensures { EachStepLeavesLess }
{}
