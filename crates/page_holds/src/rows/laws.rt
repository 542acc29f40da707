//! What a row does to the bytes of its pages, and that it ends. The functions' bodies are empty: the contract is all there is.
ghost use Rattle.page_holds.specs.RowLaws.{EachOrderLeavesLess, EachPageIsHeld};

/// Each page of a row is in a hold of its own, whatever the orders were and whatever came of them, and also where a row of one page goes on with a
/// page that was stuck. So what `hold_law` says of a hold is so of each of them: anyone who reads the page finds what its guest stored last.
pub fn row_law()
    ensures { EachPageIsHeld }
{}

/// What came of an order with at least one page leaves fewer steps, whether the step was done with it or refused. A page has at most four.
pub fn row_end_law()
    ensures { EachOrderLeavesLess }
{}
