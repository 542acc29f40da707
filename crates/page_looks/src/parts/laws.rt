//! A part of a window doesn't go to and fro. The function's body is empty: the contract is all there is.
ghost use Rattle.page_looks.specs.Parts.{NoToAndFro};

/// A part that is to change stays for as many looks as the pause has, whatever they find, and whether it was done or not.
pub fn pause_law()
    ensures { NoToAndFro }
{}
