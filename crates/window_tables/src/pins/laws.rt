//! What tables of transfers are worth, and counts of pins. The functions' bodies are empty: the contract is all there is.
ghost use Rattle.window_tables.specs.PinLaws.{AllCounted, BegunMeets, BegunNowhere, ElsewhereCounted, EndedMeets, PinsCounted, StaysUnderWay, ThereCounted};

/// A transfer that got a place is under way until it ends, whatever others begin and end meanwhile. A transfer that begins or ends changes
/// nothing of the others.
pub fn transfer_law()
    ensures stays { StaysUnderWay }
    ensures begun { BegunMeets }
    ensures nowhere { BegunNowhere }
    ensures ended { EndedMeets }
{}

/// If each transfer that ends is one that began, as many are under way as began, less those that ended. The same is so of those that
/// got a place. Each that got none is counted until it ends.
pub fn number_law()
    ensures all { AllCounted }
    ensures there { ThereCounted }
    ensures elsewhere { ElsewhereCounted }
{}

/// However pages are pinned and unpinned, a page's count is the number of its pins, less that of its unpins.
pub fn pin_law()
    ensures { PinsCounted }
{}
