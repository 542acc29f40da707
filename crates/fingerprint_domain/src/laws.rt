//! When equal pages of a domain meet. The functions' bodies are empty: the contract is all there is.
ghost use Rattle.fingerprint_domain.specs.Known.{EqualPagesMeet, OpenRefusesNothing};

/// Where a machine that has a frame with a page's bytes doesn't refuse the page, it goes to a machine that has such a frame. The premise:
/// no frame in use has other bytes with the page's fingerprint.
pub fn meets_law()
    ensures { EqualPagesMeet }
{}

/// While a machine is open, no page of a client that is in is refused.
pub fn open_law()
    ensures { OpenRefusesNothing }
{}
