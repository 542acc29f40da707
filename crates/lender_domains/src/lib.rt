//! The slots of a proved domain beside what the lenders of pages believe: a release of a page's slot is an event of that page alone.
//!
//! The laws hold for every domain and mappings that agree. The functions' bodies are empty: the contract is all there is.
#![tactic(auto)]

ghost use Rattle.lender_domains.specs.Owned.{SlotsByBelief, AccountsByBelief, LendsOwn, ReleasesOwn, ReleaseIsRefused};

/// By what is rightly believed of a page: the slot by which it holds a frame is none, or the one that the domain has for it.
pub fn belief_law()
    ensures held { SlotsByBelief }
    ensures account { AccountsByBelief }
{}

/// A loan for a page that had none, whether its lender hears of it or not: the domain has its slot for this page, and no other page's
/// changes.
pub fn lend_law()
    ensures { LendsOwn }
{}

/// A release of the slot that the domain has for a page is an event of that page, and of no other one.
pub fn own_law()
    ensures { ReleasesOwn }
{}

/// A release of the slot by which another page shows its frame isn't possible. So a lender that names another page's slot is refused.
pub fn foreign_law()
    ensures { ReleaseIsRefused }
{}
