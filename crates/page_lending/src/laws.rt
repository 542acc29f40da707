//! Laws of whole pages, for every state, page and hash. The functions' bodies are empty: the contract is all there is.
ghost use Rattle.std.specs.Prelude.{◌≡◌};
ghost use Rattle.page_lending.specs.declared.pieces.TheConstants.{STORES_A_PAGE};
ghost use Rattle.page_lending.specs.Laws.{StoresAtOnce, VerdictsFollow, LentIsTakenBack};

/// The stores of a whole page together do what one store of all its bytes would do. The page changes as the first store's verdict
/// says, and then has these bytes.
pub fn stored_at_once_law()
    ensures { StoresAtOnce }
{}

/// If the first store of a page is done, so is each that follows it, in place; if it is refused, so are they all, alike.
pub fn verdicts_follow_law()
    ensures { VerdictsFollow }
{}

/// A page that was lent reads as what was lent, whatever other requests come, until one stores to it or releases it.
pub fn lent_is_taken_back_law()
    ensures { LentIsTakenBack }
{}

/// The limit of this crate is this number.
pub fn limits_law()
    ensures { STORES_A_PAGE ≡ 64 }
{}
