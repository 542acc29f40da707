//! The limit of this crate, as a number. The function's body is empty: the contract is all there is.
ghost use Rattle.std.specs.Prelude.{◌≡◌};
ghost use Rattle.merge_core.specs.declared.counting.TheConstants.{MAX_REQUESTS};

/// The limit is this number.
pub fn limits_law()
    ensures { MAX_REQUESTS ≡ 4294967295 }
{}
