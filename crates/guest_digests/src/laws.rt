//! The limit of this crate, as a number. The function's body is empty: the contract is all there is.
ghost use Rattle.std.specs.Prelude.{◌≡◌};
ghost use Rattle.guest_digests.specs.declared.sample.TheConstants.{MAX_SAMPLE};

/// The limit of this crate is this number.
pub fn limits_law()
    ensures { MAX_SAMPLE ≡ 65536 }
{}
