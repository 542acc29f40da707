//! Laws of the limits.
ghost use Rattle.std.specs.Prelude.{◌≡◌};
ghost use Rattle.recent_fingerprints.specs.declared.limits.TheConstants.{MAX_PLACES};

/// The limit is this number.
pub fn limits_law()
    ensures { MAX_PLACES ≡ 16777216 }
{}
