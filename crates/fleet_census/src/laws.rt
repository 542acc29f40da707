//! Laws of the definitions. The functions' bodies are empty: the contract is all there is.
ghost use Rattle.std.specs.Prelude.{◌≡◌};
ghost use Rattle.fleet_census.specs.declared.merging.TheConstants.{MAX_DIGESTS};

/// Each limit is this number.
pub fn limits_law()
    ensures { MAX_DIGESTS ≡ 65536 }
{}
