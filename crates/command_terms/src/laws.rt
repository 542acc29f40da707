//! Laws of the definitions. The functions' bodies are empty: the contract is all there is.
ghost use Rattle.std.specs.Prelude.{◌≡◌};
ghost use Rattle.command_terms.specs.declared.estimates.TheConstants.{MOST_WORKERS};
ghost use Rattle.command_terms.specs.declared.progress.drawing.TheConstants.{PAUSE};

/// Each limit is this number.
pub fn limits_law()
    ensures workers { MOST_WORKERS ≡ 64 }
    ensures pause { PAUSE ≡ 100 }
{}
