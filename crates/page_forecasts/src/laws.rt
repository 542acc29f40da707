//! The limits of this crate, as numbers. The function's body is empty: the contract is all there is.
ghost use Rattle.std.specs.Prelude.{◌≡◌};
ghost use Rattle.page_forecasts.specs.declared.forecasts.TheConstants.{FORECASTS, REACH};

/// Each limit is this number.
pub fn limits_law()
    ensures forecasts { FORECASTS ≡ 7 }
    ensures reach { REACH ≡ 128 }
{}
