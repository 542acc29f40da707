//! A sum over all contents, as a sample of them shows it.
ghost use Rattle.std.specs.Prelude.{◌≡◌, ◌-◌, ◌^◌, min};
ghost use Rattle.fleet_census.specs.Amounts.{IsRoot, estimate, variance};

use fleet_census::Amount;

/// An estimate of a sum, and its standard error.
#[derive(Clone, Copy)]
pub(crate) struct EstimatedSum {
    pub(crate) value: u64,
    pub(crate) error: u64,
}

impl EstimatedSum {
    /// Estimates a sum from a sample of one content in `sample`. With 1 the sum is known, and its error is 0.
    pub(crate) fn of(amount: Amount, sample: u32) -> EstimatedSum
        ensures value { result.value ≡ min (estimate amount sample) (2 ^ 64 - 1) }
        ensures error { IsRoot (min (variance amount sample) (2 ^ 128 - 1)) result.error }
    {
        EstimatedSum {
            value: amount.estimate(sample),
            error: amount.standard_error(sample),
        }
    }
}
