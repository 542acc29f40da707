//! A sum over contents.
ghost use Rattle.std.specs.Prelude.{◌≡◌, ◌+◌, ◌*◌, ◌-◌, ◌<◌, ◌≤◌, ◌^◌, min};
ghost use Rattle.fleet_census.specs.Amounts.{IsRoot, estimate, variance, with_content};

/// A sum over contents: a number of each content that the digests list.
#[derive(Clone, Copy, Debug, PartialEq, Eq)]
pub struct Amount {
    /// The sum over the contents of zeros, which every sample keeps.
    pub zeros: u64,
    /// The sum over the other contents.
    pub others: u64,
    /// The sum over the other contents of the squares.
    pub squares: u128,
}

impl Amount {
    /// The sum over no contents.
    pub(crate) const NOTHING: Amount = Amount {
        zeros: 0,
        others: 0,
        squares: 0,
    };

    /// Returns the estimate of the sum over all contents, if these are the contents that a sample kept: those of zeros, and of
    /// each other `sample` contents one. With 1 it is the sum itself. At most 2^64 - 1.
    pub fn estimate(&self, sample: u32) -> u64
        ensures { result ≡ min (estimate self.now sample) (2 ^ 64 - 1) }
    {
        let others = self.others.saturating_mul(u64::from(sample));
        self.zeros.saturating_add(others)
    }

    /// Returns the standard error of the estimate, rounded down: the root of its variance, which is estimated, too, and counted
    /// up to 2^128 - 1. 0 with a sample of 1.
    pub fn standard_error(&self, sample: u32) -> u64
        ensures { IsRoot (min (variance self.now sample) (2 ^ 128 - 1)) result }
    {
        let others = u128::from(sample) * u128::from(sample.saturating_sub(1));
        self.squares.saturating_mul(others).isqrt() as u64
    }

    /// Adds the number of one content more.
    pub(crate) fn add(&mut self, is_zeros: bool, x: u64)
        ensures { self.new ≡ with_content self.old is_zeros x }
    {
        if is_zeros {
            self.zeros = self.zeros.saturating_add(x);
        } else {
            self.others = self.others.saturating_add(x);
            self.squares = self.squares.saturating_add(u128::from(x) * u128::from(x));
        }
    }
}
