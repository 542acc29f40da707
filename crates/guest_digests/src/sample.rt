//! How many of all contents a sample keeps.
ghost use Rattle.std.specs.Prelude.{◌≡◌, MatchOption};
ghost use Rattle.guest_digests.specs.Samples.{IsSample};

use std::marker::Model;

/// The greatest sample.
pub const MAX_SAMPLE: u32 = 65_536;

/// A sampling rate: one in `every` contents is kept, on average. A power of two from 1 to `MAX_SAMPLE`; 1 keeps all.
#[derive(Clone, Copy, Debug, PartialEq, Eq)]
pub struct Sample {
    every: u32,
}

impl Model for Sample {
    ghost use Rattle.std.specs.Prelude.{ℕ};
    ghost use Rattle.guest_digests.specs.Samples.{IsSample};

    ghost Value = { ℕ };

    ghost view = { λ sample. sample.every };

    ghost invariant = { λ sample. IsSample sample.every };

    ghost inverse = { λ sample. record { every = sample } };
}

impl Sample {
    /// Makes a sample, or returns `None` if the number isn't a power of two from 1 to `MAX_SAMPLE`.
    pub fn new(every: u32) -> Option<Sample>
        ensures { MatchOption result (¬ IsSample every) (λ sample. (sample ≡ every) × IsSample every) }
    {
        if every == 0 || every > MAX_SAMPLE || !every.is_power_of_two() {
            return None;
        }
        Some(Sample { every })
    }

    /// Returns the number.
    pub fn get(self) -> u32
        ensures is { result ≡ self }
        ensures within { IsSample result }
    {
        self.every
    }
}
