//! Numbers of 64 bits in two halves.
ghost use Rattle.std.specs.Prelude.{◌≡◌};
ghost use Rattle.recent_fingerprints.specs.Halved.{whole};

// A number of 64 bits in two halves. It may stand at any multiple of four bytes. So a struct of such numbers and of others of 32
// bits has no gaps.
#[derive(Clone, Copy, Debug, PartialEq, Eq)]
pub(crate) struct Halves {
    // The lower 32 bits.
    pub(crate) low: u32,
    // The higher 32 bits.
    pub(crate) high: u32,
}

impl Halves {
    // Returns the halves of a number.
    #[inline]
    pub(crate) fn of(number: u64) -> Halves
        ensures { whole result ≡ number }
    {
        Halves {
            low: (number % (1 << 32)) as u32,
            high: (number / (1 << 32)) as u32,
        }
    }

    // Returns the number.
    #[inline]
    pub(crate) fn number(self) -> u64
        ensures { result ≡ whole self }
    {
        u64::from(self.high) * (1 << 32) + u64::from(self.low)
    }
}
