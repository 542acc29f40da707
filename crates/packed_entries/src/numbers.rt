//! Numbers of 23 and 24 bits.
ghost use Rattle.std.specs.Prelude.{◌≡◌, ◌<◌, Some, None, if◌then◌else◌, nat_lt};

use std::marker::Model;

// How many numbers of 24 bits there are, and how many of 23.
const OF_24_BITS: u32 = 1 << 24;

const OF_23_BITS: u32 = 1 << 23;

/// A number below `LIMIT`.
#[derive(Clone, Copy, Debug, PartialEq, Eq)]
pub struct Below<const LIMIT: u32> {
    number: u32,
}

/// A number of 24 bits: an MPN or a PPN.
pub type U24 = Below<OF_24_BITS>;

/// A number of 23 bits: a link. 0 means no link, and n means place n − 1.
pub type U23 = Below<OF_23_BITS>;

impl<const LIMIT: u32> Model for Below<LIMIT> {
    ghost use Rattle.std.specs.Prelude.{ℕ, ◌<◌};
    ghost use Rattle.std.specs.Coded.{coded_ℕ};

    ghost Value = { ℕ };

    ghost coded = { coded_ℕ };

    ghost view = { λ s. s.number };

    ghost invariant = { λ s. s.number < LIMIT };

    ghost inverse = { λ n. record { number = n } };
}

impl<const LIMIT: u32> Below<LIMIT> {
    /// Makes a number, or returns `None` if it isn't below the limit.
    pub fn new(number: u32) -> Option<Self>
        ensures { result ≡ (if nat_lt number LIMIT then Some number else None) }
    {
        if number < LIMIT {
            Some(Below { number })
        } else {
            None
        }
    }

    /// Makes a number that is known to be below the limit.
    pub fn of(number: u32) -> Self
        requires { number < LIMIT }
        ensures { result ≡ number }
    {
        Below { number }
    }

    /// Returns the number.
    pub fn get(self) -> u32
        ensures value { result ≡ self.entry }
        ensures fits { result < LIMIT }
    {
        self.number
    }
}
