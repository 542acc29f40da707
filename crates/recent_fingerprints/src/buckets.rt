//! The buckets of fingerprints.
ghost use Rattle.std.specs.Prelude.{◌≡◌, ◌*◌, ◌≤◌, ◌<◌, ◌^◌};
ghost use Rattle.recent_fingerprints.specs.Chains.{bucket_of, IsBucketCount};

/// How a fingerprint's bucket is found: it is the highest bits of its product with an odd factor (multiply-shift hashing). For
/// two distinct fingerprints, at most 2/buckets of all odd factors put both in one bucket. So fingerprints of one bucket can't be
/// chosen without knowing the factor.
#[derive(Clone, Copy, Debug, PartialEq, Eq)]
pub struct Buckets {
    /// The odd factor.
    pub factor: u64,
    /// How many low bits of a product are dropped.
    pub shift: u32,
}

impl Buckets {
    /// Returns the bucket of a fingerprint.
    #[inline]
    pub fn of(self, fingerprint: u64) -> u64
        requires { self.shift < 64 }
        ensures { result ≡ bucket_of self.factor self.shift fingerprint }
    {
        fingerprint.wrapping_mul(self.factor) >> self.shift
    }
}

/// Returns the number of buckets for this many places, a power of two, and how many low bits of a product to drop.
pub fn bucket_count(places: u32) -> (u32, u32)
    requires { places ≤ 2 ^ 31 }
    ensures shift { result.1 < 64 }
    ensures all { result.0 * 2 ^ result.1 ≡ 2 ^ 64 }
    ensures count { IsBucketCount places result.0 }
{
    let mut count = 2;
    let mut shift = 63;
    while count < places {
        count *= 2;
        shift -= 1;
    }
    (count, shift)
}
