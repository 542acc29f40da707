//! Which digests of a guest's pages are kept.
ghost use Rattle.std.specs.Prelude.{◌≡◌};
ghost use Rattle.guest_digests.specs.Samples.{is_kept, zeros_digest};

use crate::Sample;
use page_digest::digest_content;
use page_model::PAGE_BYTES;
use std::marker::Model;

/// The salt of a guest, and which digests of its pages are kept. These are those whose last 16 bits are a multiple of the sample,
/// and the digest of the page of zeros.
#[derive(Clone, Copy, Debug, PartialEq, Eq)]
pub struct Sampling {
    salt: u32,
    sample: Sample,
    /// The digest of the page of zeros.
    zeros: u128,
}

impl Model for Sampling {
    ghost use Rattle.std.specs.Prelude.{◌≡◌};
    ghost use Rattle.guest_digests.specs.Samples.{Sampled, zeros_digest};

    ghost Value = { Sampled };

    ghost view = { λ by. record { salt = by.salt; every = by.sample } };

    ghost invariant = { λ by. by.zeros ≡ zeros_digest by.salt };

    ghost inverse = { λ by. record { salt = by.salt; sample = by.every; zeros = zeros_digest by.salt } };
}

/// Returns the digest of the page of zeros.
fn zeros_digest(salt: u32) -> u128
    ensures { result ≡ zeros_digest salt }
{
    digest_content(salt, &[0; PAGE_BYTES])
}

impl Sampling {
    /// Takes the salt of a guest and a sample.
    pub fn new(salt: u32, sample: Sample) -> Sampling
        ensures { result ≡ record { salt = salt; every = sample } }
    {
        Sampling {
            salt,
            sample,
            zeros: zeros_digest(salt),
        }
    }

    /// Returns the salt.
    pub fn salt(&self) -> u32
        ensures { result ≡ self.now.salt }
    {
        self.salt
    }

    /// Returns the sample.
    pub fn sample(&self) -> Sample
        ensures { result ≡ self.now.every }
    {
        self.sample
    }

    /// Whether this digest is kept.
    pub fn keeps(&self, digest: u128) -> bool
        ensures { result ≡ is_kept self.now digest }
    {
        let last = (digest % 65_536) as u32;
        last % self.sample.get() == 0 || digest == self.zeros
    }
}
