//! A load.
ghost use Rattle.std.specs.Prelude.{◌≡◌, ◌+◌, ◌≤◌};

use crate::limits::{MAX_ACCESS_BYTES, PAGE_BYTES};
use std::marker::Model;

/// A load of 1 to `MAX_ACCESS_BYTES` bytes from a place within one page.
#[derive(Clone, Copy, Debug, PartialEq, Eq)]
pub struct LoadReq {
    pub(crate) ppn: u32,
    pub(crate) at: u32,
    pub(crate) len: u32,
}

impl Model for LoadReq {
    ghost use Rattle.std.specs.Prelude.{◌+◌, ◌≤◌};
    ghost use Rattle.page_model.specs.Parts.{LoadParts};

    ghost Value = { LoadParts };

    ghost view = { λ s. record { ppn = s.ppn; at = s.at; len = s.len } };

    ghost use Rattle.page_model.specs.declared.limits.TheConstants.{MAX_ACCESS_BYTES, PAGE_BYTES};

    ghost invariant = { λ s. (1 ≤ s.len) × (s.len ≤ MAX_ACCESS_BYTES) × (s.at + s.len ≤ PAGE_BYTES) };

    ghost inverse = { λ s. record { ppn = s.ppn; at = s.at; len = s.len } };
}

impl LoadReq {
    /// Returns the number of the page.
    pub fn ppn(&self) -> u32
        ensures { result ≡ self.now.ppn }
    {
        self.ppn
    }

    /// Returns the place of the first byte within the page.
    pub fn at(&self) -> u32
        ensures at { result ≡ self.now.at }
        ensures within { result + self.now.len ≤ PAGE_BYTES }
    {
        self.at
    }

    /// Returns how many bytes are asked for.
    pub fn len(&self) -> u32
        ensures len { result ≡ self.now.len }
        ensures some { 1 ≤ result }
        ensures few { result ≤ MAX_ACCESS_BYTES }
    {
        self.len
    }
}
