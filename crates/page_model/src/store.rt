//! A store.
ghost use Rattle.std.specs.Prelude.{◌≡◌, ◌+◌, ◌≤◌, length};

use crate::limits::{MAX_ACCESS_BYTES, PAGE_BYTES};
use arrayvec::ArrayVec;
use std::marker::Model;

/// A store of 1 to `MAX_ACCESS_BYTES` bytes to a place within one page.
#[derive(Clone, Debug, PartialEq, Eq, Drop)]
pub struct StoreReq {
    pub(crate) ppn: u32,
    pub(crate) at: u32,
    pub(crate) bytes: ArrayVec<u8, MAX_ACCESS_BYTES>,
}

impl Model for StoreReq {
    ghost use Rattle.std.specs.Prelude.{◌+◌, ◌≤◌, length};
    ghost use Rattle.page_model.specs.Parts.{StoreParts};

    ghost Value = { StoreParts };

    ghost view = { λ s. record { ppn = s.ppn; at = s.at; bytes = s.bytes.items } };

    ghost use Rattle.page_model.specs.declared.limits.TheConstants.{MAX_ACCESS_BYTES, PAGE_BYTES};

    ghost invariant = { λ s. (1 ≤ length s.bytes.items) × (length s.bytes.items ≤ MAX_ACCESS_BYTES)
        × (s.at + length s.bytes.items ≤ PAGE_BYTES) };

    ghost inverse = { λ s. record { ppn = s.ppn; at = s.at; bytes = record { items = s.bytes } } };
}

impl StoreReq {
    /// Returns the number of the page.
    pub fn ppn(&self) -> u32
        ensures { result ≡ self.now.ppn }
    {
        self.ppn
    }

    /// Returns the place of the first byte within the page.
    pub fn at(&self) -> u32
        ensures at { result ≡ self.now.at }
        ensures within { result + length self.now.bytes ≤ PAGE_BYTES }
    {
        self.at
    }

    /// Returns the bytes to store.
    pub fn bytes(&self) -> &[u8]
        ensures bytes { result.now ≡ self.now.bytes }
        ensures some { 1 ≤ length self.now.bytes }
        ensures few { length self.now.bytes ≤ MAX_ACCESS_BYTES }
    {
        self.bytes.as_slice()
    }
}
