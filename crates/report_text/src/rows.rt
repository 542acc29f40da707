//! The rows of a report: the members of the JSON object, whose numbers are those of the table.
use crate::Reclaimed;
use serde::Serialize;

/// The standard errors of a guest's numbers.
#[derive(Clone, Copy, Default, Serialize)]
pub(crate) struct GuestErrors {
    pub(crate) distinct: u64,
    pub(crate) shared: u64,
    pub(crate) alone: u64,
}

/// A guest. It has an image in an estimate, and in a fleet a name, unless its digest has no line.
#[derive(Clone, Copy, Serialize)]
pub(crate) struct GuestRow<'a> {
    #[serde(skip_serializing_if = "Option::is_none")]
    pub(crate) image: Option<&'a str>,
    #[serde(skip_serializing_if = "Option::is_none")]
    pub(crate) guest: Option<Option<&'a str>>,
    pub(crate) salt: Option<u32>,
    pub(crate) pages: u64,
    pub(crate) zero: u64,
    pub(crate) distinct: u64,
    pub(crate) shared: u64,
    pub(crate) alone: u64,
    /// None if the numbers are known.
    #[serde(skip_serializing_if = "Option::is_none")]
    pub(crate) errors: Option<GuestErrors>,
}

impl<'a> GuestRow<'a> {
    /// Returns what the guest is called.
    pub(crate) fn name(&self) -> Option<&'a str> {
        self.image.or(self.guest.flatten())
    }
}

/// The standard errors of the numbers in total. That of the part of zeros is 0.
#[derive(Clone, Copy, Default, Serialize)]
pub(crate) struct TotalErrors {
    pub(crate) shared: u64,
    pub(crate) frames: u64,
    pub(crate) reclaimed: u64,
    pub(crate) between: u64,
    pub(crate) within: u64,
}

/// The numbers in total.
#[derive(Clone, Copy, Serialize)]
pub(crate) struct TotalRow {
    pub(crate) pages: u64,
    pub(crate) zero: u64,
    pub(crate) shared: u64,
    pub(crate) frames: u64,
    pub(crate) reclaimed: u64,
    pub(crate) zero_reclaimed: u64,
    pub(crate) between: u64,
    pub(crate) parts: Reclaimed,
    /// None if the numbers are known.
    #[serde(skip_serializing_if = "Option::is_none")]
    pub(crate) errors: Option<TotalErrors>,
}

/// A host, and the numbers of the guests on it.
#[derive(Clone, Copy, Serialize)]
pub(crate) struct HostRow<'a> {
    pub(crate) host: &'a str,
    pub(crate) guests: usize,
    pub(crate) total: TotalRow,
}

/// The standard errors of a class's numbers.
#[derive(Clone, Copy, Default, Serialize)]
pub(crate) struct ClassErrors {
    pub(crate) contents: u64,
    pub(crate) pages: u64,
}

/// The contents with this many copies.
#[derive(Clone, Copy, Serialize)]
pub(crate) struct ClassRow {
    pub(crate) from: u64,
    pub(crate) to: u64,
    pub(crate) contents: u64,
    pub(crate) pages: u64,
    /// None if the numbers are known.
    #[serde(skip_serializing_if = "Option::is_none")]
    pub(crate) errors: Option<ClassErrors>,
}
