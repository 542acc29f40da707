//! The numbers as a JSON object, for programs.
use crate::report::{Report, Sampling};
use crate::rows::{ClassRow, GuestRow, HostRow, TotalRow};
use page_model::PAGE_BYTES;
use serde::Serialize;
use std::alloc::{AllocError, Global};

#[derive(Drop, Serialize)]
struct Object<'a> {
    page_bytes: usize,
    #[serde(skip_serializing_if = "Option::is_none")]
    sample: Option<u32>,
    #[serde(skip_serializing_if = "Option::is_none")]
    kept: Option<u64>,
    guests: &'a [GuestRow<'a>],
    #[serde(skip_serializing_if = "Option::is_none")]
    hosts: Option<&'a [HostRow<'a>]>,
    #[serde(skip_serializing_if = "Option::is_none")]
    on_hosts: Option<TotalRow>,
    total: TotalRow,
    copies: &'a [ClassRow],
}

/// Returns the object, in one line without a line feed. Its members are in the order of `docs/IMAGES.md` and `docs/FORMATS.md`.
pub fn json_text(alloc: Global, report: &Report<'_>) -> Result<String, AllocError> {
    let (sample, kept) = match report.sampling {
        Some(Sampling { sample, kept }) => (Some(sample), Some(kept)),
        None => (None, None),
    };
    let (hosts, on_hosts): (Option<&[HostRow<'_>]>, Option<TotalRow>) = match &report.hosts {
        Some(rows) => (Some(&rows.hosts), Some(rows.sum)),
        None => (None, None),
    };
    let object = Object {
        page_bytes: PAGE_BYTES,
        sample,
        kept,
        guests: &report.guests,
        hosts,
        on_hosts,
        total: report.total,
        copies: &report.copies,
    };
    // Any numbers and text can be written, so only memory can have been refused.
    serde_json::to_string(alloc, &object).map_err(|_refused| AllocError)
}
