//! How many stores write a page.
use page_model::{MAX_ACCESS_BYTES, PAGE_BYTES};

/// A whole page is written by this many stores, each of as many bytes as a store may have.
pub const STORES_A_PAGE: u32 = (PAGE_BYTES / MAX_ACCESS_BYTES) as u32;
