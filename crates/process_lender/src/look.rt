//! A scan of parts of a window.

use page_looks::idle::LookConfig;

/// A scan of parts of a window.
#[derive(Clone, Copy)]
pub struct WindowScan {
    /// How often it takes what.
    pub config: LookConfig,
    /// The number of its look.
    pub look: u32,
    /// The fingerprint of a page of zeros.
    pub zeros: u64,
    /// It comes back to a part, for the pages that may be idle soon.
    pub is_return: bool,
    /// The system leaves the memory of the window's pages before this one alone.
    pub ready: usize,
}
