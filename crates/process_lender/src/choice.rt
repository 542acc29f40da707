//! What pages of a list are chosen for.

use page_looks::idle::LookConfig;

/// What pages of a list are chosen for.
#[derive(Clone, Copy)]
pub enum Choice {
    /// A host may be asked about each of them, each by itself: they are free, and the system has mappings for them. At the look of this number.
    ToAsk(LookConfig, u32),
    /// They have their loans, and are to be held.
    ToHold,
    /// They are free, and are to be held and given back as zeros, each by itself.
    ToGiveBack,
}
