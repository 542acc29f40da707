use crate::GuestName;
use guest_digests::Sample;

/// What each line of a digest begins with.
#[derive(Clone, Debug, PartialEq, Eq, Drop)]
pub struct DigestHead {
    /// The guest's name.
    pub guest: GuestName,
    /// The guest's salt.
    pub salt: u32,
    /// How many pages the guest has.
    pub pages: u64,
    /// Which contents are kept.
    pub sample: Sample,
}
