use crate::U24;

/// What a table knows about one frame.
#[derive(Clone, Copy, Debug, PartialEq, Eq)]
pub enum Entry {
    /// A frame that some pages share.
    Shared {
        /// The hash of its content.
        hash: u64,
        /// The frame's number within the machine.
        mpn: U24,
        /// How many pages share it, or 0 if that doesn't fit in 16 bits.
        count: u16,
    },
    /// The frame of a private page for which a key was noted.
    Hint {
        /// The key: the low 32 bits of the hash that the page's content had.
        key: u32,
        /// The guest's number.
        guest: u8,
        /// The page's number within the guest.
        ppn: U24,
        /// The frame's number within the machine.
        mpn: U24,
    },
}
