//! The greatest sizes of a machine. The least is 1 for each, except for watches and texts, where it is 0.

/// The bytes of one page.
pub type Page = [u8; PAGE_BYTES];

/// How many bytes a page has.
pub const PAGE_BYTES: usize = 4096;

/// The most bytes of one store or load.
pub const MAX_ACCESS_BYTES: usize = 64;

/// The most guests that a machine has.
pub const MAX_GUESTS: usize = 64;

/// The most pages that all guests have together.
pub const MAX_PAGES: u32 = 1_048_576;

/// The most frames that machine memory has.
pub const MAX_FRAMES: u32 = 1_048_576;

/// The most items that a ring can hold.
pub const MAX_RING_CAPACITY: u32 = 65_536;

/// The most entries that a journal has.
pub const MAX_ENTRIES: u32 = 16_777_216;

/// The most threads that hash pages.
pub const MAX_WORKERS: u32 = 64;

/// The most watches of a machine's published reports.
pub const MAX_WATCHES: u32 = 8;

/// The most bytes of an input text.
pub const MAX_TEXT_BYTES: usize = 67_108_864;
