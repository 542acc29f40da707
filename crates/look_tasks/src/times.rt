//! The times of looks.

/// While much is found the time between two looks is so many times shorter.
pub const BUSY_PART: u64 = 4;

/// While next to nothing is found it becomes longer, until it is so many times as long,
pub const CALM_PART: u64 = 2;

/// by a so many-th after each look.
pub const LONGER_PART: u64 = 4;

/// It does so once as many looks in a row have found next to nothing.
pub const CALM_LOOKS: u32 = 30;

/// So many looks come sooner after there is a new window or a new lender.
pub const EAGER_LOOKS: u32 = 8;

/// A look finds much if so many pages at least came to be shared,
pub const MUCH: u64 = 256;

/// and at least one in so many pages.
pub const MUCH_PART: u64 = 128;

/// It finds next to nothing if no more pages came to be shared,
pub const FOUND_LITTLE: u64 = 4;

/// and if no more were asked about that weren't asked about before.
pub const ASKED_LITTLE: u64 = 32;

/// A pause is a so many-th of the time between two looks at least, also where looks last long.
pub const LEAST_PART: u64 = 16;

/// The processor time that asking about a page again takes, about, in nanoseconds.
pub const AGAIN_NS: u64 = 250;

/// Such questions are dear if they take a so many-th of a look's processor time.
pub const DEAR_PART: u64 = 8;

/// A page that nobody else has is asked about again at one look in so many at least.
pub const TURNS_MOST: u32 = 512;

/// It is asked about at one look in so many at most.
pub const TURNS_LEAST: u32 = 4;

/// What a look found, and what it took.
#[repr(C)]
#[derive(Clone, Copy)]
pub struct LookFinds {
    /// How long it lasted, in milliseconds.
    pub took_ms: u64,
    /// Its processor time in nanoseconds.
    pub spent_ns: u64,
    /// The pages that came to be shared in it.
    pub found: u64,
    /// The questions that it asked,
    pub asked: u64,
    /// and those of them that were asked before.
    pub again: u64,
    /// The pages of all windows.
    pub pages: u64,
}

/// When looks begin. Any numbers are times of looks.
#[repr(C)]
#[derive(Clone, Copy)]
pub struct LookTimes {
    /// The time between the beginnings of two looks, in milliseconds, where nothing makes it shorter or longer.
    pub period_ms: u32,
    /// How many looks in a row have found next to nothing, up to `CALM_LOOKS`.
    pub calm: u32,
    /// How many looks come sooner still.
    pub eager: u32,
    /// A page that nobody else has is asked about again at one look in so many.
    pub turns: u32,
    /// The time between the beginnings of the last look and the next one, in milliseconds.
    pub now_ms: u64,
}
