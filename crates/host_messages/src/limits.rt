//! The numbers of the format.

/// The version of the format. The first message of either side names it.
pub const VERSION: u32 = 2;

/// The most pages, or slots, in one message.
pub const MAX_IN_MESSAGE: usize = 128;

/// The bytes of a message's head: its kind, and how many items follow.
pub const HEAD_BYTES: usize = 8;

/// The bytes of the longest message of either side.
pub const MAX_MESSAGE_BYTES: usize = 2056;

/// The bytes of a session's name.
pub const NAME_BYTES: usize = 16;

/// The bytes that name a session to resume: its name, and how many replies to `Lend` the client has received in it.
pub const WANTED_BYTES: usize = 24;

/// Added to a page's number in a passing question, which the host doesn't note. Every page's number is below it.
pub const PASSING: u64 = 1 << 63;

/// The kind of a client's first message, which begins or resumes a session.
pub const HELLO: u32 = 1;

/// The kind of a client's message that asks about pages by their fingerprints.
pub const ASK: u32 = 2;

/// The kind of a client's message that lends pages.
pub const LEND: u32 = 3;

/// The kind of a client's message that releases slots.
pub const RELEASE: u32 = 4;

/// The kind of a host's reply to `HELLO`.
pub const WELCOME: u32 = 17;

/// The kind of a host's reply to `ASK`.
pub const SEEN: u32 = 18;

/// The kind of a host's reply to `LEND`.
pub const LOANS: u32 = 19;
