//! What a call for C returns: a number for each cause, which `lib/include/pageshare.h` and `lib/include/pageshare_host.h` have too.
//!
//! A number of both libraries means the same in both. No other file spells one.

/// The call did what it was asked for.
pub const OK: u32 = 0;

/// A number of frames that no machine has.
pub const FRAMES: u32 = 1;

/// No guest, more than a machine may have, or not as many salts as guests.
pub const GUESTS: u32 = 2;

/// A guest with no page, or more pages in total than a machine may have.
pub const PAGES: u32 = 3;

/// Memory was refused.
pub const MEMORY: u32 = 4;

/// The handle holds something already.
pub const IN_USE: u32 = 5;

/// The handle doesn't hold what the call is for: a machine, a domain or a host, which is made.
pub const NO_MACHINE: u32 = 6;

/// There is no such guest.
pub const NO_GUEST: u32 = 7;

/// The machine has counted 4,294,967,295 requests, as many as it can.
pub const FULL: u32 = 8;

/// No byte, or more than one request may name; of a client that leaves, an output buffer for no frame.
pub const LENGTH: u32 = 9;

/// The last byte would be past the page's end.
pub const CROSSES: u32 = 10;

/// There is no such page.
pub const NO_PAGE: u32 = 11;

/// The page has no frame.
pub const UNMAPPED: u32 = 12;

/// The region has room for another number of frames.
pub const REGION: u32 = 13;

/// There is no such hash.
pub const HASH: u32 = 14;

/// No machine, or more than a domain may have.
pub const MACHINES: u32 = 16;

/// No slot in each machine, or more than one may have.
pub const SLOTS: u32 = 17;

/// Room for no client, or for more than a domain may have.
pub const CLIENTS: u32 = 18;

/// Room for no question, or for more than a domain may remember.
pub const RECENT: u32 = 19;

/// There are as many clients, or sessions, as there may be.
pub const NO_ROOM: u32 = 20;

/// No such client is in.
pub const NO_CLIENT: u32 = 21;

/// The page's machine has no free slot.
pub const NO_SLOT: u32 = 22;

/// The page joins no other, and all frames of its machine but the spare one are in use.
pub const NO_FRAME: u32 = 23;

/// The slot isn't the client's.
pub const NOT_ITS_SLOT: u32 = 24;

/// There is no such session, or it takes no messages.
pub const NO_SESSION: u32 = 32;

/// An output buffer is too short.
pub const SHORT: u32 = 33;

/// A packet with no whole head.
pub const FAULT_HEAD: u32 = 64;

/// A message of a kind that no client sends.
pub const FAULT_KIND: u32 = 65;

/// A HELLO of another version.
pub const FAULT_VERSION: u32 = 66;

/// More pages or slots than a message may have.
pub const FAULT_COUNT: u32 = 67;

/// Another number of bytes than the kind and the count say.
pub const FAULT_LENGTH: u32 = 68;

/// A first message that isn't HELLO.
pub const FAULT_EARLY: u32 = 69;

/// A HELLO in a session that has begun.
pub const FAULT_AGAIN: u32 = 70;

/// More pages lent than the buffer has.
pub const FAULT_PAGES: u32 = 71;

/// A HELLO while no client can enter.
pub const FAULT_CLIENTS: u32 = 72;

/// An answer that isn't 0 or 1. Only a host's messages have answers, so no packet of a client has this fault.
pub const FAULT_ANSWER: u32 = 73;
