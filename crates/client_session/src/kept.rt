//! The numbers of a session.

use crate::session::MAX_UNHEARD;
use host_messages::NAME_BYTES;

/// The numbers of a session, for a caller that keeps no [`ClientSession`](crate::ClientSession). Any numbers are those of a session: what is
/// beyond a limit counts as the limit. All zeros are a client that has no session.
#[repr(C)]
#[derive(Clone, Copy)]
pub struct KeptSession {
    /// How many replies to `Lend` were counted.
    pub loans: u64,
    /// The slots that were given up and that the host may not have heard of, at the first `count` places.
    pub unheard: [u64; MAX_UNHEARD],
    pub count: u32,
    /// How many of them were said on this connection.
    pub said: u32,
    /// How many questions were asked, or pages are to be lent.
    pub open: u32,
    /// The session's name.
    pub name: [u8; NAME_BYTES],
    /// 0: apart, 1: greeting, 2: talking, 3: asked, 4: lending.
    pub link: u8,
    /// Whether there is a session.
    pub has_name: bool,
    /// Whether it isn't known what a lend has given.
    pub unknown: bool,
}
