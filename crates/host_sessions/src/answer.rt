//! The result of receiving a packet.
ghost use Rattle.std.specs.Prelude.{◌≡◌};
ghost use Rattle.host_sessions.specs.Replies.{reply_of};

use crate::session::SessionFault;
use arrayvec::ArrayVec;
use host_messages::{HostMessage, Lent, MAX_IN_MESSAGE, Packet, Welcome};

/// The result of receiving a packet.
#[derive(Clone, Debug, PartialEq, Eq, Drop)]
pub enum Received {
    /// No session with this number takes messages. Nothing changed.
    NoSession,
    /// The packet was at fault. Its session takes no more.
    Fault(SessionFault),
    /// The session began.
    Welcome(Welcome),
    /// Session number `.1` was resumed under the number of this connection; `.1` is free now. If its last reply to `Lend` didn't
    /// arrive, that reply's slots were released. `.2` lists for each of them the freed frame, or
    /// [`NO_FRAME`](share_domain::NO_FRAME).
    Resumed(Welcome, u32, ArrayVec<u32, MAX_IN_MESSAGE>),
    /// For each page, whether another page with its fingerprint was asked about lately, or a frame in use has this fingerprint.
    Seen(ArrayVec<bool, MAX_IN_MESSAGE>),
    /// What became of each page.
    Loans(ArrayVec<Lent, MAX_IN_MESSAGE>),
    /// For each slot, the frame that its release freed, or `NO_FRAME`. There is no reply.
    Released(ArrayVec<u32, MAX_IN_MESSAGE>),
}

impl Received {
    /// Returns the packet to reply with, empty if there is no reply.
    pub fn into_reply(self) -> Packet
        ensures { result.items ≡ reply_of self }
    {
        match self {
            Received::NoSession => ArrayVec::new(),
            Received::Fault(_) => ArrayVec::new(),
            Received::Welcome(welcome) => HostMessage::Welcome(welcome).to_bytes(),
            Received::Resumed(welcome, _, _) => HostMessage::Welcome(welcome).to_bytes(),
            Received::Seen(answers) => HostMessage::Seen(answers).to_bytes(),
            Received::Loans(loans) => HostMessage::Loans(loans).to_bytes(),
            Received::Released(_) => ArrayVec::new(),
        }
    }
}
