//! Sessions.
ghost use Rattle.std.specs.Prelude.{◌≡◌};
ghost use Rattle.host_sessions.specs.Table.{is_talking, is_gone, gone_link, linked, heard, heard_with, lent, takes, faulted, gone, is_free, is_gone_as, is_named};

use host_messages::{MessageFault, Name};
use thiserror::Error;

/// Why a session takes no more messages.
#[derive(Clone, Copy, Debug, PartialEq, Eq, Error)]
pub enum SessionFault {
    /// A packet is no message.
    #[error("the packet is no message: {0}")]
    Message(MessageFault),
    /// The first message isn't `Hello`.
    #[error("the first message isn't a hello")]
    Early,
    /// `Hello` in a session that has begun.
    #[error("a second hello")]
    Again,
    /// `Lend` of more pages than lie in the buffer.
    #[error("more pages are to be lent than lie in the buffer")]
    Pages,
    /// As many clients are in as there may be.
    #[error("no client can enter")]
    Clients,
}

/// How a session that has begun is connected.
#[derive(Clone, Copy, Debug, PartialEq, Eq)]
pub enum Link {
    /// It takes messages.
    Talking,
    /// Its connection has ended. Another one can resume it by its name.
    Gone,
    /// It sent a packet at fault, and takes no more messages.
    Broken(SessionFault),
    /// Its process has ended, and its slots are being released.
    Ended,
}

/// A session that has begun.
#[derive(Clone, Copy, Debug, PartialEq, Eq)]
pub struct Begun {
    /// By this name another connection can resume it.
    pub name: Name,
    /// Its number among the domain's clients.
    pub client: u32,
    /// How many messages it sent, modulo 2^64.
    pub messages: u64,
    /// How many replies to `Lend` were sent in it, modulo 2^64. When it is resumed, the count starts from the number that its
    /// client says.
    pub loans: u64,
    /// How it is connected.
    pub link: Link,
}

/// What a number of a session stands for.
#[derive(Clone, Copy, Debug, PartialEq, Eq)]
pub enum Session {
    /// No session has the number.
    Free,
    /// A connection that has said nothing, and the name that its session will have.
    Silent(Name),
    /// A connection whose first packet was at fault.
    Refused(SessionFault),
    /// A session that has begun.
    Begun(Begun),
}

impl Link {
    /// Whether the session takes messages.
    fn is_talking(self) -> bool
        ensures { result ≡ is_talking self }
    {
        match self {
            Link::Talking => true,
            Link::Gone => false,
            Link::Broken(_) => false,
            Link::Ended => false,
        }
    }

    /// Whether the session can be resumed.
    fn is_gone(self) -> bool
        ensures { result ≡ is_gone self }
    {
        match self {
            Link::Talking => false,
            Link::Gone => true,
            Link::Broken(_) => false,
            Link::Ended => false,
        }
    }

    /// Returns the link after the connection has ended.
    fn gone(self) -> Link
        ensures { result ≡ gone_link self }
    {
        match self {
            Link::Talking => Link::Gone,
            Link::Gone => Link::Gone,
            Link::Broken(fault) => Link::Broken(fault),
            Link::Ended => Link::Ended,
        }
    }
}

impl Begun {
    /// Returns the session with another link.
    pub(crate) fn linked(self, link: Link) -> Begun
        ensures { result ≡ linked self link }
    {
        let name = self.name;
        Begun {
            name,
            client: self.client,
            messages: self.messages,
            loans: self.loans,
            link,
        }
    }

    /// Returns the session after one more message. It takes messages.
    pub(crate) fn heard(self) -> Begun
        ensures { result ≡ heard self }
    {
        self.heard_with(self.loans)
    }

    /// Returns the session after one more message, with `loans` replies to `Lend` counted. It takes messages.
    pub(crate) fn heard_with(self, loans: u64) -> Begun
        ensures { result ≡ heard_with self loans }
    {
        let name = self.name;
        Begun {
            name,
            client: self.client,
            messages: self.messages.wrapping_add(1),
            loans,
            link: Link::Talking,
        }
    }

    /// Returns the session after a message that lent.
    pub(crate) fn lent(self) -> Begun
        ensures { result ≡ lent self }
    {
        self.heard_with(self.loans.wrapping_add(1))
    }
}

impl Session {
    /// Whether no session has the number.
    pub fn is_free(&self) -> bool
        ensures { result ≡ is_free self.now }
    {
        match self {
            Session::Free => true,
            Session::Silent(_) => false,
            Session::Refused(_) => false,
            Session::Begun(_) => false,
        }
    }

    /// Whether the session takes messages.
    pub fn takes(&self) -> bool
        ensures { result ≡ takes self.now }
    {
        match self {
            Session::Free => false,
            Session::Silent(_) => true,
            Session::Refused(_) => false,
            Session::Begun(begun) => begun.link.is_talking(),
        }
    }

    /// Returns the session after a packet at fault.
    pub(crate) fn faulted(self, fault: SessionFault) -> Session
        ensures { result ≡ faulted self fault }
    {
        match self {
            Session::Free => Session::Free,
            Session::Silent(_) => Session::Refused(fault),
            Session::Refused(first) => Session::Refused(first),
            Session::Begun(begun) => Session::Begun(begun.linked(Link::Broken(fault))),
        }
    }

    /// Returns the session after its connection has ended.
    pub(crate) fn gone(self) -> Session
        ensures { result ≡ gone self }
    {
        match self {
            Session::Free => Session::Free,
            Session::Silent(_) => Session::Free,
            Session::Refused(_) => Session::Free,
            Session::Begun(begun) => Session::Begun(begun.linked(begun.link.gone())),
        }
    }

    /// Whether the session has this name, and can be resumed.
    pub(crate) fn is_gone_as(&self, name: &Name) -> bool
        ensures { result ≡ is_gone_as name.now self.now }
    {
        match self {
            Session::Free => false,
            Session::Silent(_) => false,
            Session::Refused(_) => false,
            Session::Begun(begun) => begun.link.is_gone() && begun.name == *name,
        }
    }

    /// Whether the session has this name, nothing was at fault in it, and its process has not ended.
    pub(crate) fn is_named(&self, name: &Name) -> bool
        ensures { result ≡ is_named name.now self.now }
    {
        match self {
            Session::Free => false,
            Session::Silent(_) => false,
            Session::Refused(_) => false,
            Session::Begun(begun) => {
                (begun.link.is_talking() || begun.link.is_gone()) && begun.name == *name
            }
        }
    }
}
