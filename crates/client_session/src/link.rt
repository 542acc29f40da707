//! How a session is connected.
ghost use Rattle.std.specs.Prelude.{◌≡◌};
ghost use Rattle.client_session.specs.Sessions.{is_greeting, is_talking, is_lending, is_asked, is_lent};

/// How a session is connected, and what is open on its connection.
#[derive(Clone, Copy, Debug, PartialEq, Eq)]
pub enum Link {
    /// It has no connection.
    Apart,
    /// `Hello` was said, and `Welcome` isn't there.
    Greeting,
    /// Nothing is open.
    Talking,
    /// So many questions were asked.
    Asked(u32),
    /// So many pages are to be lent.
    Lending(u32),
}

/// What came of a `Welcome`.
#[derive(Clone, Copy, Debug, PartialEq, Eq)]
pub enum Welcomed {
    /// No `Hello` is open, and nothing changed.
    Unasked,
    /// The session was taken up: its slots are as they were, and a lend whose reply was lost has given none.
    TakenUp,
    /// Another session has begun: no slot of before is the client's.
    Begun,
}

impl Link {
    pub(crate) fn is_greeting(self) -> bool
        ensures { result ≡ is_greeting self }
    {
        match self {
            Link::Apart => false,
            Link::Greeting => true,
            Link::Talking => false,
            Link::Asked(_) => false,
            Link::Lending(_) => false,
        }
    }

    pub(crate) fn is_talking(self) -> bool
        ensures { result ≡ is_talking self }
    {
        match self {
            Link::Apart => false,
            Link::Greeting => false,
            Link::Talking => true,
            Link::Asked(_) => false,
            Link::Lending(_) => false,
        }
    }

    /// Whether a lend is open.
    pub(crate) fn is_lending(self) -> bool
        ensures { result ≡ is_lending self }
    {
        match self {
            Link::Apart => false,
            Link::Greeting => false,
            Link::Talking => false,
            Link::Asked(_) => false,
            Link::Lending(_) => true,
        }
    }

    /// Whether so many questions are open.
    pub(crate) fn is_asked(self, count: u32) -> bool
        ensures { result ≡ is_asked count self }
    {
        match self {
            Link::Apart => false,
            Link::Greeting => false,
            Link::Talking => false,
            Link::Asked(open) => open == count,
            Link::Lending(_) => false,
        }
    }

    /// Whether a lend of so many pages is open.
    pub(crate) fn is_lent(self, count: usize) -> bool
        ensures { result ≡ is_lent count self }
    {
        match self {
            Link::Apart => false,
            Link::Greeting => false,
            Link::Talking => false,
            Link::Asked(_) => false,
            Link::Lending(open) => open as usize == count,
        }
    }
}
