//! What a caller allows a packet.
ghost use Rattle.std.specs.Prelude.{◌≡◌};
ghost use Rattle.host_messages.specs.declared.limits.TheConstants.{MAX_IN_MESSAGE};
ghost use Rattle.host_sessions.specs.declared.allowance.Process.TheVariants as process;

use host_messages::MAX_IN_MESSAGE;

/// Which other session is of the process that sent a packet.
#[derive(Clone, Copy, Debug, PartialEq, Eq)]
pub enum Process {
    /// It isn't known which sessions are of one process. A `Hello` may take up any session whose connection has ended.
    Unknown,
    /// No other one. A `Hello` takes up no session.
    Alone,
    /// The session with this number, and no further one. A `Hello` may take it up, whether its connection has ended or not, and both
    /// together may have as many slots as one session may.
    Beside(u32),
}

/// What a caller allows a packet, by what it knows of memory and processes.
#[derive(Clone, Copy, Debug, PartialEq, Eq)]
pub struct Allowance {
    /// How many pages of a `Lend` may be lent now. The reply says that the others aren't lent.
    pub most: u32,
    /// Which other session is of the same process.
    pub process: Process,
}

impl Allowance {
    /// Allows all that a packet can ask for where processes aren't known.
    pub fn all() -> Allowance
        ensures { result ≡ record { most = MAX_IN_MESSAGE; process = process.Unknown } }
    {
        Allowance {
            most: MAX_IN_MESSAGE as u32,
            process: Process::Unknown,
        }
    }
}
