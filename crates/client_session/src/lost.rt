//! What isn't known of a session.
ghost use Rattle.std.specs.Prelude.{◌≡◌};

use crate::session::ClientSession;

impl ClientSession {
    /// Whether it isn't known what a lend has given: its reply was lost, and no `Welcome` has come since.
    pub fn is_loan_unknown(&self) -> bool
        ensures { result ≡ self.now.unknown }
    {
        self.unknown
    }
}
