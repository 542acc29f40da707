//! What a guest gets as an answer.
ghost use Rattle.std.specs.Prelude.{◌≡◌};
ghost use Rattle.page_model.specs.Closing.{is_closed};

use crate::Report;
use crate::limits::MAX_ACCESS_BYTES;
use arrayvec::ArrayVec;

/// The answer to one request.
#[derive(Clone, Debug, PartialEq, Eq, Drop)]
pub enum Verdict {
    /// The request named no page of the guest.
    NoPage,
    /// The page has no frame, so there was nothing to propose or to release.
    Unmapped,
    /// The proposed page is shared already.
    Already,
    /// The page now shares the frame of equal shared pages: this many pages share it, including this one.
    Joined(u32),
    /// The page and the hint page, which was equal to it, now share one frame.
    Paired,
    /// No match was found, so this page is now the hint under its key.
    Hinted,
    /// The page was already the hint under its key.
    Kept,
    /// The hint under the key was stale, and this page replaced it.
    Replaced,
    /// Another content has the same hash or key: the page stays as it is.
    Ineligible,
    /// A store gave the page a frame.
    Mapped,
    /// The page, which has a frame of its own, was written.
    Stored,
    /// A store gave the page a copy of the shared frame; the other pages keep the shared one.
    Copied,
    /// The last page of a shared frame was written, and the frame is the page's own again.
    Taken,
    /// A store that needed a frame found none free, and nothing changed.
    NoFrame,
    /// The bytes that a load asked for.
    Bytes(ArrayVec<u8, MAX_ACCESS_BYTES>),
    /// The page gave up its frame. Holds whether the frame is free now.
    Released(bool),
    /// What the machine counts, including this request.
    Totals(Report),
    /// The guest makes no more requests.
    Closed,
}

impl Verdict {
    /// Whether this is the answer to a guest's last request.
    pub fn is_closed(&self) -> bool
        ensures { result ≡ is_closed self.now }
    {
        matches!(self, Verdict::Closed)
    }
}
