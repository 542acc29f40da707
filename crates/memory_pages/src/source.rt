//! Where pages come from.
ghost use Rattle.std.specs.Prelude.{◌≡◌, ℕ, List, ◌+◌, ◌≤◌, OnOk, length, take, drop};

use page_model::Page;

/// Pages that can be read, in any order and from any thread.
pub trait PageSource: Sync {
    /// Why a page can't be read.
    type Fault: Send + Drop;

    /// The bytes of each page.
    ghost pages: { Self → List (List ℕ) };

    /// Each read returns these bytes. Nobody can say so of a file that the system may change.
    ghost is_steady: { Self → Type 0 };

    /// Returns how many pages there are.
    fn count(&self) -> u32
        ensures { result ≡ length (pages self.now) };

    /// Reads pages into the list until it is full, from page `first` on. After a fault, the list may hold anything.
    fn read(&self, first: u32, into: &mut [Page]) -> Result<(), Self::Fault>
        requires within { first + length into.old ≤ length (pages self.now) }
        ensures read { OnOk result (is_steady self.now → into.new ≡ take (length into.old) (drop first (pages self.now))) };
}

/// Hears how much was read. Several threads may report to it.
pub trait Progress: Sync {
    /// Reports that `pages` more pages were read.
    fn advance(&self, pages: usize);
}
