//! What images are read from.
ghost use Rattle.std.specs.Prelude.{◌≡◌, ℕ, List, ◌+◌, ◌*◌, ◌^◌, ◌<◌, ◌≤◌, OnOk, length, take, drop};
ghost use Rattle.memory_images.specs.Pages.{pages_at};

use page_model::{PAGE_BYTES, Page};

/// Bytes that can be read at any place.
pub trait ReadAt {
    /// Why bytes can't be read.
    type Fault: Drop;

    /// The bytes.
    ghost bytes: { Self → List ℕ };

    /// Each read returns these bytes. Nobody can say so of a file that the system may change.
    ghost is_steady: { Self → Type 0 };

    /// Returns how many bytes there are.
    fn len(&self) -> u64
        ensures { result ≡ length (bytes self.now) };

    /// Reads bytes into the list until it is full, from byte `at` on. After a fault, the list may hold anything.
    fn read_at(&self, at: u64, into: &mut [u8]) -> Result<(), Self::Fault>
        requires within { at + length into.old ≤ length (bytes self.now) }
        ensures read { OnOk result (is_steady self.now → into.new ≡ take (length into.old) (drop at (bytes self.now))) };

    /// Reads pages into the list until it is full, the first from byte `at` on. After a fault, the list may hold
    /// anything. A type that reads many pages faster at once than one by one does so here.
    fn read_pages_at(&self, at: u64, into: &mut [Page]) -> Result<(), Self::Fault>
        requires within { at + 4096 * length into.old ≤ length (bytes self.now) }
        requires fits { length (bytes self.now) < 2 ^ 64 }
        ensures read { OnOk result (is_steady self.now → into.new ≡ pages_at (bytes self.now) at (length into.old)) }
    {
        for i in 0..into.len() {
            self.read_at(at + (i * PAGE_BYTES) as u64, &mut into[i][..])?;
        }
        Ok(())
    }
}
