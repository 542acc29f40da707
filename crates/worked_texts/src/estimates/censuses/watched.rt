//! Pages in memory whose reads are watched.
use crate::estimates::censuses::pages::{Memory, Unreadable};
use memory_pages::PageSource;
use page_model::Page;

/// Hears of each read before it is made.
pub trait Watch: Sync {
    /// Whether a read of this many pages may be made.
    fn allows(&self, pages: usize) -> bool;
}

/// Pages in memory, and what watches each read of them.
#[derive(Drop)]
pub struct Watched<W> {
    pub memory: Memory,
    pub watch: W,
}

impl<W: Watch> PageSource for Watched<W> {
    type Fault = Unreadable;

    ghost pages = { λ s. s.memory.pages.items };

    ghost is_steady = { λ _. Unit {0} };

    fn count(&self) -> u32 {
        self.memory.count()
    }

    fn read(&self, first: u32, into: &mut [Page]) -> Result<(), Unreadable> {
        if !self.watch.allows(into.len()) {
            return Err(Unreadable);
        }
        self.memory.read(first, into)
    }
}
