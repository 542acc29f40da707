//! Journals.
ghost use Rattle.std.specs.Prelude.{◌≡◌, ◌<◌, length};
ghost use Rattle.page_model.specs.Limits.{AreLimits};
ghost use Rattle.journal_text.specs.Texts.{AreBelow};
ghost use Rattle.page_model.specs.declared.limits.TheConstants.{MAX_ENTRIES};

use page_model::{Entry, MachineShape, ShapeFault};
use std::alloc::Allocator;

/// A machine's number of frames, its guests' numbers of pages and salts, guest 0's first, and its requests, each with its guest.
///
/// The machine is within the limits, with a salt for each guest, each entry is of one of its guests, and there
/// are fewer than `MAX_ENTRIES` entries.
#[derive(Drop)]
pub struct Journal<A: Allocator> {
    pub frames: u32,
    pub pages: Vec<u32, A>,
    pub salts: Vec<u32, A>,
    pub entries: Vec<Entry, A>,
    pub ghost limits: { AreLimits frames pages.items salts.items },
    pub ghost members: { AreBelow (length pages.items) entries.items },
    pub ghost few: { length entries.items < MAX_ENTRIES },
}

impl<A: Allocator> Journal<A> {
    /// Returns the shape of the journal's machine.
    pub fn shape(&self) -> MachineShape<'_>
        ensures { result ≡ record { frames = self.now.frames; pages = self.now.pages.items; salts = self.now.salts.items } }
    {
        match MachineShape::new(self.frames, &self.pages, &self.salts) {
            Ok(shape) => shape,
            Err(ShapeFault::Frames) => unreachable!(),
            Err(ShapeFault::Guests) => unreachable!(),
            Err(ShapeFault::Pages) => unreachable!(),
        }
    }
}
