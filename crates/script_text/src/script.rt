//! Scripts.
ghost use Rattle.std.specs.Prelude.{◌≡◌, ◌≤◌, All, false, length};
ghost use Rattle.page_model.specs.Closing.{has_close};
ghost use Rattle.merge_machine.specs.Limits.{IsMachine};
ghost use Rattle.merge_machine.specs.Scripts.{entries_needed};

use merge_machine::Config;
use page_model::{MachineShape, Request, ShapeFault};
use std::alloc::Allocator;

/// A machine with the sizes of its rings and its journal, and what each guest asks for, guest 0's list first.
///
/// There can be such a machine, each guest has a list, no list holds a close, and the journal has room for all requests and a
/// close for each guest.
#[derive(Drop)]
pub struct Script<A: Allocator> {
    pub config: Config<A>,
    pub scripts: Vec<Vec<Request, A>, A>,
    pub ghost machine: { IsMachine config },
    pub ghost guests: { length scripts.items ≡ length config.pages.items },
    pub ghost plain: { All (λ script. has_close script.items ≡ false) scripts.items },
    pub ghost room: { entries_needed scripts.items ≤ config.journal },
}

impl<A: Allocator> Script<A> {
    /// Returns the shape of the script's machine.
    pub fn shape(&self) -> MachineShape<'_>
        ensures { result ≡ record {
          frames = self.now.config.frames;
          pages = self.now.config.pages.items;
          salts = self.now.config.salts.items;
        } }
    {
        let config = &self.config;
        match MachineShape::new(config.frames, &config.pages, &config.salts) {
            Ok(shape) => shape,
            Err(ShapeFault::Frames) => unreachable!(),
            Err(ShapeFault::Guests) => unreachable!(),
            Err(ShapeFault::Pages) => unreachable!(),
        }
    }
}
