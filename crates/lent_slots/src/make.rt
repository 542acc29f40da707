//! The parts of new slots.
ghost use Rattle.std.specs.Prelude.{◌≡◌, ◌≤◌, length, replicate, None, IfOk};
ghost use Rattle.machine_frames.specs.FrameMap.{no_frames};
ghost use Rattle.page_model.specs.declared.limits.TheConstants.{MAX_FRAMES, MAX_PAGES};
ghost use Rattle.lent_slots.specs.Fits.{Fits};
ghost use Rattle.lent_slots.specs.Noted.{no_slots};

use crate::holding::ClientSlots;
use machine_frames::Frames;
use merge_core::Core;
use page_digest::PageHash;
use page_model::MachineShape;
use std::alloc::{AllocError, Allocator};

/// Makes a core whose one guest has a page for each slot.
pub fn new_core<H: PageHash + Drop, A: Allocator + Clone>(
    alloc: A,
    count: u32,
    salt: u32,
    hash: H,
    frames: Frames<A>,
) -> Result<Core<H, A>, AllocError>
    requires slots { (1 ≤ count) × (count ≤ MAX_PAGES) }
    requires frames { (1 ≤ length frames) × (length frames ≤ MAX_FRAMES) × (frames ≡ no_frames (length frames)) }
    ensures frames { IfOk result (λ core. core.frames ≡ frames) }
    ensures fits { IfOk result (λ core. Fits (replicate count None) core) }
{
    let pages = [count];
    let salts = [salt];
    match MachineShape::new(frames.total(), &pages, &salts) {
        Err(_) => Err(AllocError),
        Ok(shape) => {
            let core = Core::without_forecasts(alloc, &shape, hash, frames)?;
            core.frames();
            Ok(core)
        }
    }
}

/// Returns the entries of `clients` clients that have no slot.
pub fn new_clients<A: Allocator>(alloc: A, clients: u32) -> Result<Vec<ClientSlots, A>, AllocError>
    ensures { IfOk result (λ noted. noted.items ≡ replicate clients no_slots) }
{
    let mut noted = Vec::with_capacity(alloc, clients as usize)?;
    for _ in 0..clients {
        noted.push_reserved(ClientSlots { count: 0, start: 0 });
    }
    Ok(noted)
}
