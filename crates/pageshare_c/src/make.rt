//! A new machine for a handle.
ghost use Rattle.std.specs.Prelude.{◌≡◌, ◌≤◌, ◌<◌, ◌↔◌, None, Some, IfOk, IfErr};
ghost use Rattle.std.specs.Option.{option_map};
ghost use Rattle.page_model.specs.Limits.{shapes};
ghost use Rattle.page_model.specs.Replay.{empty_state};
ghost use Rattle.page_model.specs.declared.limits.TheConstants.{MAX_FRAMES};
ghost use Rattle.machine_frames.specs.FrameMap.{no_frames};
ghost use Rattle.merge_core.specs.Shown.{state_of};
ghost use Rattle.pageshare_c.specs.Hashed.{hash_number, shown_in};
ghost use Rattle.pageshare_c.specs.Made.{IsUnfit, Makes};

use crate::hashed_core::HashedCore;
use crate::machine::Machine;
use c_surface::{Handle, status};
use machine_frames::{Frames, FramesFault, Region};
use merge_core::Core;
use page_digest::{FoldHash, Sha256Hash, WideSha256Hash};
use page_model::{MachineShape, ShapeFault};
use std::alloc::{AllocError, Global};

/// The number by which C names SHA-256.
pub const SHA256: u32 = 0;

/// The number by which C names the fast hash.
pub const FOLD: u32 = 1;

/// The number by which C names SHA-256 of eight pages at once.
pub const WIDE_SHA256: u32 = 2;

/// Makes a machine, whose frames are in the region if there is one, and returns the status.
pub(crate) fn make(
    alloc: Global,
    machine: &mut Machine,
    frames: u32,
    pages: &[u32],
    salts: &[u32],
    hash: u32,
    region: Option<Region>,
) -> u32
    ensures { Makes frames pages.now salts.now hash (option_map (λ r. r.pages) region) machine.old.slot.core machine.new.slot.core result }
{
    if machine.is_live() {
        return status::IN_USE;
    }
    if hash > WIDE_SHA256 {
        return status::HASH;
    }
    let shape = match MachineShape::new(frames, pages, salts) {
        Err(ShapeFault::Frames) => return status::FRAMES,
        Err(ShapeFault::Guests) => return status::GUESTS,
        Err(ShapeFault::Pages) => return status::PAGES,
        Ok(shape) => shape,
    };
    let free = match new_frames(alloc, shape.frames(), region) {
        Err(FramesFault::Frames) => return status::FRAMES,
        Err(FramesFault::Region) => return status::REGION,
        Err(FramesFault::OutOfMemory) => return status::MEMORY,
        Ok(free) => free,
    };
    let core = match new_core(alloc, &shape, hash, free) {
        Err(_) => return status::MEMORY,
        Ok(core) => core,
    };
    match Box::new(alloc, core) {
        Err(_) => status::MEMORY,
        Ok(core) => {
            machine.put(core);
            status::OK
        }
    }
}

/// Makes this many frames, in the region if there is one.
pub(crate) fn new_frames(
    alloc: Global,
    frames: u32,
    region: Option<Region>,
) -> Result<Frames, FramesFault>
    requires { (1 ≤ frames) × (frames ≤ MAX_FRAMES) }
    ensures ok { IfOk result (λ free. free ≡ no_frames frames) }
    ensures fits { IfOk result (λ _. ¬ IsUnfit (option_map (λ r. r.pages) region) frames) }
    ensures in_range { IfErr result (λ fault. ¬ (fault ≡ FramesFault.Frames)) }
    ensures region { IfErr result (λ fault. fault ≡ FramesFault.Region ↔ IsUnfit (option_map (λ r. r.pages) region) frames) }
{
    match region {
        None => match Frames::new(alloc, frames) {
            Err(_) => Err(FramesFault::OutOfMemory),
            Ok(free) => Ok(free),
        },
        Some(region) => Frames::in_region(alloc, frames, region),
    }
}

/// Makes a core of the hash with this number, with these frames.
fn new_core(
    alloc: Global,
    shape: &MachineShape<'_>,
    hash: u32,
    frames: Frames,
) -> Result<HashedCore, AllocError>
    requires hash { hash ≤ WIDE_SHA256 }
    requires frames { frames ≡ no_frames shape.now.frames }
    ensures empty { IfOk result
        (λ core. state_of (shown_in core) ≡ empty_state shape.now.frames (shapes shape.now.salts shape.now.pages)) }
    ensures hash { IfOk result (λ core. hash_number core ≡ hash) }
{
    if hash == SHA256 {
        let core = Core::with_frames(alloc, shape, Sha256Hash, frames)?;
        return Ok(HashedCore::Sha256(core));
    }
    if hash == FOLD {
        let core = Core::with_frames(alloc, shape, FoldHash, frames)?;
        return Ok(HashedCore::Fold(core));
    }
    let core = Core::with_frames(alloc, shape, WideSha256Hash, frames)?;
    Ok(HashedCore::WideSha256(core))
}
