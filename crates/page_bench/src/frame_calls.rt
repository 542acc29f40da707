//! The calls of `Frames`, each over all frames.
ghost use Rattle.machine_frames.specs.FrameMap.{IsTaken};

use machine_frames::Frames;
use std::alloc::Global;

/// Frames, of which the first that was taken stays taken.
#[derive(Drop)]
pub struct Held {
    pub frames: Frames,
    pub first: u32,
    pub ghost kept: { IsTaken frames first },
}

/// Makes frames, and takes the first.
pub fn hold(alloc: Global, count: u32) -> Option<Held> {
    let mut frames = Frames::new(alloc, count).ok()?;
    let first = frames.take_zeroed()?;
    Some(Held { frames, first })
}

/// Takes each free frame, as a copy of the first or zeroed, and returns how many these were.
pub fn take_all(held: &mut Held, copies: bool) -> u32 {
    for taken in 0..held.frames.total() {
        if !take(held, copies) {
            return taken;
        }
    }
    held.frames.total()
}

fn take(held: &mut Held, copies: bool) -> bool {
    if copies {
        held.frames.take_copy(held.first).is_some()
    } else {
        held.frames.take_zeroed().is_some()
    }
}

/// Writes to the start of each frame, if all are taken, and returns how many these were.
pub fn write_all(held: &mut Held, bytes: &[u8; 64]) -> u32 {
    let total = held.frames.total();
    if held.frames.used() < total {
        return 0;
    }
    for mpn in 0..total {
        held.frames.write(mpn, 0, bytes);
    }
    total
}

/// Gives back each frame but the first, if all are taken, and returns how many these were.
pub fn give_back_others(held: &mut Held) -> u32 {
    let total = held.frames.total();
    if held.frames.used() < total {
        return 0;
    }
    for mpn in 0..total {
        if mpn != held.first {
            held.frames.give_back(mpn);
        }
    }
    total - held.frames.used()
}
