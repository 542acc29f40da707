//! Frames and lists of them.
ghost use Rattle.std.specs.Prelude.{IfOk};
ghost use Rattle.machine_frames.specs.FrameMap.{IsTaken};
ghost use Rattle.page_digest.specs.Many.{AreTaken};

use machine_frames::{Frames, FramesFault};
use std::alloc::{AllocError, Allocator};
use std::process::Abort;

/// Two frames: one of zeros, and one that begins with 0x41.
#[derive(Drop)]
pub(crate) struct Two<A: Allocator> {
    pub(crate) frames: Frames<A>,
    pub(crate) blank: u32,
    pub(crate) letter: u32,
    ghost blank_taken: { IsTaken frames blank },
    ghost letter_taken: { IsTaken frames letter },
}

/// Makes frames, of which no more is known.
fn new_frames<A: Allocator + Clone>(alloc: A, count: u32) -> Result<Frames<A>, FramesFault> {
    Frames::new(alloc, count)
}

pub(crate) fn two_frames<A: Allocator + Clone>(rt: &impl Abort, alloc: A) -> Two<A> {
    let mut frames = new_frames(alloc, 2).expect(rt, "memory");
    let blank = frames.take_zeroed().expect(rt, "full");
    let letter = frames.take_zeroed().expect(rt, "full");
    frames.write(letter, 0, &[0x41]);
    Two {
        frames,
        blank,
        letter,
    }
}

/// Makes `count` pairs of a salt and one of the two frames in turn. The first two salts are 0, the next two 9, and so
/// on.
pub(crate) fn pairs_of<A: Allocator, B: Allocator>(
    alloc: B,
    two: &Two<A>,
    count: u8,
) -> Result<Vec<(u32, u32), B>, AllocError>
    ensures { IfOk result (λ pairs. AreTaken two.now.frames pairs.items) }
{
    let mut pairs = Vec::with_capacity(alloc, usize::from(count))?;
    for n in 0..count {
        let mpn = frame_of(two, n);
        pairs.push_reserved((u32::from(n) / 2 * 9, mpn));
    }
    Ok(pairs)
}

fn frame_of<A: Allocator>(two: &Two<A>, n: u8) -> u32
    ensures { IsTaken two.now.frames result }
{
    if n % 2 == 0 { two.blank } else { two.letter }
}
