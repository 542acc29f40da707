//! Free frames of a machine, and some that were taken before.
ghost use Rattle.std.specs.Prelude.{◌≡◌, ◌∷◌, [], None, Some};
ghost use Rattle.machine_frames.specs.FrameMap.{no_frames};
ghost use Rattle.page_model.specs.Pages.{blank};

use crate::checks::holds;
use machine_frames::Frames;
use std::alloc::Global;
use std::process::Abort;

/// Returns three free frames.
pub fn three_frames(rt: &impl Abort, alloc: Global) -> Frames
    ensures { result ≡ no_frames 3 }
{
    Frames::new(alloc, 3).expect(rt, "there is memory")
}

/// Takes the first two of three frames.
fn take_two(rt: &impl Abort, frames: &mut Frames)
    requires { frames.old ≡ no_frames 3 }
    ensures { frames.new ≡ Some blank ∷ Some blank ∷ None ∷ [] }
{
    holds(rt, frames.take_zeroed() == Some(0));
    holds(rt, frames.take_zeroed() == Some(1));
}

/// Returns three free frames: frame 0 was given back, and then frame 1.
pub fn returned_frames(rt: &impl Abort, alloc: Global) -> Frames
    ensures { result ≡ no_frames 3 }
{
    let mut frames = three_frames(rt, alloc);
    take_two(rt, &mut frames);
    frames.give_back(0);
    frames.give_back(1);
    frames
}
