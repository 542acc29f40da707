//! Frames whose fingerprints come and go.
ghost use Rattle.std.specs.Prelude.{◌≡◌};
ghost use Rattle.frame_fingerprints.specs.Held.{with_held};
ghost use Rattle.fingerprint_domain.specs.Fits.{after_freed};

use frame_fingerprints::FrameFingerprints;
use std::alloc::Allocator;

/// Forgets the fingerprints of frames that were freed. `NO_FRAME` names none.
pub(crate) fn forget_each<A: Allocator>(fingerprints: &mut FrameFingerprints<A>, freed: &[u32])
    ensures { fingerprints.new ≡ with_held (after_freed freed.now fingerprints.old.held) fingerprints.old }
{
    for frame in freed {
        fingerprints.remove(*frame);
    }
}
