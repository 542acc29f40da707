//! A host that waits for the frames of its machines.
ghost use Rattle.std.specs.Prelude.{◌≡◌, ◌≤◌, IfOk, IfSome};
ghost use Rattle.machine_frames.specs.FrameMap.{no_frames};
ghost use Rattle.page_model.specs.declared.limits.TheConstants.{MAX_FRAMES};
ghost use Rattle.pageshare_host_c.specs.Hosts.{next_stage};
ghost use Rattle.pageshare_host_c.specs.Shapes.{IsFit};

use crate::hosted::Hosted;
use crate::shape::{HostShape, config_of};
use host_sessions::Host;
use machine_frames::Frames;
use page_digest::FoldHash;
use share_domain::GivenFrames;
use std::alloc::{AllocError, Global};
use std::marker::Model;

/// A host that was begun, and waits for the frames of one machine at least.
#[derive(Drop)]
pub struct Waiting {
    shape: HostShape,
    given: GivenFrames,
}

impl Model for Waiting {
    ghost use Rattle.pageshare_host_c.specs.Given.{WaitingView, Waits};

    ghost Value = { WaitingView };

    ghost view = { λ w. record { shape = w.shape; given = w.given.given } };

    ghost invariant = { λ w. Waits w.shape w.given };
}

impl Waiting {
    /// Begins a host that has the frames of no machine yet.
    pub(crate) fn new(alloc: Global, shape: &HostShape) -> Result<Waiting, AllocError>
        requires { IsFit shape.now }
        ensures { IfOk result (λ waiting. waiting ≡ record { shape = shape.now; given = 0 }) }
    {
        let given = GivenFrames::new(alloc, shape.machines, shape.frames)?;
        Ok(Waiting {
            shape: *shape,
            given,
        })
    }

    /// Returns how many frames each machine has.
    pub(crate) fn frames(&self) -> u32
        ensures frames { result ≡ self.now.shape.frames }
        ensures some { 1 ≤ result }
        ensures limit { result ≤ MAX_FRAMES }
    {
        self.shape.frames
    }

    /// Takes the frames of the next machine. With those of the last one the host is made. Returns `None` if memory was refused.
    pub(crate) fn add(self, alloc: Global, frames: Frames) -> Option<Hosted>
        requires { frames ≡ no_frames self.shape.frames }
        ensures { IfSome result (λ hosted. hosted ≡ next_stage self) }
    {
        let Waiting { shape, mut given } = self;
        given.add(frames);
        if !given.are_all() {
            return Some(Hosted::Waiting(Waiting { shape, given }));
        }
        match Host::with_frames(alloc, &config_of(&shape), FoldHash, given.into_frames()) {
            Err(_) => None,
            Ok(host) => Some(Hosted::Made(host)),
        }
    }
}
