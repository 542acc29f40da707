//! A domain that waits for the frames of its machines.
ghost use Rattle.std.specs.Prelude.{◌≡◌, ◌≤◌, IfOk, IfSome};
ghost use Rattle.page_model.specs.declared.limits.TheConstants.{MAX_FRAMES};
ghost use Rattle.machine_frames.specs.FrameMap.{no_frames};
ghost use Rattle.recent_fingerprints.specs.Notes.{nothing_noted};
ghost use Rattle.pageshare_c.specs.Hosts.{next_stage};
ghost use Rattle.c_surface.specs.Shapes.{IsFit};
ghost use Rattle.pageshare_c.specs.Shapes.{config_of};

use crate::hashed_domain::HashedDomain;
use crate::hosted::{Hosted, MadeDomain};
use crate::limits::config_of;
use crate::make::WIDE_SHA256;
use crate::shape::DomainShape;
use machine_frames::Frames;
use recent_fingerprints::RecentFingerprints;
use share_domain::GivenFrames;
use std::alloc::{AllocError, Global};
use std::marker::Model;

/// A domain that was begun, and waits for the frames of one machine at least.
#[derive(Drop)]
pub struct Begun {
    shape: DomainShape,
    hash: u32,
    given: GivenFrames,
    recent: RecentFingerprints,
}

impl Model for Begun {
    ghost use Rattle.pageshare_c.specs.Given.{BegunView, Waits};

    ghost Value = { BegunView };

    ghost view = { λ b. record { shape = b.shape; hash = b.hash; given = b.given.given; recent = b.recent } };

    ghost invariant = { λ b. Waits b.shape b.hash b.given };
}

impl Begun {
    /// Begins a domain that has the frames of no machine yet.
    pub(crate) fn new(alloc: Global, shape: &DomainShape, hash: u32) -> Result<Begun, AllocError>
        requires fit { IsFit (config_of shape.now) shape.now.recent }
        requires hash { hash ≤ WIDE_SHA256 }
        ensures { IfOk result (λ begun. begun
            ≡ record { shape = shape.now; hash = hash; given = 0; recent = nothing_noted shape.now.recent shape.now.clients shape.now.seed }) }
    {
        let recent = RecentFingerprints::new(alloc, shape.recent, shape.clients, shape.seed)?;
        let given = GivenFrames::new(alloc, shape.machines, shape.frames)?;
        Ok(Begun {
            shape: *shape,
            hash,
            given,
            recent,
        })
    }

    /// Returns how many frames each machine has.
    pub(crate) fn frames(&self) -> u32
        ensures frames { result ≡ self.now.shape.frames }
        ensures some { 1 ≤ result }
        ensures limit { result ≤ MAX_FRAMES }
    {
        self.shape.frames
    }

    /// Takes the frames of the next machine. With those of the last one the domain is made. Returns `None` if memory was refused.
    pub(crate) fn add(self, alloc: Global, frames: Frames) -> Option<Hosted>
        requires { frames ≡ no_frames self.shape.frames }
        ensures { IfSome result (λ hosted. hosted ≡ next_stage self) }
    {
        let Begun {
            shape,
            hash,
            mut given,
            recent,
        } = self;
        given.add(frames);
        if !given.are_all() {
            return Some(Hosted::Begun(Begun {
                shape,
                hash,
                given,
                recent,
            }));
        }
        match HashedDomain::new(alloc, &config_of(&shape), hash, given.into_frames()) {
            Err(_) => None,
            Ok(domain) => Some(Hosted::Made(MadeDomain { domain, recent })),
        }
    }
}
