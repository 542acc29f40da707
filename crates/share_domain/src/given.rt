//! The frames of a domain's machines, which are given for one machine after the other.
ghost use Rattle.std.specs.Prelude.{◌≡◌, ◌≤◌, ◌<◌, ◌==◌, IfOk, replicate};
ghost use Rattle.page_model.specs.declared.limits.TheConstants.{MAX_FRAMES};
ghost use Rattle.machine_frames.specs.FrameMap.{no_frames};
ghost use Rattle.share_domain.specs.Given.{none_given, one_more};

use machine_frames::Frames;
use std::alloc::{AllocError, Global};
use std::marker::Model;

/// Collects the frames of `machines` machines, `each` frames for each, one machine after the other.
#[derive(Drop)]
pub struct GivenFrames {
    frames: Vec<Frames>,
    machines: u32,
    each: u32,
}

impl Model for GivenFrames {
    ghost use Rattle.std.specs.Prelude.{length, vec_capacity};
    ghost use Rattle.share_domain.specs.Given.{Given, AreGiven};

    ghost Value = { Given };

    ghost view = { λ g. record { machines = g.machines; each = g.each; given = length g.frames.items } };

    ghost invariant = { λ g. AreGiven g.machines g.each g.frames.items (vec_capacity g.frames) };
}

impl GivenFrames {
    ghost use Rattle.page_model.specs.declared.limits.TheConstants.{MAX_FRAMES};

    /// Makes an empty collection for `machines` machines of `each` frames.
    pub fn new(alloc: Global, machines: u32, each: u32) -> Result<GivenFrames, AllocError>
        requires some { 1 ≤ each }
        requires limit { each ≤ MAX_FRAMES }
        ensures { IfOk result (λ given. given ≡ none_given machines each) }
    {
        let frames = Vec::with_capacity(alloc, machines as usize)?;
        Ok(GivenFrames {
            frames,
            machines,
            each,
        })
    }

    /// Takes the frames of the next machine, all of them free.
    pub fn add(&mut self, frames: Frames)
        requires more { self.old.given < self.old.machines }
        requires free { frames ≡ no_frames self.old.each }
        ensures { self.new ≡ one_more self.old }
    {
        self.frames.push_reserved(frames);
    }

    /// Whether the frames of all machines are there.
    pub fn are_all(&self) -> bool
        ensures { result ≡ (self.now.given == self.now.machines) }
    {
        self.frames.len() == self.machines as usize
    }

    /// Returns the frames of all machines, all of them free.
    pub fn into_frames(self) -> Vec<Frames>
        requires { self.given ≡ self.machines }
        ensures { result.items ≡ replicate self.machines (no_frames self.each) }
    {
        let GivenFrames {
            frames,
            machines: _,
            each: _,
        } = self;
        frames
    }
}
