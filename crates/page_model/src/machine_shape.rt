//! The frames, pages and salts of a machine, known to be within the limits.
ghost use Rattle.std.specs.Prelude.{◌≡◌, ◌+◌, ◌≤◌, ◌↔◌, IfOk, IsTrue, MatchResult, sum};
ghost use Rattle.page_model.specs.Limits.{AreLimits, ArePages, NoShapeFor};

use crate::limits::{MAX_FRAMES, MAX_GUESTS, MAX_PAGES};
use std::marker::Model;
use thiserror::Error;

/// A machine's frames, and each guest's number of pages and salt.
///
/// There are 1 to `MAX_FRAMES` frames, and 1 to `MAX_GUESTS` guests with a salt each. Each guest has at least 1 page, and all
/// together have at most `MAX_PAGES`. Code that holds a shape needn't check that again.
#[derive(Debug, Drop)]
pub struct MachineShape<'a> {
    frames: u32,
    pages: &'a [u32],
    salts: &'a [u32],
}

impl<'a> Model for MachineShape<'a> {
    ghost use Rattle.page_model.specs.Parts.{MachineParts};

    ghost Value = { MachineParts };

    ghost use Rattle.page_model.specs.Limits.{AreLimits};

    ghost view = { λ m. record { frames = m.frames; pages = m.pages.now; salts = m.salts.now } };

    ghost invariant = { λ m. AreLimits m.frames m.pages.now m.salts.now };
}

/// Why there is no machine of this shape. The causes are checked in this order.
#[derive(Clone, Copy, Debug, PartialEq, Eq, Error)]
pub enum ShapeFault {
    /// 0 frames, or more than `MAX_FRAMES`.
    #[error("give the machine 1 to 1,048,576 frames")]
    Frames,
    /// No guest, more than `MAX_GUESTS`, or not one salt for each guest.
    #[error("give the machine 1 to 64 guests, with a salt each")]
    Guests,
    /// A guest with no page, or more than `MAX_PAGES` in total.
    #[error("give each guest a page at least, and all together at most 1,048,576")]
    Pages,
}

/// Whether each guest has at least 1 page, and all together have at most `MAX_PAGES`.
fn are_pages(pages: &[u32]) -> bool
    ensures { IsTrue result ↔ ArePages pages.now }
{
    let mut room = MAX_PAGES;
    for own in pages {
        if *own == 0 || *own > room {
            return false;
        }
        room -= *own;
    }
    true
}

impl<'a> MachineShape<'a> {
    /// Makes the shape of a machine with this many frames, in which guest i has `pages[i]` pages and the salt `salts[i]`.
    pub fn new(
        frames: u32,
        pages: &'a [u32],
        salts: &'a [u32],
    ) -> Result<MachineShape<'a>, ShapeFault>
        ensures ok { IfOk result (λ shape. shape ≡ record { frames = frames; pages = pages.now; salts = salts.now }) }
        ensures fault { MatchResult result (λ _. AreLimits frames pages.now salts.now)
            (λ fault. NoShapeFor frames pages.now salts.now fault) }
    {
        if frames == 0 || frames > MAX_FRAMES {
            return Err(ShapeFault::Frames);
        }
        if pages.is_empty() || pages.len() > MAX_GUESTS || salts.len() != pages.len() {
            return Err(ShapeFault::Guests);
        }
        if !are_pages(pages) {
            return Err(ShapeFault::Pages);
        }
        Ok(MachineShape {
            frames,
            pages,
            salts,
        })
    }

    /// Returns how many frames machine memory has.
    pub fn frames(&self) -> u32
        ensures frames { result ≡ self.now.frames }
        ensures limits { AreLimits self.now.frames self.now.pages self.now.salts }
    {
        self.frames
    }

    /// Returns each guest's number of pages, guest 0 first.
    pub fn pages(&self) -> &'a [u32]
        ensures pages { result.now ≡ self.now.pages }
        ensures limits { AreLimits self.now.frames self.now.pages self.now.salts }
    {
        self.pages
    }

    /// Returns each guest's salt, guest 0 first.
    pub fn salts(&self) -> &'a [u32]
        ensures salts { result.now ≡ self.now.salts }
        ensures limits { AreLimits self.now.frames self.now.pages self.now.salts }
    {
        self.salts
    }
}
