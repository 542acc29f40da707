//! What the machine counts.
ghost use Rattle.std.specs.Prelude.{◌≡◌, ◌-◌, ◌≤◌};

use std::marker::Model;

/// How many requests, pages and frames there are.
///
/// `reclaimed` plus `frames` is `mapped`, `shared` is at most `mapped`, and `hints` is at most `frames`.
#[derive(Clone, Copy, Debug, PartialEq, Eq)]
pub struct Report {
    entries: u32,
    mapped: u32,
    shared: u32,
    frames: u32,
    reclaimed: u32,
    hints: u32,
}

impl Model for Report {
    ghost use Rattle.std.specs.Prelude.{◌≡◌, ◌+◌, ◌≤◌};
    ghost use Rattle.page_model.specs.Parts.{Totals};

    ghost Value = { Totals };

    ghost view = { λ r. record {
      entries = r.entries;
      mapped = r.mapped;
      shared = r.shared;
      frames = r.frames;
      reclaimed = r.reclaimed;
      hints = r.hints;
    } };

    ghost invariant = { λ r. (r.reclaimed + r.frames ≡ r.mapped) × (r.shared ≤ r.mapped) × (r.hints ≤ r.frames) };

    ghost inverse = { λ r. record {
      entries = r.entries;
      mapped = r.mapped;
      shared = r.shared;
      frames = r.frames;
      reclaimed = r.reclaimed;
      hints = r.hints;
    } };
}

impl Report {
    /// Makes a report of these numbers, in which `reclaimed` is `mapped` minus `frames`.
    pub fn new(entries: u32, mapped: u32, shared: u32, frames: u32, hints: u32) -> Self
        requires frames { frames ≤ mapped }
        requires shared { shared ≤ mapped }
        requires hints { hints ≤ frames }
        ensures { result ≡ record {
          entries = entries;
          mapped = mapped;
          shared = shared;
          frames = frames;
          reclaimed = mapped - frames;
          hints = hints;
        } }
    {
        Report {
            entries,
            mapped,
            shared,
            frames,
            reclaimed: mapped - frames,
            hints,
        }
    }

    /// Returns the number of requests so far.
    pub fn entries(&self) -> u32
        ensures { result ≡ self.now.entries }
    {
        self.entries
    }

    /// Returns the number of pages that have a frame, their own or a shared one.
    pub fn mapped(&self) -> u32
        ensures { result ≡ self.now.mapped }
    {
        self.mapped
    }

    /// Returns the number of pages that have a shared frame.
    pub fn shared(&self) -> u32
        ensures { result ≡ self.now.shared }
    {
        self.shared
    }

    /// Returns the number of frames in use.
    pub fn frames(&self) -> u32
        ensures { result ≡ self.now.frames }
    {
        self.frames
    }

    /// Returns the number of frames that sharing saves: mapped pages minus frames in use.
    pub fn reclaimed(&self) -> u32
        ensures { result ≡ self.now.reclaimed }
    {
        self.reclaimed
    }

    /// Returns the number of pages that are hints.
    pub fn hints(&self) -> u32
        ensures { result ≡ self.now.hints }
    {
        self.hints
    }
}
