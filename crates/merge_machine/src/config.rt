//! Which machine to make, and why there may be none.
ghost use Rattle.std.specs.Prelude.{◌≡◌, ◌≢◌, IfOk, MatchResult};
ghost use Rattle.share_rings.specs.Faults.{IsCapacity};
ghost use Rattle.merge_machine.specs.Limits.{IsJournal, IsMachine, NoMachineFor, numbers_of};
ghost use Rattle.merge_machine.specs.declared.config.Fault.TheVariants.{OutOfMemory};

use page_model::{MAX_ENTRIES, MAX_RING_CAPACITY, MachineShape, ShapeFault};
use std::alloc::{AllocError, Allocator, Global};
use std::marker::Model;
use thiserror::Error;

/// A machine's numbers: guest i has `pages[i]` pages and the salt `salts[i]`.
#[derive(Drop)]
pub struct Config<A: Allocator = Global> {
    /// The number of frames of machine memory, from 1 to `MAX_FRAMES`.
    pub frames: u32,
    /// Each guest's number of pages: 1 to `MAX_GUESTS` guests, with at least 1 page each and at most `MAX_PAGES` in total.
    pub pages: Vec<u32, A>,
    /// Each guest's salt. Pages are shared only between guests with equal salts.
    pub salts: Vec<u32, A>,
    /// How many items each of a guest's two rings holds, from 1 to `MAX_RING_CAPACITY`.
    pub ring: u32,
    /// How many entries the journal holds, from 1 to `MAX_ENTRIES`.
    pub journal: u32,
}

/// Why no machine was made, in the order in which the causes are checked.
#[derive(Clone, Copy, Debug, PartialEq, Eq, Error)]
pub enum Fault {
    /// 0 frames, or more than `MAX_FRAMES`.
    #[error("give the machine 1 to 1,048,576 frames")]
    Frames,
    /// No guest, more than `MAX_GUESTS`, or not one salt for each guest.
    #[error("give the machine 1 to 64 guests, with a salt each")]
    Guests,
    /// A guest with no page, or more than `MAX_PAGES` in total.
    #[error("give each guest a page at least, and all together at most 1,048,576")]
    Pages,
    /// A ring of 0 items, or of more than `MAX_RING_CAPACITY`.
    #[error("a ring holds 1 to 65,536 items")]
    Ring,
    /// A journal of 0 entries, or of more than `MAX_ENTRIES`.
    #[error("a journal holds 1 to 16,777,216 entries")]
    Journal,
    /// The memory for the machine was refused.
    #[error("out of memory")]
    OutOfMemory,
}

impl From<AllocError> for Fault {
    ghost use Rattle.merge_machine.specs.declared.config.Fault.TheVariants.{OutOfMemory};

    ghost from_gives = { λ _ fault. fault ≡ OutOfMemory };

    fn from(_refused: AllocError) -> Fault {
        Fault::OutOfMemory
    }
}

impl From<ShapeFault> for Fault {
    ghost use Rattle.merge_machine.specs.Limits.{fault_of};

    ghost from_gives = { λ refused fault. fault ≡ fault_of refused };

    fn from(refused: ShapeFault) -> Fault {
        match refused {
            ShapeFault::Frames => Fault::Frames,
            ShapeFault::Guests => Fault::Guests,
            ShapeFault::Pages => Fault::Pages,
        }
    }
}

/// A configuration that is known to be within the limits, so that they needn't be checked again.
#[derive(Drop)]
pub struct CheckedConfig<'a> {
    shape: MachineShape<'a>,
    ring: u32,
    journal: u32,
}

impl<'a> Model for CheckedConfig<'a> {
    ghost use Rattle.merge_machine.specs.Limits.{Numbers};

    ghost Value = { Numbers };

    ghost use Rattle.share_rings.specs.Faults.{IsCapacity};
    ghost use Rattle.merge_machine.specs.Limits.{IsJournal};

    ghost view = { λ c. record {
      frames = c.shape.frames;
      pages = c.shape.pages;
      salts = c.shape.salts;
      ring = c.ring;
      journal = c.journal;
    } };

    ghost invariant = { λ c. IsCapacity c.ring × IsJournal c.journal };
}

impl<A: Allocator> Config<A> {
    /// Checks the limits. Returns the checked configuration, or the first cause for which there is no such machine.
    pub fn check(&self) -> Result<CheckedConfig<'_>, Fault>
        ensures checked { IfOk result (λ checked. checked ≡ numbers_of self.now) }
        ensures fault { MatchResult result (λ _. IsMachine self.now) (λ fault. NoMachineFor self.now fault × (fault ≢ OutOfMemory)) }
    {
        let shape = MachineShape::new(self.frames, &self.pages, &self.salts)?;
        if self.ring == 0 || self.ring > MAX_RING_CAPACITY {
            return Err(Fault::Ring);
        }
        if self.journal == 0 || self.journal > MAX_ENTRIES {
            return Err(Fault::Journal);
        }
        Ok(CheckedConfig {
            shape,
            ring: self.ring,
            journal: self.journal,
        })
    }
}

impl<'a> CheckedConfig<'a> {
    /// Returns the machine's frames, pages and salts.
    pub(crate) fn shape(&self) -> &MachineShape<'a>
        ensures { (result.now.frames ≡ self.now.frames) × (result.now.pages ≡ self.now.pages) × (result.now.salts ≡ self.now.salts) }
    {
        &self.shape
    }

    /// Returns how many items each ring holds.
    pub(crate) fn ring(&self) -> u32
        ensures ring { result ≡ self.now.ring }
        ensures limits { IsCapacity self.now.ring }
    {
        self.ring
    }

    /// Returns how many entries the journal holds.
    pub(crate) fn journal(&self) -> u32
        ensures journal { result ≡ self.now.journal }
        ensures limits { IsJournal self.now.journal }
    {
        self.journal
    }
}
