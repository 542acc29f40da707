//! A scan, and which pages it takes.
ghost use Rattle.std.specs.Prelude.{◌≡◌, ◌+◌, ◌%◌, ◌<◌, ◌^◌, false, nat_eq};
ghost use Rattle.page_looks.specs.Steps.{first_step};
ghost use Rattle.page_looks.specs.Turns.{is_turn_of_idle};
ghost use Rattle.page_looks.specs.Notes.{looks_of};
ghost use Rattle.page_looks.specs.declared.idle.look.TheConstants.{TOGETHER};
ghost use Rattle.part_scans.specs.Scans.{first_seen, follows, memory_by, number_of, sight_at, takes, turn_at};

use crate::seen::{Seen, counts};
use page_looks::finds::{FindStep, Memory, Sight, looks_of};
use page_looks::idle::{LookConfig, TOGETHER};
use page_looks::parts::Part;
use window_pages::WindowPage;

/// A scan of a part of a window.
#[derive(Clone, Copy, Debug, PartialEq, Eq)]
pub struct Scan {
    /// How often pages are looked at.
    pub config: LookConfig,
    /// What scans have found of the part.
    pub part: Part,
    /// The number of the look.
    pub look: u32,
    /// The fingerprint of a page of zeros.
    pub zeros: u64,
    /// The scan comes back to the part, for the pages that may be idle soon.
    pub is_return: bool,
    /// The system leaves the memory of the window's pages before this one alone.
    pub ready: usize,
}

// Returns which memory the system has for a page, by its number.
pub(crate) fn memory_by(number: u8) -> Memory
    ensures { result ≡ memory_by number }
{
    match number {
        1 => Memory::Present,
        2 => Memory::Swapped,
        _ => Memory::Missing,
    }
}

// Returns the number of the page at a place, at most the greatest one.
pub(crate) fn number_of(place: usize) -> u32
    ensures { result ≡ number_of place }
{
    place.min(4_294_967_295) as u32
}

impl Scan {
    // Returns the look at the page at a place.
    pub(crate) fn sight(&self, place: usize) -> Sight
        ensures { result ≡ sight_at self.now place }
    {
        Sight {
            config: self.config,
            part: self.part,
            look: self.look,
            number: number_of(place),
            zeros: self.zeros,
        }
    }

    // Returns whether it is the turn of idle pages at a place.
    pub(crate) fn turn_at(&self, place: usize) -> bool
        ensures { result ≡ turn_at self.now place }
    {
        self.part
            .is_turn_of_idle(&self.config, self.look, number_of(place))
    }

    // Returns the same, by whether it was at the place before it. Pages in one row have their turns together.
    pub(crate) fn turn_after(&self, before: bool, place: usize) -> bool
        requires place { place + 1 < 2 ^ 64 }
        requires before { before ≡ turn_at self.now place }
        ensures { result ≡ turn_at self.now (place + 1) }
    {
        if number_of(place + 1) % TOGETHER == 0 {
            self.turn_at(place + 1)
        } else {
            before
        }
    }

    // Returns whether the scan takes the page at a place. `is_there`: it has memory, or is taken without. `is_turn`: it is the turn of idle pages
    // there.
    pub(crate) fn takes(
        &self,
        page: &WindowPage,
        is_there: bool,
        is_turn: bool,
        place: usize,
    ) -> bool
        requires { is_turn ≡ turn_at self.now place }
        ensures { result ≡ takes self.now is_there place page.now }
    {
        if !is_there {
            return false;
        }
        let looks = looks_of(page);
        if self.is_return {
            return looks.is_young();
        }
        self.part.rest == 0 || looks.is_sampled(&self.part, self.look, number_of(place), is_turn)
    }

    // Returns whether the scan would leave the page at a place out, and follows a change to it. `is_taken`: it takes the page already. `is_beside`:
    // a page beside it has changed.
    pub(crate) fn follows(
        &self,
        page: &WindowPage,
        memory: Memory,
        is_taken: bool,
        is_beside: bool,
        place: usize,
    ) -> bool
        ensures { result ≡ follows self.now memory is_taken is_beside place page.now }
    {
        if is_taken || !is_beside || !memory.is_present() {
            return false;
        }
        looks_of(page).is_left_out(&self.config, &self.part, self.look, number_of(place))
    }

    // Returns what is kept of a page that is taken, with which this is done first.
    pub(crate) fn first_seen(&self, page: &WindowPage, memory: Memory, step: FindStep) -> Seen
        ensures { result ≡ first_seen memory step (looks_of page.now) }
    {
        let looks = looks_of(page);
        let has_memory = memory.has_memory();
        Seen {
            step,
            taken: true,
            changed: false,
            again: looks.is_again() && counts(step),
            memory: has_memory,
            young: has_memory && looks.is_young(),
        }
    }
}
