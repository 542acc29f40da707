//! The steps of a look at a page.
ghost use Rattle.std.specs.Prelude.{◌≡◌};
ghost use Rattle.page_looks.specs.Notes.{looks_of};
ghost use Rattle.page_looks.specs.Steps.{Came, CopyFound, Counted, Glanced, NotesMemory, WasRead, act_by, first_step, found_as, has_again, has_memory, is_met, is_present, may_read, seen_step, shows_frame, unseen_step, way_of};
ghost use Rattle.page_lender.specs.Decisions.{shows};
ghost use Rattle.window_pages.specs.Bytes.{known_of};
ghost use Rattle.window_pages.specs.Known.{shows_past};

use crate::finds::notes::{write_met, write_read};
use crate::finds::{FindOutcome, FindStep, Memory, Sight, looks_of, write_looks};
use crate::idle::{Act, Way};
use page_lender::Notice;
use window_pages::{
    KnownPage, PartCounts, WindowFacts, WindowPage, give_back, hear, is_free, stop_past,
};

impl Memory {
    /// Returns whether the page has memory of its own, in use or swapped out.
    pub fn has_memory(self) -> bool
        ensures { result ≡ has_memory self }
    {
        match self {
            Memory::Missing => false,
            Memory::Present => true,
            Memory::Swapped => true,
        }
    }

    /// Returns whether that memory is in use.
    pub fn is_present(self) -> bool
        ensures { result ≡ is_present self }
    {
        match self {
            Memory::Missing => false,
            Memory::Present => true,
            Memory::Swapped => false,
        }
    }
}

// Returns whether the page shows a frame of a lender that is gone.
fn shows_past(page: &KnownPage) -> bool
    ensures { result ≡ shows_past page.now }
{
    page.over && page.same
}

// Returns whether the page shows a frame, as far as is known.
fn shows_frame(page: &KnownPage) -> bool
    ensures { result ≡ shows_frame page.now }
{
    page.belief.shows() || shows_past(page)
}

// Returns whether the page was given back as zeros, and has memory again.
fn has_again(page: &KnownPage, memory: Memory) -> bool
    ensures { result ≡ has_again memory page.now }
{
    !page.out && memory.has_memory() && !page.over && page.same
}

// Notes that a page has memory again, if it was given back as zeros and has.
fn note_memory(page: &mut WindowPage, part: &mut PartCounts, memory: Memory)
    ensures { NotesMemory memory page.old page.new part.old part.new }
{
    let known = page.known();
    if has_again(&known, memory) {
        give_back(page, part, false);
    }
}

// Returns whether the page may be read.
fn may_read(page: &WindowPage, facts: &WindowFacts, memory: Memory, is_ready: bool) -> bool
    ensures { result ≡ may_read facts.now memory is_ready (known_of page.now) }
{
    let known = page.known();
    let is_there = memory.is_present() || shows_past(&known);
    is_there && is_ready && is_free(page, facts)
}

// Returns the way of a look at the page.
fn way_of(page: &WindowPage, sight: &Sight) -> Way
    ensures { result ≡ way_of sight.now page.now }
{
    let is_over = page.known().over;
    looks_of(page).way(
        &sight.config,
        &sight.part,
        is_over,
        sight.look,
        sight.number,
    )
}

impl Sight {
    // Returns what an idle page with this fingerprint is.
    fn found_as(&self, fingerprint: u64) -> FindStep
        ensures { result ≡ found_as self.now fingerprint }
    {
        if fingerprint != self.zeros {
            return FindStep::Idle;
        }
        if self.part.whole {
            FindStep::Count
        } else {
            FindStep::Zeros
        }
    }

    // Returns what is done next with the page if the look has not glanced at it.
    fn unseen_step(&self, page: &WindowPage, act: Act) -> FindStep
        ensures { result ≡ unseen_step self.now page.now act }
    {
        match act {
            Act::Pass => FindStep::Over,
            Act::Meet => FindStep::Glance,
            Act::Keep => self.found_as(looks_of(page).fingerprint),
            Act::Read => FindStep::Read,
        }
    }

    // Returns what is done next with the page if it has.
    fn seen_step(&self, page: &WindowPage, act: Act) -> FindStep
        ensures { result ≡ seen_step self.now page.now act }
    {
        match act {
            Act::Pass => FindStep::Over,
            Act::Meet => FindStep::Over,
            Act::Keep => self.found_as(looks_of(page).fingerprint),
            Act::Read => FindStep::Read,
        }
    }
}

// Returns what is done first with the page.
fn first_step(
    page: &WindowPage,
    facts: &WindowFacts,
    sight: &Sight,
    memory: Memory,
    is_ready: bool,
) -> FindStep
    ensures { result ≡ first_step facts.now sight.now memory is_ready page.now }
{
    let known = page.known();
    if !known.out && memory.has_memory() && shows_frame(&known) {
        return FindStep::FindCopy;
    }
    if !may_read(page, facts, memory, is_ready) {
        return FindStep::Over;
    }
    let way = way_of(page, sight);
    if way.glances {
        FindStep::Glance
    } else {
        sight.unseen_step(page, way.act)
    }
}

/// Begins a look at a page of which these facts are so, and which has this memory. `is_ready`: its memory is left alone by the system, so it
/// may be lent. Returns what is done first.
pub fn begin(
    page: &mut WindowPage,
    part: &mut PartCounts,
    facts: &WindowFacts,
    sight: &Sight,
    memory: Memory,
    is_ready: bool,
) -> FindStep
    ensures page { NotesMemory memory page.old page.new part.old part.new }
    ensures step { result ≡ first_step facts.now sight.now memory is_ready page.new }
{
    note_memory(page, part, memory);
    first_step(page, facts, sight, memory, is_ready)
}

// Takes whether a page that shows a frame, for all that is known, has memory of its own.
fn find_copy(page: &mut WindowPage, part: &mut PartCounts, is_own: bool) -> FindStep
    ensures { CopyFound is_own result page.old page.new part.old part.new }
{
    if is_own {
        hear(page, part, Notice::Written);
        stop_past(page, part);
    }
    FindStep::Over
}

// Returns whether the look has met the page: it is new, or has changed.
fn is_met(act: Act) -> bool
    ensures { result ≡ is_met act }
{
    match act {
        Act::Pass => false,
        Act::Meet => true,
        Act::Keep => false,
        Act::Read => false,
    }
}

// Takes what a glance found.
fn glance(page: &mut WindowPage, part: &mut PartCounts, sight: &Sight, glance: u16) -> FindStep
    ensures { Glanced sight.now glance result page.old page.new part.old part.new }
{
    let is_same = glance == looks_of(page).clue;
    let act = way_of(page, sight).act_after(is_same);
    let next = sight.seen_step(page, act);
    let is_met = is_met(act);
    if is_met {
        write_met(page, part, sight.number, glance);
    }
    next
}

// Takes that the page was read.
fn read(
    page: &mut WindowPage,
    part: &mut PartCounts,
    sight: &Sight,
    outcome: &FindOutcome,
) -> FindStep
    ensures { WasRead sight.now outcome.now result page.old page.new part.old part.new }
{
    write_read(page, part, outcome.fingerprint, outcome.glance);
    if looks_of(page).is_idle() {
        sight.found_as(outcome.fingerprint)
    } else {
        FindStep::Over
    }
}

// Counts a page of zeros in a whole part.
fn count(page: &mut WindowPage, part: &mut PartCounts) -> FindStep
    ensures { Counted result page.old page.new part.old part.new }
{
    let mut looks = looks_of(page);
    looks.asked();
    write_looks(page, part, &looks, true);
    FindStep::Over
}

/// Takes what came of the step that was done with the page, and returns what is done next.
pub fn done(
    page: &mut WindowPage,
    part: &mut PartCounts,
    sight: &Sight,
    step: FindStep,
    outcome: &FindOutcome,
) -> FindStep
    ensures { Came step sight.now outcome.now result page.old page.new part.old part.new }
{
    match step {
        FindStep::Over => FindStep::Over,
        FindStep::FindCopy => find_copy(page, part, outcome.is_own),
        FindStep::Glance => glance(page, part, sight, outcome.glance),
        FindStep::Read => read(page, part, sight, outcome),
        FindStep::Count => count(page, part),
        FindStep::Idle => FindStep::Over,
        FindStep::Zeros => FindStep::Over,
    }
}
