//! What a scan keeps of each page of its part, in a byte.
ghost use Rattle.std.specs.Prelude.{◌≡◌, ◌≤◌, if◌then◌else◌};
ghost use Rattle.page_looks.specs.Idle.{is_again, is_idle};
ghost use Rattle.part_scans.specs.Seen.{byte_of, counts, has_changed, has_step, seen_in, seen_then, step_by, step_number};

use page_looks::finds::FindStep;
use page_looks::idle::PageLooks;

/// What a scan keeps of a page.
#[derive(Clone, Copy, Debug, PartialEq, Eq)]
pub struct Seen {
    /// What is done next with it, or what was found.
    pub step: FindStep,
    /// The scan takes it.
    pub taken: bool,
    /// It was idle, and has changed.
    pub changed: bool,
    /// It was asked about in vain most often, and it is read, or its last fingerprint counts.
    pub again: bool,
    /// It has memory of its own.
    pub memory: bool,
    /// It has, and may be idle soon.
    pub young: bool,
}

// Returns which step has this number. One that none has is the end.
fn step_by(number: u8) -> FindStep
    ensures { result ≡ step_by number }
{
    match number {
        1 => FindStep::FindCopy,
        2 => FindStep::Glance,
        3 => FindStep::Read,
        4 => FindStep::Count,
        5 => FindStep::Idle,
        6 => FindStep::Zeros,
        _ => FindStep::Over,
    }
}

// Returns the number of a step.
fn step_number(step: FindStep) -> u8
    ensures number { result ≡ step_number step }
    ensures most { result ≤ 6 }
{
    match step {
        FindStep::Over => 0,
        FindStep::FindCopy => 1,
        FindStep::Glance => 2,
        FindStep::Read => 3,
        FindStep::Count => 4,
        FindStep::Idle => 5,
        FindStep::Zeros => 6,
    }
}

// Returns what stands for a bit that is set, or not.
fn bit(is_set: bool, value: u8) -> u8
    ensures value { result ≡ if is_set then value else 0 }
    ensures most { result ≤ value }
{
    if is_set { value } else { 0 }
}

// Returns what a scan keeps of a page, by its byte.
pub(crate) fn seen_in(byte: u8) -> Seen
    ensures { result ≡ seen_in byte }
{
    Seen {
        step: step_by(byte % 8),
        taken: byte / 8 % 2 == 1,
        changed: byte / 16 % 2 == 1,
        again: byte / 32 % 2 == 1,
        memory: byte / 64 % 2 == 1,
        young: byte / 128 % 2 == 1,
    }
}

// Returns the byte of a page of which a scan keeps this.
pub(crate) fn byte_of(seen: &Seen) -> u8
    ensures { result ≡ byte_of seen.now }
{
    step_number(seen.step)
        + bit(seen.taken, 8)
        + bit(seen.changed, 16)
        + bit(seen.again, 32)
        + bit(seen.memory, 64)
        + bit(seen.young, 128)
}

// Returns whether a step is left.
pub(crate) fn has_step(step: FindStep) -> bool
    ensures { result ≡ has_step step }
{
    match step {
        FindStep::Over => false,
        FindStep::FindCopy => true,
        FindStep::Glance => true,
        FindStep::Read => true,
        FindStep::Count => true,
        FindStep::Idle => false,
        FindStep::Zeros => false,
    }
}

// Returns whether a page is read, or its last fingerprint counts.
pub(crate) fn counts(step: FindStep) -> bool
    ensures { result ≡ counts step }
{
    match step {
        FindStep::Over => false,
        FindStep::FindCopy => false,
        FindStep::Glance => false,
        FindStep::Read => true,
        FindStep::Count => true,
        FindStep::Idle => true,
        FindStep::Zeros => true,
    }
}

// Returns whether a page was idle, and isn't.
fn has_changed(before: &PageLooks, after: &PageLooks) -> bool
    ensures { result ≡ has_changed before.now after.now }
{
    before.is_idle() && !after.is_idle()
}

impl Seen {
    // Returns what is kept of the page once a step has come to this.
    pub(crate) fn then(&self, next: FindStep, before: &PageLooks, after: &PageLooks) -> Seen
        ensures { result ≡ seen_then self.now next before.now after.now }
    {
        Seen {
            step: next,
            taken: self.taken,
            changed: self.changed || has_changed(before, after),
            again: self.again || before.is_again() && counts(next),
            memory: self.memory,
            young: self.memory && after.is_young(),
        }
    }
}
