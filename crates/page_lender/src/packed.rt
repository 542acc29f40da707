//! A belief as three numbers.
ghost use Rattle.std.specs.Prelude.{◌≡◌, ◌≤◌, Option};
ghost use Rattle.page_lender.specs.Decisions.{account, frame_of, target_frame, target_slot};
ghost use Rattle.page_lender.specs.Packing.{belief_in, frame_in, homing_number, number_of, slot_in, stage_number, target_in, target_number};

use crate::{Belief, Homing, Stage, Target};

impl Target {
    /// Returns what this adds to the number of a stage, or of an order: 16 for zeros.
    pub fn number(self) -> u8
        ensures value { result ≡ target_number self }
        ensures bound { result ≤ 16 }
    {
        match self {
            Target::Frame(_, _) => 0,
            Target::Zeros => 16,
        }
    }

    // Returns its slot, if it has one.
    fn slot(self) -> Option<u32>
        ensures { result ≡ target_slot self }
    {
        match self {
            Target::Frame(slot, _) => Some(slot),
            Target::Zeros => None,
        }
    }

    // Returns its frame, if it is one.
    fn frame(self) -> Option<u32>
        ensures { result ≡ target_frame self }
    {
        match self {
            Target::Frame(_, frame) => Some(frame),
            Target::Zeros => None,
        }
    }
}

impl Stage {
    // Returns the number of a stage on the way to a frame.
    fn number(self) -> u8
        ensures value { result ≡ stage_number self }
        ensures bound { result ≤ 6 }
    {
        match self {
            Stage::Ready => 3,
            Stage::Held => 4,
            Stage::Equal => 5,
            Stage::LettingGo => 6,
        }
    }
}

impl Homing {
    // Returns the number of a page that shows its frame.
    fn number(self) -> u8
        ensures value { result ≡ homing_number self }
        ensures bound { result ≤ 9 }
    {
        match self {
            Homing::Off => 7,
            Homing::InPlace => 8,
            Homing::Elsewhere => 9,
        }
    }
}

impl Belief {
    /// Returns the slot that the host has for a page of which this is believed, if it has one.
    pub fn slot(&self) -> Option<u32>
        ensures { result ≡ account self.now }
    {
        match *self {
            Belief::Private => None,
            Belief::Chosen => None,
            Belief::Copied => None,
            Belief::Turning(_, target) => target.slot(),
            Belief::Shown(slot, _, _) => Some(slot),
            Belief::Leaving(slot) => Some(slot),
        }
    }

    // Returns the frame of a loan that isn't over, if there is one.
    fn frame(&self) -> Option<u32>
        ensures { result ≡ frame_of self.now }
    {
        match *self {
            Belief::Private => None,
            Belief::Chosen => None,
            Belief::Copied => None,
            Belief::Turning(_, target) => target.frame(),
            Belief::Shown(_, frame, _) => Some(frame),
            Belief::Leaving(_) => None,
        }
    }
}

/// Returns the number of a belief, whichever slot and frame it has: that of its stage, and 16 more if its target is zeros.
pub fn number_of(belief: Belief) -> u8
    ensures value { result ≡ number_of belief }
    ensures bound { result ≤ 22 }
    ensures back { belief_in result (slot_in belief) (frame_in belief) ≡ belief }
{
    match belief {
        Belief::Private => 0,
        Belief::Chosen => 1,
        Belief::Copied => 2,
        Belief::Turning(stage, target) => stage.number() + target.number(),
        Belief::Shown(_, _, homing) => homing.number(),
        Belief::Leaving(_) => 10,
    }
}

/// Returns the slot of a belief, or 0 if it has none.
pub fn slot_of(belief: Belief) -> u32
    ensures { result ≡ slot_in belief }
{
    belief.slot().unwrap_or(0)
}

/// Returns the frame of a belief, or 0 if it has none.
pub fn frame_of(belief: Belief) -> u32
    ensures { result ≡ frame_in belief }
{
    belief.frame().unwrap_or(0)
}

// Returns the target that a number has.
fn target_of(number: u8, slot: u32, frame: u32) -> Target
    ensures { result ≡ target_in number slot frame }
{
    if number / 16 == 1 {
        Target::Zeros
    } else {
        Target::Frame(slot, frame)
    }
}

/// Returns the belief of this number with this slot and this frame, as far as it has them. A stage that none has is that of a private page.
pub fn belief_of(number: u8, slot: u32, frame: u32) -> Belief
    ensures { result ≡ belief_in number slot frame }
{
    let target = target_of(number, slot, frame);
    match number % 16 {
        1 => Belief::Chosen,
        2 => Belief::Copied,
        3 => Belief::Turning(Stage::Ready, target),
        4 => Belief::Turning(Stage::Held, target),
        5 => Belief::Turning(Stage::Equal, target),
        6 => Belief::Turning(Stage::LettingGo, target),
        7 => Belief::Shown(slot, frame, Homing::Off),
        8 => Belief::Shown(slot, frame, Homing::InPlace),
        9 => Belief::Shown(slot, frame, Homing::Elsewhere),
        10 => Belief::Leaving(slot),
        _ => Belief::Private,
    }
}
