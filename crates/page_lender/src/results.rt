//! What is believed after an outcome.
ghost use Rattle.std.specs.Prelude.{◌≡◌};
ghost use Rattle.page_lender.specs.Lender.{done_of, doubted, doubted_at, given, home, obeyed, obeyed_at, refused, shown_as};

use crate::{Belief, Homing, Outcome, Stage, Target};

impl Target {
    // The belief of a page that shows this now.
    fn shown(self) -> Belief
        ensures { result ≡ shown_as self }
    {
        match self {
            Target::Frame(slot, frame) => Belief::Shown(slot, frame, Homing::Off),
            Target::Zeros => Belief::Private,
        }
    }
}

impl Stage {
    // The belief once the order of this stage was done.
    fn obeyed(self, target: Target) -> Belief
        ensures { result ≡ obeyed_at self target }
    {
        match self {
            Stage::Ready => Belief::Turning(Stage::Held, target),
            Stage::Held => Belief::Turning(Stage::Equal, target),
            Stage::Equal => target.shown(),
            Stage::LettingGo => target.unshown(),
        }
    }

    // The stage where nothing is known of its order.
    fn doubted(self) -> Stage
        ensures { result ≡ doubted_at self }
    {
        match self {
            Stage::Ready => Stage::LettingGo,
            Stage::Held => Stage::Held,
            Stage::Equal => Stage::Equal,
            Stage::LettingGo => Stage::LettingGo,
        }
    }
}

impl Homing {
    // The belief of a page that showed its frame, once its order was done.
    fn obeyed(self, slot: u32, frame: u32) -> Belief
        ensures { result ≡ home self slot frame }
    {
        match self {
            Homing::Off => Belief::Shown(slot, frame, Homing::Off),
            Homing::InPlace => Belief::Leaving(slot),
            Homing::Elsewhere => Belief::Leaving(slot),
        }
    }
}

impl Belief {
    // The belief after this outcome of the order that was due.
    pub(crate) fn after(&self, outcome: Outcome) -> Belief
        ensures { result ≡ done_of self.now outcome }
    {
        match outcome {
            Outcome::Done => self.obeyed(),
            Outcome::Lent(slot, frame) => self.given(slot, frame),
            Outcome::Refused => self.refused(),
            Outcome::Unknown => self.doubted(),
        }
    }

    // The belief once the order was done.
    fn obeyed(&self) -> Belief
        ensures { result ≡ obeyed self.now }
    {
        match *self {
            Belief::Private => Belief::Private,
            Belief::Chosen => Belief::Copied,
            Belief::Copied => Belief::Copied,
            Belief::Turning(stage, target) => stage.obeyed(target),
            Belief::Shown(slot, frame, homing) => homing.obeyed(slot, frame),
            Belief::Leaving(_) => Belief::Private,
        }
    }

    // The belief once the host gave a slot with a frame.
    fn given(&self, slot: u32, frame: u32) -> Belief
        ensures { result ≡ given self.now slot frame }
    {
        match *self {
            Belief::Private => Belief::Private,
            Belief::Chosen => Belief::Chosen,
            Belief::Copied => Belief::Turning(Stage::Ready, Target::Frame(slot, frame)),
            Belief::Turning(stage, target) => Belief::Turning(stage, target),
            Belief::Shown(old, place, homing) => Belief::Shown(old, place, homing),
            Belief::Leaving(old) => Belief::Leaving(old),
        }
    }

    // The belief where the order wasn't done.
    fn refused(&self) -> Belief
        ensures { result ≡ refused self.now }
    {
        match *self {
            Belief::Private => Belief::Private,
            Belief::Chosen => Belief::Private,
            Belief::Copied => Belief::Private,
            Belief::Turning(stage, target) => stage.dropped(target),
            Belief::Shown(slot, frame, _) => Belief::Shown(slot, frame, Homing::Off),
            Belief::Leaving(slot) => Belief::Leaving(slot),
        }
    }

    // The belief where nothing is known of the order.
    fn doubted(&self) -> Belief
        ensures { result ≡ doubted self.now }
    {
        match *self {
            Belief::Private => Belief::Private,
            Belief::Chosen => Belief::Chosen,
            Belief::Copied => Belief::Copied,
            Belief::Turning(stage, target) => Belief::Turning(stage.doubted(), target),
            Belief::Shown(slot, frame, _) => Belief::Shown(slot, frame, Homing::Off),
            Belief::Leaving(slot) => Belief::Leaving(slot),
        }
    }
}
