//! What is due, by what is believed and by what keeps the page from being lent.
ghost use Rattle.std.specs.Prelude.{◌≡◌, Option};
ghost use Rattle.page_lender.specs.Decisions.{dropped, due, equal_at, equal_to, homing_by, is_barred, is_private, must_own, order_at, order_home, prepared, shows, unshown, waiting, waits_at};

use crate::{Bars, Belief, Homing, Order, Stage, Target};

impl Bars {
    // Whether something keeps the page from being lent.
    pub(crate) fn any(&self) -> bool
        ensures { result ≡ is_barred self.now }
    {
        self.called || self.must_own()
    }

    // Whether the page must not show a frame.
    pub(crate) fn must_own(&self) -> bool
        ensures { result ≡ must_own self.now }
    {
        self.pinned || self.inherited || self.locked || self.left || self.ended
    }

    // Whether a page that shows its frame is to get a copy of its own, and where.
    fn homing(&self) -> Homing
        ensures { result ≡ homing_by self.now }
    {
        if !self.must_own() {
            return Homing::Off;
        }
        if self.pinned {
            Homing::InPlace
        } else {
            Homing::Elsewhere
        }
    }
}

impl Target {
    // The belief of a page that isn't to show this, and to which no write waits.
    pub(crate) fn unshown(self) -> Belief
        ensures { result ≡ unshown self }
    {
        match self {
            Target::Frame(slot, _) => Belief::Leaving(slot),
            Target::Zeros => Belief::Private,
        }
    }
}

impl Stage {
    // What is to be done with a page that has come so far on its way to this target.
    fn order(self, target: Target) -> Order
        ensures { result ≡ order_at self target }
    {
        match self {
            Stage::Ready => Order::Hold(target),
            Stage::Held => Order::Compare(target),
            Stage::Equal => Order::Map(target),
            Stage::LettingGo => Order::LetGo(target),
        }
    }

    // Whether writes may wait.
    fn waits(self) -> bool
        ensures { result ≡ waits_at self }
    {
        match self {
            Stage::Ready => false,
            Stage::Held => true,
            Stage::Equal => true,
            Stage::LettingGo => true,
        }
    }

    // What a page that has come so far was found to be equal to.
    fn equal_to(self, target: Target) -> Option<Target>
        ensures { result ≡ equal_at self target }
    {
        match self {
            Stage::Ready => None,
            Stage::Held => None,
            Stage::Equal => Some(target),
            Stage::LettingGo => None,
        }
    }

    // The belief of a page that has come so far, and isn't to show this target any more.
    pub(crate) fn dropped(self, target: Target) -> Belief
        ensures { result ≡ dropped self target }
    {
        match self {
            Stage::Ready => target.unshown(),
            Stage::Held => Belief::Turning(Stage::LettingGo, target),
            Stage::Equal => Belief::Turning(Stage::LettingGo, target),
            Stage::LettingGo => Belief::Turning(Stage::LettingGo, target),
        }
    }
}

impl Homing {
    // What is to be done with a page that shows its frame.
    fn order(self) -> Order
        ensures { result ≡ order_home self }
    {
        match self {
            Homing::Off => Order::Wait,
            Homing::InPlace => Order::TakeHome(true),
            Homing::Elsewhere => Order::TakeHome(false),
        }
    }
}

impl Belief {
    // Whether nothing is lent of the page, and nothing is asked.
    pub(crate) fn is_private(&self) -> bool
        ensures { result ≡ is_private self.now }
    {
        match *self {
            Belief::Private => true,
            Belief::Chosen => false,
            Belief::Copied => false,
            Belief::Turning(_, _) => false,
            Belief::Shown(_, _, _) => false,
            Belief::Leaving(_) => false,
        }
    }

    /// Returns what is to be done with a page of which this is believed.
    pub fn due(&self) -> Order
        ensures { result ≡ due self.now }
    {
        match *self {
            Belief::Private => Order::Wait,
            Belief::Chosen => Order::Copy,
            Belief::Copied => Order::Lend,
            Belief::Turning(stage, target) => stage.order(target),
            Belief::Shown(_, _, homing) => homing.order(),
            Belief::Leaving(slot) => Order::Release(slot),
        }
    }

    /// Returns whether writes to the page may wait.
    pub fn waits(&self) -> bool
        ensures { result ≡ waiting self.now }
    {
        match *self {
            Belief::Private => false,
            Belief::Chosen => false,
            Belief::Copied => false,
            Belief::Turning(stage, _) => stage.waits(),
            Belief::Shown(_, _, _) => false,
            Belief::Leaving(_) => false,
        }
    }

    /// Returns whether the page may show a frame itself.
    pub fn shows(&self) -> bool
        ensures { result ≡ shows self.now }
    {
        match *self {
            Belief::Private => false,
            Belief::Chosen => false,
            Belief::Copied => false,
            Belief::Turning(_, _) => false,
            Belief::Shown(_, _, _) => true,
            Belief::Leaving(_) => false,
        }
    }

    /// Returns what the page was found to be equal to, if it was compared and nothing came between.
    pub fn equal_to(&self) -> Option<Target>
        ensures { result ≡ equal_to self.now }
    {
        match *self {
            Belief::Private => None,
            Belief::Chosen => None,
            Belief::Copied => None,
            Belief::Turning(stage, target) => stage.equal_to(target),
            Belief::Shown(_, _, _) => None,
            Belief::Leaving(_) => None,
        }
    }

    // The belief once bars are looked at.
    pub(crate) fn prepared(&self, bars: &Bars) -> Belief
        ensures { result ≡ prepared bars.now self.now }
    {
        let any = bars.any();
        match *self {
            Belief::Private => Belief::Private,
            Belief::Chosen => if any { Belief::Private } else { Belief::Chosen },
            Belief::Copied => if any { Belief::Private } else { Belief::Copied },
            Belief::Turning(stage, target) => if any {
                stage.dropped(target)
            } else {
                Belief::Turning(stage, target)
            },
            Belief::Shown(slot, frame, _) => Belief::Shown(slot, frame, bars.homing()),
            Belief::Leaving(slot) => Belief::Leaving(slot),
        }
    }
}
