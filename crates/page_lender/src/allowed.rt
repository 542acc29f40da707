//! Which outcomes an order may have, and what it is carried out at.
ghost use Rattle.std.specs.Prelude.{◌≡◌};
ghost use Rattle.page_lender.specs.Decisions.{touches, is_given, can_be_done, can_bring, can_be_unknown, is_outcome};

use crate::{Order, Outcome};

impl Order {
    // Whether the order is carried out at the page, and not at the host alone.
    pub(crate) fn touches(&self) -> bool
        ensures { result ≡ touches self.now }
    {
        match *self {
            Order::Wait => false,
            Order::Copy => true,
            Order::Lend => false,
            Order::Hold(_) => true,
            Order::Compare(_) => true,
            Order::Map(_) => true,
            Order::LetGo(_) => true,
            Order::TakeHome(_) => true,
            Order::Release(_) => false,
        }
    }

    // Whether it may be done.
    fn can_be_done(&self) -> bool
        ensures { result ≡ can_be_done self.now }
    {
        self.is_given() && !self.can_bring()
    }

    // Whether it may bring a loan.
    fn can_bring(&self) -> bool
        ensures { result ≡ can_bring self.now }
    {
        match *self {
            Order::Wait => false,
            Order::Copy => false,
            Order::Lend => true,
            Order::Hold(_) => false,
            Order::Compare(_) => false,
            Order::Map(_) => false,
            Order::LetGo(_) => false,
            Order::TakeHome(_) => false,
            Order::Release(_) => false,
        }
    }

    // Whether what came of it may be unknown.
    fn can_be_unknown(&self) -> bool
        ensures { result ≡ can_be_unknown self.now }
    {
        match *self {
            Order::Wait => false,
            Order::Copy => false,
            Order::Lend => false,
            Order::Hold(_) => true,
            Order::Compare(_) => false,
            Order::Map(_) => false,
            Order::LetGo(_) => true,
            Order::TakeHome(_) => true,
            Order::Release(_) => false,
        }
    }

    /// Returns whether this outcome is one of the order's.
    pub fn has(&self, outcome: Outcome) -> bool
        ensures { result ≡ is_outcome self.now outcome }
    {
        match outcome {
            Outcome::Done => self.can_be_done(),
            Outcome::Lent(_, _) => self.can_bring(),
            Outcome::Refused => self.is_given(),
            Outcome::Unknown => self.can_be_unknown(),
        }
    }

    // Whether there is something to be done.
    pub(crate) fn is_given(&self) -> bool
        ensures { result ≡ is_given self.now }
    {
        match *self {
            Order::Wait => false,
            Order::Copy => true,
            Order::Lend => true,
            Order::Hold(_) => true,
            Order::Compare(_) => true,
            Order::Map(_) => true,
            Order::LetGo(_) => true,
            Order::TakeHome(_) => true,
            Order::Release(_) => true,
        }
    }
}
