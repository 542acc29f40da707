//! The lender of one page.
ghost use Rattle.std.specs.Prelude.{◌≡◌, true, false, not, ◌&&◌, if◌then◌else◌};
ghost use Rattle.page_lender.specs.Calls.{IsOrdered, is_free};
ghost use Rattle.page_lender.specs.Decisions.{due, waiting, shows, touches, is_given, is_barred, must_own, prepared, is_busy, is_held, is_movable, may_go_on, joined, is_private};
ghost use Rattle.page_lender.specs.Decisions.{is_outcome, account, account_then};
ghost use Rattle.page_lender.specs.Lender.{done_of, heard_of};
ghost use Rattle.page_lender.specs.Events.{DoneByEvents, StaysRight, HeardRightly, IsFree, ShowsNone};
ghost use Rattle.page_lender.specs.declared.belief.Belief.TheVariants as Belief;
ghost use Rattle.page_lender.specs.declared.belief.Stage.TheVariants.{Ready};
ghost use Rattle.page_lender.specs.declared.belief.Target.TheVariants.{Zeros};

use crate::{Bars, Belief, Notice, Order, Outcome, PageLender, Stage, Target};

impl PageLender {
    // Returns whether the page can be chosen: it is private, and nothing keeps it from being lent.
    fn is_free(&self) -> bool
        ensures { result ≡ is_free self.now }
    {
        self.belief.is_private() && !self.bars.any()
    }

    /// Chooses the page to be lent, and returns whether it can be: it is private, and nothing keeps it from being lent.
    pub fn choose(&mut self) -> bool
        ensures chosen { result ≡ (is_private self.old.belief && not (is_barred self.old.bars)) }
        ensures belief { self.new.belief ≡ (if result then Belief.Chosen else self.old.belief) }
        ensures ordered { self.new.ordered ≡ self.old.ordered }
        ensures bars { self.new.bars ≡ self.old.bars }
        ensures right { StaysRight self.old.belief self.new.belief }
    {
        if !self.is_free() {
            return false;
        }
        self.belief = Belief::Chosen;
        true
    }

    /// Chooses the page's memory to be given back if it is zeros, and returns whether it can be: it is private, and nothing keeps it
    /// from being lent.
    pub fn choose_zeros(&mut self) -> bool
        ensures chosen { result ≡ (is_private self.old.belief && not (is_barred self.old.bars)) }
        ensures belief { self.new.belief ≡ (if result then Belief.Turning Ready Zeros else self.old.belief) }
        ensures ordered { self.new.ordered ≡ self.old.ordered }
        ensures bars { self.new.bars ≡ self.old.bars }
        ensures right { StaysRight self.old.belief self.new.belief }
    {
        if !self.is_free() {
            return false;
        }
        self.belief = Belief::Turning(Stage::Ready, Target::Zeros);
        true
    }

    /// Returns what to do next with the page: one order at a time, and none that leads to showing a frame or to giving memory back
    /// while something keeps the page from being lent.
    pub fn next(&mut self) -> Order
        ensures { IsOrdered result self.old self.new }
    {
        if self.ordered {
            return Order::Wait;
        }
        self.belief = self.belief.prepared(&self.bars);
        let order = self.belief.due();
        self.ordered = order.is_given();
        order
    }

    /// Takes what came of the order that `next` gave.
    pub fn done(&mut self, order: Order, outcome: Outcome)
        requires ordered { self.old.ordered ≡ true }
        requires order { order ≡ due self.old.belief }
        requires outcome { is_outcome order outcome ≡ true }
        ensures events { DoneByEvents self.old.belief order outcome self.new.belief }
        ensures belief { self.new.belief ≡ done_of self.old.belief outcome }
        ensures account { account self.new.belief ≡ account_then order outcome (account self.old.belief) }
        ensures ordered { self.new.ordered ≡ false }
        ensures bars { self.new.bars ≡ self.old.bars }
    {
        self.belief = self.belief.after(outcome);
        self.ordered = false;
    }

    /// Returns whether an order that touches the page was given, and nothing is known of it yet.
    pub fn is_busy(&self) -> bool
        ensures { result ≡ is_busy self.now }
    {
        self.ordered && self.belief.due().touches()
    }

    /// Returns whether an order that touches the page is open, or writes to it may wait.
    pub fn is_held(&self) -> bool
        ensures held { result ≡ is_held self.now }
        ensures free { result ≡ false → IsFree self.now.belief }
    {
        self.is_busy() || self.belief.waits()
    }

    /// Returns whether the page's memory may be exchanged for other memory: it isn't held, and nothing keeps it from being lent.
    pub fn is_movable(&self) -> bool
        ensures movable { result ≡ is_movable self.now }
        ensures free { result ≡ true → IsFree self.now.belief }
    {
        !self.is_held() && !self.bars.any()
    }

    /// Hears of the page what `notice` says. No order that touches it is open.
    pub fn heard(&mut self, notice: Notice)
        requires { is_busy self.old ≡ false }
        ensures belief { self.new.belief ≡ heard_of self.old.belief notice }
        ensures right { HeardRightly self.old.belief self.new.belief }
        ensures account { account self.new.belief ≡ account self.old.belief }
        ensures ordered { self.new.ordered ≡ self.old.ordered }
        ensures bars { self.new.bars ≡ self.old.bars }
    {
        self.belief = match notice {
            Notice::Written => self.belief.written(),
            Notice::Discarded => self.belief.discarded(),
        };
    }

    /// Learns what keeps the page from being lent from now on, and returns whether the monitor's call may go on that these bars are
    /// for: no write waits, and a page that must not show a frame shows none. Otherwise it may go on once `next` has given orders, they
    /// are done, and this call returns true.
    pub fn bar(&mut self, bars: Bars) -> bool
        ensures bars { self.new.bars ≡ joined self.old.bars bars }
        ensures belief { self.new.belief ≡ self.old.belief }
        ensures ordered { self.new.ordered ≡ self.old.ordered }
        ensures goes_on { result ≡ may_go_on self.new }
        ensures free { result ≡ true → IsFree self.new.belief }
        ensures own { result ≡ true → must_own self.new.bars ≡ true → ShowsNone self.new.belief }
    {
        self.bars = Bars {
            left: self.bars.left || bars.left,
            ..bars
        };
        let is_covered = self.bars.must_own() && self.belief.shows();
        !self.is_busy() && !self.belief.waits() && !is_covered
    }
}
