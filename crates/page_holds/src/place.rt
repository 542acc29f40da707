//! Where the memory of a page is while the page is held, and what is done next.
ghost use Rattle.std.specs.Prelude.{◌≡◌};
ghost use Rattle.page_holds.specs.Steps.{compared, is_ready, is_to_hold, outcome_of, parted, place_of, shown_step, step_at, step_of, zeros_parted};

use page_lender::{Belief, Outcome, Stage, Target};

/// What came of an attempt to hold a page.
#[derive(Clone, Copy, Debug, PartialEq, Eq)]
pub enum Taking {
    /// Nothing was done.
    Refused,
    /// It isn't held, but writes to it may wait.
    Watched,
    /// It is at its place, and writes to it wait.
    Guarded,
    /// Its memory was moved aside. Nothing is left at its place, and reads and writes there wait.
    Aside,
}

/// Where the memory of a page is while the page is held.
#[derive(Clone, Copy, Debug, PartialEq, Eq)]
pub enum HeldPlace {
    /// At its place. Nobody waits.
    Free,
    /// At its place. Writes to it may wait.
    Guarded,
    /// Aside. Nothing is at its place, and reads and writes there wait.
    Aside,
    /// What it equals took its place, and its memory isn't needed any more. Threads that came before may wait.
    Replaced,
}

/// What is done next with a page that is held.
#[derive(Clone, Copy, Debug, PartialEq, Eq)]
pub enum HoldStep {
    /// Nothing is left to do.
    Over,
    /// Its memory is compared with its frame.
    Compare,
    /// Its memory is compared with zeros.
    CompareZeros,
    /// Its frame is mapped at its place.
    Map,
    /// Zeros are mapped at its place.
    GiveBack,
    /// Its memory is moved back to its place.
    PutBack,
    /// Nobody waits for it any longer. Where nothing is at its place, zeros are from then on.
    EndWatch,
}

impl Taking {
    // Returns the outcome of the page's order.
    pub(crate) fn outcome(self) -> Outcome
        ensures { result ≡ outcome_of self }
    {
        match self {
            Taking::Refused => Outcome::Refused,
            Taking::Watched => Outcome::Unknown,
            Taking::Guarded => Outcome::Done,
            Taking::Aside => Outcome::Done,
        }
    }

    // Returns where the page's memory is then.
    pub(crate) fn place(self) -> HeldPlace
        ensures { result ≡ place_of self }
    {
        match self {
            Taking::Refused => HeldPlace::Free,
            Taking::Watched => HeldPlace::Guarded,
            Taking::Guarded => HeldPlace::Guarded,
            Taking::Aside => HeldPlace::Aside,
        }
    }
}

impl HeldPlace {
    // Returns what is done next with a page that isn't to be shown, or was mapped.
    fn parted(self) -> HoldStep
        ensures { result ≡ parted self }
    {
        match self {
            HeldPlace::Free => HoldStep::Over,
            HeldPlace::Guarded => HoldStep::EndWatch,
            HeldPlace::Aside => HoldStep::PutBack,
            HeldPlace::Replaced => HoldStep::EndWatch,
        }
    }

    // Returns what is done next with a page that was found to be zeros.
    fn zeros_parted(self) -> HoldStep
        ensures { result ≡ zeros_parted self }
    {
        match self {
            HeldPlace::Free => HoldStep::Over,
            HeldPlace::Guarded => HoldStep::GiveBack,
            HeldPlace::Aside => HoldStep::EndWatch,
            HeldPlace::Replaced => HoldStep::EndWatch,
        }
    }

    // Returns what is done next with a page that was found equal to this target.
    fn shown(self, target: Target) -> HoldStep
        ensures { result ≡ shown_step target self }
    {
        match target {
            Target::Frame(_, _) => HoldStep::Map,
            Target::Zeros => self.zeros_parted(),
        }
    }

    // Returns what is done next with a page that has come so far on its way to this target.
    fn turning(self, stage: Stage, target: Target) -> HoldStep
        ensures { result ≡ step_at stage target self }
    {
        match stage {
            Stage::Ready => self.parted(),
            Stage::Held => compared(target),
            Stage::Equal => self.shown(target),
            Stage::LettingGo => self.parted(),
        }
    }

    /// Returns what is done next with a page whose memory is there, and of which this is believed.
    pub fn step(self, belief: Belief) -> HoldStep
        ensures { result ≡ step_of belief self }
    {
        match belief {
            Belief::Private => self.parted(),
            Belief::Chosen => self.parted(),
            Belief::Copied => self.parted(),
            Belief::Turning(stage, target) => self.turning(stage, target),
            Belief::Shown(_, _, _) => self.parted(),
            Belief::Leaving(_) => self.parted(),
        }
    }
}

// Returns what is done next with a page that was held.
fn compared(target: Target) -> HoldStep
    ensures { result ≡ compared target }
{
    match target {
        Target::Frame(_, _) => HoldStep::Compare,
        Target::Zeros => HoldStep::CompareZeros,
    }
}

// Returns whether a page is to be held that has come so far on its way to a target.
fn is_ready(stage: Stage) -> bool
    ensures { result ≡ is_ready stage }
{
    match stage {
        Stage::Ready => true,
        Stage::Held => false,
        Stage::Equal => false,
        Stage::LettingGo => false,
    }
}

// Returns whether the page is to be held.
pub(crate) fn is_to_hold(belief: Belief) -> bool
    ensures { result ≡ is_to_hold belief }
{
    match belief {
        Belief::Private => false,
        Belief::Chosen => false,
        Belief::Copied => false,
        Belief::Turning(stage, _) => is_ready(stage),
        Belief::Shown(_, _, _) => false,
        Belief::Leaving(_) => false,
    }
}
