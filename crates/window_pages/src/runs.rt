//! Pages in a row whose orders one call of the system can carry out.
ghost use Rattle.std.specs.Prelude.{◌≡◌, false};
ghost use Rattle.std.specs.Option.{option_map_or};
ghost use Rattle.page_lender.specs.Decisions.{equal_to};
ghost use Rattle.window_pages.specs.Runs.{follows, goes_on, goes_with};

use crate::WindowPage;
use page_lender::{Belief, Target};

// Returns whether the second is the frame behind the first, or both are zeros.
fn follows(one: Target, other: Target) -> bool
    ensures { result ≡ follows one other }
{
    match one {
        Target::Frame(_, frame) => match other {
            Target::Frame(_, next) => u64::from(next) == u64::from(frame) + 1,
            Target::Zeros => false,
        },
        Target::Zeros => match other {
            Target::Frame(_, _) => false,
            Target::Zeros => true,
        },
    }
}

// Returns whether a page was found equal to what follows this.
fn is_behind(target: Target, other: Belief) -> bool
    ensures { result ≡ option_map_or (follows target) (equal_to other) false }
{
    match other.equal_to() {
        None => false,
        Some(next) => follows(target, next),
    }
}

// Returns whether one page goes on with what the page before it begins.
fn goes_with(one: Belief, other: Belief) -> bool
    ensures { result ≡ goes_with one other }
{
    match one.equal_to() {
        None => false,
        Some(target) => is_behind(target, other),
    }
}

impl WindowPage {
    /// Returns whether the page's order goes on with that of the page before it: frames in a row are to be mapped, or memory of both is to be given
    /// back. One call of the system can do that.
    pub fn goes_on(&self, before: &WindowPage) -> bool
        ensures { result ≡ goes_on before.now self.now }
    {
        let known = self.known();
        known.ordered && goes_with(before.known().belief, known.belief)
    }
}
