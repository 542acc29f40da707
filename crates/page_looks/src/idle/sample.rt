//! Which pages of a part that rests a look takes.
ghost use Rattle.std.specs.Prelude.{◌≡◌, ◌+◌, ◌%◌, nat_eq};
ghost use Rattle.page_looks.specs.Samples.{is_in_sample, is_sampled, is_left_out};

use crate::idle::{LookConfig, PageLooks};
use crate::parts::Part;

// Returns whether a number is one in so many of those in a row: in `rest + 1`. A division by a constant is much cheaper than another one, and
// these are the rests that a part comes to.
fn is_one_of(rest: u8, number: u64) -> bool
    ensures { result ≡ nat_eq (number % (rest + 1)) 0 }
{
    match rest {
        0 => true,
        1 => number % 2 == 0,
        3 => number % 4 == 0,
        7 => number % 8 == 0,
        _ => number % (u64::from(rest) + 1) == 0,
    }
}

impl Part {
    /// Returns whether this look glances at an idle page there. Where the part rests, that is one page in so many.
    pub fn is_in_sample(&self, look: u32, number: u32) -> bool
        ensures { result ≡ is_in_sample self.now look number }
    {
        is_one_of(self.rest, u64::from(look) + u64::from(number))
    }
}

impl PageLooks {
    /// Returns whether a look takes the page, if its part rests. `is_turn`: whether it is the turn of idle pages there, as
    /// `is_turn_of_idle` says.
    pub fn is_sampled(&self, part: &Part, look: u32, number: u32, is_turn: bool) -> bool
        ensures { result ≡ is_sampled part.now self.now look number is_turn }
    {
        !self.is_again() || part.is_in_sample(look, number) || is_turn
    }

    /// Returns whether this look leaves the page out, if its part rests.
    pub fn is_left_out(&self, config: &LookConfig, part: &Part, look: u32, number: u32) -> bool
        ensures { result ≡ is_left_out config.now part.now self.now look number }
    {
        let is_turn = part.is_turn_of_idle(config, look, number);
        !self.is_sampled(part, look, number, is_turn)
    }
}
