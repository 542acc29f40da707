//! Where next to nothing changes a look takes only some of the idle pages.
ghost use Rattle.std.specs.Prelude.{◌≡◌, ◌+◌, ◌*◌, min};
ghost use Rattle.page_looks.specs.Rests.{changes_of, is_calm, longer, rest_then, found_then, woken};

use crate::idle::{CALM_PART, LookConfig};
use crate::parts::Part;

// Returns twice as many pages and one more, up to `most`.
fn longer(rest: u8, most: u8) -> u8
    ensures { result ≡ longer rest most }
{
    (u32::from(rest) * 2 + 1).min(u32::from(most)) as u8
}

impl Part {
    // Returns how many pages have changed, those with them that have memory of their own since.
    fn changes(&self, changes: u32, own: u32) -> u64
        ensures { result ≡ changes_of self.now changes own }
    {
        u64::from(changes) + u64::from(own.saturating_sub(self.own))
    }

    // Returns whether next to nothing has changed.
    fn is_calm(&self, changes: u32, own: u32) -> bool
        ensures { result ≡ is_calm self.now changes own }
    {
        self.changes(changes, own) * CALM_PART <= u64::from(own)
    }

    // Returns the part's rest, and how many looks are left until it is longer.
    fn rest_then(&self, config: &LookConfig, is_calm: bool) -> (u8, u8)
        ensures { result ≡ rest_then config.now self.now is_calm }
    {
        if !is_calm {
            return (0, 0);
        }
        if self.left > 0 {
            return (self.rest, self.left - 1);
        }
        let rest = longer(self.rest, config.rest_most);
        (rest, rest)
    }

    /// Takes what a look found: how many idle pages have changed, and how many have memory of their own.
    pub fn set_rest(&mut self, config: &LookConfig, changes: u32, own: u32)
        ensures { self.new ≡ found_then config.now self.old changes own }
    {
        let (rest, left) = self.rest_then(config, self.is_calm(changes, own));
        *self = Part {
            rest,
            left,
            own,
            is_still: self.changes(changes, own) == 0,
            ..*self
        };
    }

    /// Ends the part's rest.
    pub fn wake(&mut self)
        ensures { self.new ≡ woken self.old }
    {
        self.rest = 0;
        self.left = 0;
    }
}
