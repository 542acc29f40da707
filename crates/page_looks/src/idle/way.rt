//! What a look does with a page.
ghost use Rattle.std.specs.Prelude.{◌≡◌, ◌≤◌};
ghost use Rattle.page_looks.specs.Ways.{read_each, is_kept, act_of, glances, way, act_after};

use crate::idle::turn::turn_at;
use crate::idle::{Act, LookConfig, PageLooks, READ_EACH, READ_EACH_OVER, Way};
use crate::parts::Part;

// Returns of how many turns one reads an idle page that was asked about most often.
fn read_each(part: &Part, is_over: bool) -> u64
    ensures each { result ≡ read_each part.now is_over }
    ensures some { 1 ≤ result }
{
    if !is_over {
        return READ_EACH;
    }
    if part.is_still { READ_EACH_OVER } else { 1 }
}

impl Way {
    /// Returns what comes of the look. `is_same`: the glance is the last one's; if there is none, this counts for nothing.
    pub fn act_after(&self, is_same: bool) -> Act
        ensures { result ≡ act_after self.now is_same }
    {
        if self.glances && !is_same {
            Act::Meet
        } else {
            self.act
        }
    }
}

impl PageLooks {
    // Returns whether the fingerprint of the last read counts, if this is the page's turn of that number.
    fn is_kept(&self, part: &Part, is_over: bool, turn: u64) -> bool
        ensures { result ≡ is_kept part.now self.now is_over turn }
    {
        self.is_again() && turn % read_each(part, is_over) != 0
    }

    // Returns what comes of this look, if no glance says that the page has changed.
    fn act_of(&self, config: &LookConfig, part: &Part, is_over: bool, look: u32, number: u32) -> Act
        ensures { result ≡ act_of config.now part.now self.now is_over look number }
    {
        if self.looks == 0 && !is_over {
            return Act::Meet;
        }
        let apart = self.looks_apart(config, part);
        let at = turn_at(look, number);
        if at % apart != 0 {
            return Act::Pass;
        }
        if self.is_kept(part, is_over, at / apart) {
            Act::Keep
        } else {
            Act::Read
        }
    }

    // Returns whether a look glances at a page with memory of its own of which it would come to this.
    fn glances(&self, part: &Part, act: Act, look: u32, number: u32) -> bool
        ensures { result ≡ glances part.now self.now act look number }
    {
        match act {
            Act::Pass => self.is_idle(),
            Act::Meet => false,
            Act::Keep => part.is_in_sample(look, number),
            Act::Read => true,
        }
    }

    /// Returns what this look does with page `number`. `is_over`: its memory lies over a frame, so that no glance says whether it has
    /// changed.
    pub fn way(
        &self,
        config: &LookConfig,
        part: &Part,
        is_over: bool,
        look: u32,
        number: u32,
    ) -> Way
        ensures { result ≡ way config.now part.now self.now is_over look number }
    {
        let act = self.act_of(config, part, is_over, look, number);
        Way {
            glances: !is_over && self.glances(part, act, look, number),
            act,
        }
    }
}
