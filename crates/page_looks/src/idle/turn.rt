//! Which looks ask about a page, or read it.
ghost use Rattle.std.specs.Prelude.{◌≡◌, ◌≤◌};
ghost use Rattle.page_looks.specs.Turns.{power, turns_of, idle_apart, looks_apart, turn_at, is_turn_of_idle, is_asked_in_passing};

use crate::idle::{LookConfig, PASSING_EACH, PageLooks, TOGETHER, TURNS, WHOLE_TURNS};
use crate::parts::Part;

// Returns how many looks apart a page is asked about that was asked about so often in vain.
fn power(asks: u8) -> u64
    ensures power { result ≡ power asks }
    ensures some { 1 ≤ result }
{
    match asks {
        0 => 1,
        1 => 2,
        2 => 4,
        _ => 8,
    }
}

// Returns how many looks apart it is at most in a part that isn't whole.
fn turns_of(config: &LookConfig) -> u64
    ensures turns { result ≡ turns_of config.now }
    ensures some { 1 ≤ result }
{
    if config.turns == 0 {
        TURNS
    } else {
        u64::from(config.turns)
    }
}

// Returns which turn a look is for a page: pages in a row have their turns together.
pub(crate) fn turn_at(look: u32, number: u32) -> u64
    ensures { result ≡ turn_at look number }
{
    u64::from(look) + u64::from(number / TOGETHER)
}

impl Part {
    /// Returns of how many looks one asks again about an idle page that was asked about most often.
    pub fn idle_apart(&self, config: &LookConfig) -> u64
        ensures apart { result ≡ idle_apart config.now self.now }
        ensures some { 1 ≤ result }
    {
        let turns = turns_of(config);
        let apart = if self.whole {
            turns * WHOLE_TURNS
        } else {
            turns
        };
        apart.max(u64::from(self.rest) + 1)
    }

    /// Returns whether it is this look's turn to ask again about such a page there. Pages with numbers in one row of `TOGETHER` have
    /// their turns together.
    pub fn is_turn_of_idle(&self, config: &LookConfig, look: u32, number: u32) -> bool
        ensures { result ≡ is_turn_of_idle config.now self.now look number }
    {
        turn_at(look, number) % self.idle_apart(config) == 0
    }
}

impl PageLooks {
    /// Returns of how many looks one is a turn of the page.
    pub fn looks_apart(&self, config: &LookConfig, part: &Part) -> u64
        ensures apart { result ≡ looks_apart config.now part.now self.now }
        ensures some { 1 ≤ result }
    {
        if self.looks == 0 {
            return 1;
        }
        if self.is_again() {
            part.idle_apart(config)
        } else {
            power(self.asks)
        }
    }

    /// Returns whether others mustn't find the page by the question about it. Those of a whole part are found at their first question, and
    /// later at one of `PASSING_EACH` of their turns.
    pub fn is_asked_in_passing(
        &self,
        config: &LookConfig,
        part: &Part,
        look: u32,
        number: u32,
    ) -> bool
        ensures { result ≡ is_asked_in_passing config.now part.now self.now look number }
    {
        let turn = turn_at(look, number) / self.looks_apart(config, part);
        part.whole && self.asks > 0 && turn % PASSING_EACH != 0
    }
}
