//! What a look found decides when the next one begins.
ghost use Rattle.std.specs.Prelude.{◌≡◌, max};
ghost use Rattle.look_tasks.specs.Times.{begun, calm_then, eager_then, is_calm_look, is_cheap, is_dear, is_eager, is_much, least_of, longer, looked, made_eager, next_ms, pause_of, turns_then};

use crate::{
    AGAIN_NS, ASKED_LITTLE, BUSY_PART, CALM_LOOKS, CALM_PART, DEAR_PART, EAGER_LOOKS, FOUND_LITTLE,
    LEAST_PART, LONGER_PART, LookFinds, LookTimes, MUCH, MUCH_PART, TURNS_LEAST, TURNS_MOST,
};

impl LookFinds {
    // Returns whether much was found.
    fn is_much(&self) -> bool
        ensures { result ≡ is_much self.now }
    {
        self.found >= MUCH && self.found >= self.pages / MUCH_PART
    }

    // Returns whether next to nothing was.
    fn is_calm(&self) -> bool
        ensures { result ≡ is_calm_look self.now }
    {
        self.found <= FOUND_LITTLE && self.asked.saturating_sub(self.again) <= ASKED_LITTLE
    }
}

impl LookTimes {
    /// Begins: looks are `period_ms` apart.
    pub fn begin(period_ms: u32) -> LookTimes
        ensures { result ≡ begun period_ms }
    {
        LookTimes {
            period_ms,
            calm: 0,
            eager: 0,
            turns: TURNS_LEAST,
            now_ms: u64::from(period_ms),
        }
    }

    /// Makes the next looks come sooner: there is a new window, or a new lender.
    pub fn be_eager(&mut self)
        ensures { self.new ≡ made_eager self.old }
    {
        self.eager = EAGER_LOOKS;
    }

    // Returns whether the next look comes sooner, where there is a lender or not.
    fn is_eager(&self, may_lend: bool) -> bool
        ensures { result ≡ is_eager self.now may_lend }
    {
        may_lend && self.eager > 0
    }

    // Returns how many looks in a row have found next to nothing.
    fn calm_then(&self, finds: &LookFinds) -> u32
        ensures { result ≡ calm_then self.now finds.now }
    {
        if finds.is_calm() {
            self.calm.min(CALM_LOOKS - 1) + 1
        } else {
            0
        }
    }

    // Returns whether the look lasted long, and questions that were asked before took much of it.
    fn is_dear(&self, finds: &LookFinds) -> bool
        ensures { result ≡ is_dear self.now finds.now }
    {
        finds.took_ms > u64::from(self.period_ms) * 2
            && finds.spent_ns / (AGAIN_NS * DEAR_PART) < finds.again
    }

    // Returns whether it was short, or they took little of it.
    fn is_cheap(&self, finds: &LookFinds) -> bool
        ensures { result ≡ is_cheap self.now finds.now }
    {
        finds.took_ms < u64::from(self.period_ms) / 2
            || finds.again < finds.spent_ns / (AGAIN_NS * DEAR_PART * 4)
    }

    // Returns at one look in how many pages that nobody else has are asked about again.
    fn turns_then(&self, finds: &LookFinds) -> u32
        ensures { result ≡ turns_then self.now finds.now }
    {
        if self.is_dear(finds) {
            return self.turns.min(TURNS_MOST / 2) * 2;
        }
        if self.is_cheap(finds) {
            return (self.turns / 2).max(TURNS_LEAST);
        }
        self.turns
    }

    // Returns the time between two looks where next to nothing is found for long.
    fn longer(&self) -> u64
        ensures { result ≡ longer self.now }
    {
        if self.now_ms < u64::from(self.period_ms) * CALM_PART {
            self.now_ms + u64::from(self.period_ms) / LONGER_PART
        } else {
            self.now_ms
        }
    }

    // Returns the time until the next look, but for one that is none.
    fn next_ms(&self, finds: &LookFinds, may_lend: bool) -> u64
        ensures { result ≡ next_ms self.now finds.now may_lend }
    {
        if self.is_eager(may_lend) || finds.is_much() {
            return u64::from(self.period_ms) / BUSY_PART;
        }
        if self.calm_then(finds) >= CALM_LOOKS {
            return self.longer();
        }
        u64::from(self.period_ms)
    }

    /// Takes what a look found, and whether there was a lender.
    pub fn looked(&mut self, finds: &LookFinds, may_lend: bool)
        ensures { self.new ≡ looked self.old finds.now may_lend }
    {
        *self = LookTimes {
            period_ms: self.period_ms,
            calm: self.calm_then(finds),
            eager: self.eager - u32::from(self.is_eager(may_lend)),
            turns: self.turns_then(finds),
            now_ms: self.next_ms(finds, may_lend).max(1),
        };
    }

    // Returns how long a pause is at least, after a look that lasted so long.
    fn least_ms(&self, took_ms: u64) -> u64
        ensures { result ≡ least_of self.now took_ms }
    {
        let least = self.now_ms / LEAST_PART + 1;
        if self.calm >= CALM_LOOKS {
            least.max(took_ms)
        } else {
            least
        }
    }

    /// Returns how many milliseconds pass until the next look, after one that lasted so long.
    pub fn pause_ms(&self, took_ms: u64) -> u64
        ensures { result ≡ pause_of self.now took_ms }
    {
        self.now_ms
            .saturating_sub(took_ms)
            .max(self.least_ms(took_ms))
    }
}
