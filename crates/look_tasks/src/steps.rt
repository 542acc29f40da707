//! What a look comes to next.
ghost use Rattle.std.specs.Prelude.{◌≡◌, ◌<◌, ◌≤◌, length, true};
ghost use Rattle.look_tasks.specs.Steps.{steps_of, begun, due_part, after_due, step_of, stepped, is_added, added, looked_then};

use crate::{LookSteps, MANY_YOUNG, PartReturn, RETURN_NS, RETURNS_MOST, Step};

impl LookSteps {
    /// Begins a look at a window of so many parts.
    pub fn begin(parts: u32) -> LookSteps
        ensures { steps_of result ≡ begun parts }
    {
        LookSteps {
            parts,
            next_part: 0,
            count: 0,
            returns: [PartReturn { part: 0, due_ns: 0 }; RETURNS_MOST],
        }
    }

    // Returns how many places of `returns` are used.
    fn used(&self) -> usize
        ensures used { result ≡ length (steps_of self.now).returns }
        ensures most { result ≤ RETURNS_MOST }
    {
        (self.count as usize).min(RETURNS_MOST)
    }

    // Takes the first part to come back to away, if it is time to, and returns it.
    fn take_due(&mut self, now: u64) -> Option<u32>
        ensures part { result ≡ due_part (steps_of self.old).returns now }
        ensures steps { steps_of self.new ≡ after_due (steps_of self.old) now }
    {
        let used = self.used();
        let first = self.returns[0];
        if used == 0 || now < first.due_ns {
            return None;
        }
        self.returns.rotate_left(1);
        self.count = (used - 1) as u32;
        Some(first.part)
    }

    /// Returns what comes next, where the clock reads `now`: a part that it is time to come back to, or the next part, or the look is over.
    pub fn next(&mut self, now: u64) -> Step
        ensures step { result ≡ step_of (steps_of self.old) now }
        ensures steps { steps_of self.new ≡ stepped (steps_of self.old) now }
    {
        if let Some(part) = self.take_due(now) {
            return Step::Return(part);
        }
        if self.next_part >= self.parts {
            return Step::Over;
        }
        let part = self.next_part;
        self.next_part += 1;
        Step::Look(part)
    }

    // Returns whether the look is to come back to a part, of which this was found.
    fn is_to_return(&self, rests: bool, young: u32) -> bool
        ensures added { result ≡ is_added (steps_of self.now) rests young }
        ensures room { result ≡ true → self.now.count < RETURNS_MOST }
    {
        rests && young >= MANY_YOUNG && self.used() < RETURNS_MOST
    }

    // Adds a part to those that it comes back to.
    fn add(&mut self, part: u32, now: u64)
        requires { self.old.count < RETURNS_MOST }
        ensures { steps_of self.new ≡ added (steps_of self.old) part now }
    {
        self.returns[self.count as usize] = PartReturn {
            part,
            due_ns: now.saturating_add(RETURN_NS),
        };
        self.count += 1;
    }

    /// Learns that a part was looked at, where the clock reads `now`: whether it rests, and how many of its pages may be idle soon. Returns
    /// whether the look comes back to it.
    pub fn looked(&mut self, part: u32, now: u64, rests: bool, young: u32) -> bool
        ensures added { result ≡ is_added (steps_of self.old) rests young }
        ensures steps { steps_of self.new ≡ looked_then (steps_of self.old) part now rests young }
    {
        let is_added = self.is_to_return(rests, young);
        if is_added {
            self.add(part, now);
        }
        is_added
    }
}
