//! A guest's verdicts as they come.
ghost use Rattle.std.specs.Prelude.{◌≤◌, vec_capacity};
ghost use Rattle.page_model.specs.declared.limits.TheConstants.{MAX_ENTRIES};

use crate::gate::Gate;
use crate::patience::Patience;
use page_model::Verdict;
use std::alloc::Allocator;

/// Where a guest's verdicts go as they come.
///
/// A port alone doesn't know how many will come, so no more are taken than there is room for: one for each request.
#[derive(Drop)]
pub(crate) struct Inbox<'g, A: Allocator, G: Gate> {
    pub(crate) gate: &'g G,
    pub(crate) guest: u8,
    pub(crate) most: usize,
    pub(crate) verdicts: Vec<Verdict, A>,
    pub(crate) patience: Patience,
    /// How many failed looks a verdict offsets.
    pub(crate) looks: u32,
    ghost room: { most ≤ vec_capacity verdicts },
    // At most the entries of a journal, so that they can be numbered.
    ghost few: { most ≤ MAX_ENTRIES },
}

impl<'g, A: Allocator, G: Gate> Inbox<'g, A, G> {
    ghost use Rattle.std.specs.Prelude.{◌≡◌, ◌<◌, [], ◌∷◌, ◌++◌, ◌↔◌, IsTrue, vec_len};

    /// Whether there is room for one more verdict.
    pub(crate) fn has_room(&self) -> bool
        ensures { IsTrue result ↔ (vec_len self.now.verdicts < self.now.most) }
    {
        self.verdicts.len() < self.most
    }

    /// Keeps a verdict, and calls the gate.
    pub(crate) fn keep(&mut self, verdict: Verdict)
        requires { vec_len self.old.verdicts < self.old.most }
        ensures { self.new.verdicts.items ≡ self.old.verdicts.items ++ verdict ∷ [] }
    {
        let nth = self.verdicts.len() as u32;
        self.verdicts.push_reserved(verdict);
        self.patience.regain(self.looks);
        self.gate.after(self.guest, nth);
    }
}
