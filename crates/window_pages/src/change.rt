//! Changes of a page that its part's counts follow.
ghost use Rattle.std.specs.Prelude.{◌≡◌};
ghost use Rattle.window_pages.specs.Bytes.{known_of, notes_of};
ghost use Rattle.window_pages.specs.Changed.{Becomes, believing, forgets_at, notes_if};
ghost use Rattle.window_pages.specs.Counted.{counts_then};
ghost use Rattle.window_pages.specs.Known.{bars_of, clued, forgotten, lender_of, may_be_copy};

use crate::bytes::{CLUES, clue_word, has_slot};
use crate::{KnownPage, PageNotes, PartCounts, WindowFacts, WindowPage};
use page_lender::{Bars, Belief, PageLender};

impl PageNotes {
    // Returns the notes of a page of whose content nothing is known any more.
    pub(crate) fn forgotten(&self) -> PageNotes
        ensures { result ≡ forgotten self.now }
    {
        PageNotes {
            looks: 0,
            asks: 0,
            seen: false,
            ..*self
        }
    }
}

impl WindowPage {
    // Writes some bits of the number of the frame that lies under the page.
    pub(crate) fn set_clue(&mut self, clue: u16)
        ensures known { known_of self.new ≡ known_of self.old }
        ensures notes { notes_of self.new ≡ clued clue (notes_of self.old) }
    {
        *self = WindowPage {
            clue: self.clue / CLUES * CLUES + clue % CLUES,
            ..*self
        };
    }

    // Writes whether the page was seen elsewhere, or is zeros.
    pub(crate) fn set_seen(&mut self, is_seen: bool)
        ensures known { known_of self.new ≡ known_of self.old }
        ensures notes { notes_of self.new ≡ record (notes_of self.old) { seen = is_seen } }
    {
        *self = WindowPage {
            clue: clue_word(self.clue, is_seen),
            ..*self
        };
    }

    // Forgets what looks have found of the page's content.
    pub(crate) fn forget(&mut self)
        ensures known { known_of self.new ≡ known_of self.old }
        ensures notes { notes_of self.new ≡ forgotten (notes_of self.old) }
    {
        *self = WindowPage {
            clue: self.clue % CLUES,
            looks: self.looks % 16,
            ..*self
        };
    }
}

// Makes of a page what is known of it now, and forgets what looks have found of it if `forgets`.
pub(crate) fn change(page: &mut WindowPage, part: &mut PartCounts, known: &KnownPage, forgets: bool)
    ensures { Becomes known.now forgets page.old page.new part.old part.new }
{
    let old = *page;
    page.put_known(known);
    if forgets {
        page.forget();
    }
    part.follow(&old, page);
}

// Returns whether what looks have found counts no more: the page stops showing its frame, or a slot takes the fingerprint's place.
fn forgets_at(old: Belief, new: Belief) -> bool
    ensures { result ≡ forgets_at old new }
{
    (old.shows() && !new.shows()) || (has_slot(new) && !has_slot(old))
}

// Makes of a page what its lender knows of it now.
pub(crate) fn believe(page: &mut WindowPage, part: &mut PartCounts, lender: &PageLender)
    ensures known { known_of page.new ≡ believing lender.now.belief lender.now.ordered (known_of page.old) }
    ensures notes { notes_of page.new ≡ notes_if (forgets_at (known_of page.old).belief lender.now.belief) lender.now.belief (notes_of page.old) }
    ensures counts { part.new ≡ counts_then page.old page.new part.old }
{
    let before = page.known();
    let known = KnownPage {
        belief: lender.belief,
        ordered: lender.ordered,
        ..before
    };
    change(page, part, &known, forgets_at(before.belief, lender.belief));
}

impl KnownPage {
    // Returns whether the page's memory may be a private copy over a frame.
    fn may_be_copy(&self) -> bool
        ensures { result ≡ may_be_copy self.now }
    {
        self.over && !self.belief.shows() && !self.shows_past()
    }

    /// Returns what keeps the page from being lent while this is so.
    pub fn bars(&self, facts: &WindowFacts) -> Bars
        ensures { result ≡ bars_of facts.now self.now }
    {
        Bars {
            called: facts.called,
            pinned: facts.pinned || (facts.may_pin && self.may_be_copy()),
            inherited: facts.inherited,
            locked: facts.locked,
            left: self.out || facts.leaves,
            ended: facts.ended,
        }
    }

    // Returns the page's lender while this is so.
    pub(crate) fn lender(&self, facts: &WindowFacts) -> PageLender
        ensures { result ≡ lender_of facts.now self.now }
    {
        PageLender {
            belief: self.belief,
            ordered: self.ordered,
            bars: self.bars(facts),
        }
    }
}
