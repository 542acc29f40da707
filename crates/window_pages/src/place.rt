//! What lies at a page's place.
ghost use Rattle.std.specs.Prelude.{◌≡◌, if◌then◌else◌, true, false};
ghost use Rattle.page_lender.specs.Events.{HeardRightly};
ghost use Rattle.window_pages.specs.Bytes.{belief_of, known_of, notes_of};
ghost use Rattle.window_pages.specs.Changed.{Becomes, moved_first, covered, detached, discarded, given_back, given_up, gone, left_alone, no_past, notes_if, uncovered, uncovered_notes, unmapped};
ghost use Rattle.window_pages.specs.Counted.{counts_then};
ghost use Rattle.window_pages.specs.Known.{clued, homes_in_place, is_in_place, kept_by, shows_past, stays, stored};

use crate::change::change;
use crate::lend::hear_of;
use crate::{KnownPage, PageNotes, PartCounts, WindowFacts, WindowPage};
use page_lender::{Belief, Homing, Notice, Stage, Target};

/// Notes that a frame was mapped at the page's place. `clue` is some bits of its number. What looks have found counts no more if the page
/// showed a frame of a lender that is gone.
pub fn cover(page: &mut WindowPage, part: &mut PartCounts, clue: u16)
    ensures known { known_of page.new ≡ covered (known_of page.old) }
    ensures notes { notes_of page.new ≡ clued clue (notes_if (shows_past (known_of page.old)) (known_of page.old).belief (notes_of page.old)) }
    ensures counts { part.new ≡ counts_then page.old page.new part.old }
{
    let old = *page;
    let known = page.known();
    let after = KnownPage {
        over: true,
        past: false,
        same: false,
        moved: false,
        begins: false,
        ..known
    };
    page.put_known(&after);
    if known.shows_past() {
        page.forget();
    }
    page.set_clue(clue);
    part.follow(&old, page);
}

/// Notes that memory of its own was put at the page's place: moved there, perhaps as the first page of what was moved, or mapped. What looks
/// have found counts no more if the page showed a frame of a lender that is gone.
pub fn uncover(page: &mut WindowPage, part: &mut PartCounts, moved: bool, begins: bool)
    ensures known { known_of page.new ≡ uncovered moved begins (known_of page.old) }
    ensures notes { notes_of page.new ≡ uncovered_notes (known_of page.old) (notes_of page.old) }
    ensures counts { part.new ≡ counts_then page.old page.new part.old }
{
    let old = *page;
    let known = page.known();
    let after = KnownPage {
        over: false,
        past: false,
        same: false,
        moved,
        begins,
        ..known
    };
    page.put_known(&after);
    if known.shows_past() {
        page.forget();
    }
    if known.over {
        page.set_clue(0);
    }
    part.follow(&old, page);
}

/// Notes that the page begins what was moved, if it was moved: the page before it has got other memory.
pub fn begin(page: &mut WindowPage)
    ensures known { known_of page.new ≡ moved_first (known_of page.old) }
    ensures notes { notes_of page.new ≡ kept_by (known_of page.old).belief (notes_of page.old) }
{
    let known = page.known();
    page.put_known(&KnownPage {
        begins: known.begins || known.moved,
        ..known
    });
}

impl KnownPage {
    // Returns the page once its memory is known to be that of zeros, or not.
    fn given_back(&self, is_zeros: bool) -> KnownPage
        ensures { result ≡ given_back is_zeros self.now }
    {
        if self.over {
            return *self;
        }
        KnownPage {
            same: is_zeros,
            ..*self
        }
    }

    // Returns the page once it shows no frame of a lender that is gone.
    fn no_past(&self) -> KnownPage
        ensures { result ≡ no_past self.now }
    {
        if !self.over {
            return *self;
        }
        KnownPage {
            same: false,
            ..*self
        }
    }

    // Returns what is believed once its content is given up.
    fn discarded(&self) -> Belief
        ensures value { result ≡ discarded self.now }
        ensures right { HeardRightly self.now.belief result }
    {
        let mut lender = self.free_lender();
        hear_of(&mut lender, Notice::Discarded);
        lender.belief
    }

    // Returns what is believed once its lender is gone.
    fn left_alone(&self) -> Belief
        ensures { result ≡ left_alone self.now.belief }
    {
        if self.belief.waits() {
            Belief::Turning(Stage::LettingGo, Target::Zeros)
        } else {
            Belief::Private
        }
    }

    // Returns whether it is to get a copy of its own where it is.
    fn homes_in_place(&self) -> bool
        ensures { result ≡ homes_in_place self.now.belief }
    {
        match self.belief {
            Belief::Private => false,
            Belief::Chosen => false,
            Belief::Copied => false,
            Belief::Turning(_, _) => false,
            Belief::Shown(_, _, homing) => is_in_place(homing),
            Belief::Leaving(_) => false,
        }
    }
}

// Returns whether a page that shows its frame is to get a copy of its own where it is.
fn is_in_place(homing: Homing) -> bool
    ensures { result ≡ is_in_place homing }
{
    match homing {
        Homing::Off => false,
        Homing::InPlace => true,
        Homing::Elsewhere => false,
    }
}

/// Notes whether the page was given back as zeros and has no memory, or has memory again. Of a page over a frame nothing is noted.
pub fn give_back(page: &mut WindowPage, part: &mut PartCounts, is_zeros: bool)
    ensures { Becomes (given_back is_zeros (known_of page.old)) false page.old page.new part.old part.new }
{
    let known = page.known();
    change(page, part, &known.given_back(is_zeros), false);
}

/// Notes that the page shows no frame of a lender that is gone. If it did, what looks have found counts no more.
pub fn stop_past(page: &mut WindowPage, part: &mut PartCounts)
    ensures { Becomes (no_past (known_of page.old)) (shows_past (known_of page.old)) page.old page.new part.old part.new }
{
    let known = page.known();
    change(page, part, &known.no_past(), known.shows_past());
}

/// Notes that the page's content was given up, and its lender hears it, unless an order is open that touches the page.
pub fn give_up(page: &mut WindowPage, part: &mut PartCounts)
    ensures page { Becomes (given_up (known_of page.old)) true page.old page.new part.old part.new }
    ensures right { HeardRightly (known_of page.old).belief (discarded (known_of page.old)) }
{
    let known = page.known();
    let given_up = KnownPage {
        belief: known.discarded(),
        same: false,
        ..known
    };
    change(page, part, &given_up, true);
}

/// Notes that the page was unmapped, or that something else was mapped in its place. It has left its window.
pub fn unmap(page: &mut WindowPage, part: &mut PartCounts)
    ensures page { Becomes (unmapped (known_of page.old)) true page.old page.new part.old part.new }
    ensures right { HeardRightly (known_of page.old).belief (discarded (known_of page.old)) }
{
    let known = page.known();
    let unmapped = KnownPage {
        belief: known.discarded(),
        over: false,
        past: false,
        out: true,
        same: false,
        moved: false,
        begins: false,
        ..known
    };
    change(page, part, &unmapped, true);
}

/// Notes that the page has left its window, with what it contains.
pub fn leave(page: &mut WindowPage, part: &mut PartCounts)
    ensures { Becomes (gone (known_of page.old)) true page.old page.new part.old part.new }
{
    let known = page.known();
    let gone = KnownPage {
        out: true,
        ..known.given_back(false)
    };
    change(page, part, &gone, true);
}

/// Notes that the page's lender is gone, and no slot of it counts any more. What the page shows stays.
pub fn detach(page: &mut WindowPage, part: &mut PartCounts)
    ensures { Becomes (detached (known_of page.old)) true page.old page.new part.old part.new }
{
    let known = page.known();
    let shown = known.over && known.belief.shows();
    let detached = KnownPage {
        belief: known.left_alone(),
        ordered: false,
        past: known.over,
        same: shown || known.same,
        ..known
    };
    change(page, part, &detached, true);
}

/// Notes that what looks have found of the page counts no more.
pub fn forget(page: &mut WindowPage, part: &mut PartCounts)
    ensures { Becomes (known_of page.old) true page.old page.new part.old part.new }
{
    let known = page.known();
    change(page, part, &known, true);
}

/// Notes whether the page was seen elsewhere or is zeros, so that it counts as one that could be shared.
pub fn see(page: &mut WindowPage, part: &mut PartCounts, is_seen: bool)
    ensures known { known_of page.new ≡ known_of page.old }
    ensures notes { notes_of page.new ≡ record (notes_of page.old) { seen = is_seen } }
    ensures counts { part.new ≡ counts_then page.old page.new part.old }
{
    let old = *page;
    page.set_seen(is_seen);
    part.follow(&old, page);
}

/// Writes what looks have found of the page. Its fingerprint has no place while it has a slot.
pub fn write_notes(page: &mut WindowPage, part: &mut PartCounts, notes: &PageNotes)
    ensures known { known_of page.new ≡ known_of page.old }
    ensures notes { notes_of page.new ≡ stored (belief_of page.old) (notes_of page.old).fingerprint notes.now }
    ensures counts { part.new ≡ counts_then page.old page.new part.old }
{
    let old = *page;
    page.put_notes(notes);
    part.follow(&old, page);
}

/// Returns whether a page over a frame has to stay where it is: it is to get its copy there, or it has one that a device may hold. Writes
/// to it wait meanwhile, and `is_copy` says whether it has memory of its own.
pub fn stays(page: &WindowPage, facts: &WindowFacts, is_copy: bool) -> bool
    ensures { result ≡ stays facts.now is_copy (known_of page.now) }
{
    page.known().homes_in_place() || (is_copy && (facts.pinned || facts.may_pin))
}
