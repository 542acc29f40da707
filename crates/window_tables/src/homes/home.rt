//! What becomes of pages that get memory of their own.
ghost use Rattle.std.specs.Prelude.{◌≡◌, ◌+◌, false, true};
ghost use Rattle.page_lender.specs.declared.order.Outcome.TheVariants as Outcome;
ghost use Rattle.window_tables.specs.Facts.{facts_at, only_called};
ghost use Rattle.window_tables.specs.Homes.{Became, Both, Changes, HasMoved, IsCalled, IsCopied, IsHome, OneMemory};
ghost use Rattle.window_tables.specs.Mappings.{kept_then, mappings_at};
ghost use Rattle.window_tables.specs.Tables.{Counted, can_note};

use crate::ask::{NO_FACTS, only_called};
use crate::homes::steps::{HomeStep, step_each};
use crate::kept::kept_then;
use crate::{Change, TableFacts, can_note, mappings_at, note};
use page_looks::parts::Part;
use window_pages::{PartCounts, WindowFacts, WindowPage};

/// Orders that each of so many pages from one on that shows its frame gets memory of its own, if these facts bar it: of its window and its process,
/// of its pins, and `why` besides. Returns false, and changes nothing, if they aren't all there, or if the table has more pages than its parts.
pub fn order(
    pages: &mut [WindowPage],
    parts: &mut [PartCounts],
    lead: usize,
    table: &TableFacts,
    pins: &[u16],
    why: &WindowFacts,
    first: usize,
    count: usize,
) -> bool
    ensures { Changes (λ n. IsCalled (facts_at table.now pins.now why.now (first + n))) lead first count result pages.old pages.new parts.old parts.new }
{
    let can = can_note(pages, parts, lead, first, count);
    if !can {
        return false;
    }
    step_each(
        pages,
        parts,
        lead,
        table,
        pins,
        why,
        first,
        count,
        HomeStep::Order,
    );
    true
}

/// Learns that so many pages from one on keep what lies at their places. Those that were to get memory of their own were refused that. Returns
/// false, and changes nothing, if they aren't all there, or if the table has more pages than its parts.
pub fn refused(
    pages: &mut [WindowPage],
    parts: &mut [PartCounts],
    lead: usize,
    first: usize,
    count: usize,
) -> bool
    ensures { Changes (λ n. IsHome Outcome.Refused) lead first count result pages.old pages.new parts.old parts.new }
{
    let can = can_note(pages, parts, lead, first, count);
    if !can {
        return false;
    }
    step_each(
        pages,
        parts,
        lead,
        &NO_FACTS,
        &[],
        &only_called(false),
        first,
        count,
        HomeStep::Take(false),
    );
    true
}

// Makes one step of each of so many pages from one on, and then another.
fn two_steps(
    pages: &mut [WindowPage],
    parts: &mut [PartCounts],
    lead: usize,
    first: usize,
    count: usize,
    one: HomeStep,
    other: HomeStep,
) -> bool
    ensures steps { Changes (λ n. Both (Became one (only_called false)) (Became other (only_called false))) lead first count result pages.old pages.new parts.old parts.new }
    ensures can { result ≡ true → can_note lead first count pages.new parts.new ≡ true }
{
    let can = can_note(pages, parts, lead, first, count);
    if !can {
        return false;
    }
    let facts = only_called(false);
    step_each(
        pages,
        parts,
        lead,
        &NO_FACTS,
        &[],
        &facts,
        first,
        count,
        one,
    );
    step_each(
        pages,
        parts,
        lead,
        &NO_FACTS,
        &[],
        &facts,
        first,
        count,
        other,
    );
    true
}

/// Learns that other memory was moved to the places of so many pages from one on. What looks have found of them counts no more. Returns false, and
/// changes nothing, if they aren't all there, or if the table has more pages than its parts.
pub fn moved(
    pages: &mut [WindowPage],
    parts: &mut [PartCounts],
    lead: usize,
    first: usize,
    count: usize,
) -> bool
    ensures { Changes (λ n. HasMoved) lead first count result pages.old pages.new parts.old parts.new }
{
    two_steps(
        pages,
        parts,
        lead,
        first,
        count,
        HomeStep::Take(true),
        HomeStep::Forget,
    )
}

/// Learns that so many pages from one on got a copy of their own where they are. They show no frame of a lender that is gone. Returns false, and
/// changes nothing, if they aren't all there, or if the table has more pages than its parts.
pub fn copied(
    pages: &mut [WindowPage],
    parts: &mut [PartCounts],
    lead: usize,
    first: usize,
    count: usize,
) -> bool
    ensures { Changes (λ n. IsCopied) lead first count result pages.old pages.new parts.old parts.new }
{
    two_steps(
        pages,
        parts,
        lead,
        first,
        count,
        HomeStep::Take(true),
        HomeStep::EndPast,
    )
}

/// Learns that memory with what so many pages from one on contained was moved to their places at once. What looks have found of those over frames
/// counts no more, and all have memory of their own. `mappings` changes by what begins at them then, or at the page behind them, less what began
/// there. Returns false, and changes nothing, if they aren't all there, or if the table has more pages than its parts.
pub fn one_memory(
    pages: &mut [WindowPage],
    parts: &mut [PartCounts],
    lead: usize,
    wholes: &[Part],
    first: usize,
    count: usize,
    mappings: &mut usize,
) -> bool
    ensures done { result ≡ can_note lead first count pages.old parts.old }
    ensures pages { result ≡ true → OneMemory first count pages.old pages.new }
    ensures counted { Counted lead pages.old parts.old → Counted lead pages.new parts.new }
    ensures mappings { result ≡ true → mappings.new ≡ kept_then mappings.old (mappings_at lead wholes.now pages.old first count) (mappings_at lead wholes.now pages.new first count) }
    ensures same { result ≡ false → pages.new ≡ pages.old }
    ensures same_parts { result ≡ false → parts.new ≡ parts.old }
    ensures same_mappings { result ≡ false → mappings.new ≡ mappings.old }
{
    let before = mappings_at(pages, wholes, lead, first, count);
    let are_heard = two_steps(
        pages,
        parts,
        lead,
        first,
        count,
        HomeStep::ForgetOver,
        HomeStep::Hear,
    );
    if !are_heard {
        return false;
    }
    note(pages, parts, lead, first, count, Change::Uncovered(true));
    let after = mappings_at(pages, wholes, lead, first, count);
    *mappings = kept_then(*mappings, before, after);
    true
}
