//! Which pages are copied to the lender's buffer, and of which a loan is asked for then.
ghost use Rattle.std.specs.Prelude.{◌≡◌, ◌&&◌, ◌<◌, ◌≤◌, length, nat_eq, nat_lt, slice_index_or, true, false};
ghost use Rattle.lend_steps.specs.Copies.{CameOfCopy, ChangedThen, ChosenFor, CopiedAt, CopiedThen, CopiesAt, ToCopy, can_choose, check_number, check_of, copied_by, copy_answer, is_ready, lend_answer};
ghost use Rattle.lend_steps.specs.Lists.{Each, InTurn, Turn};
ghost use Rattle.page_holds.specs.Rows.{PageChanges};
ghost use Rattle.window_pages.specs.Known.{chosen_as};
ghost use Rattle.window_tables.specs.Tables.{Counted, has_parts};

use crate::tell::{NO_FACTS, is_whole, tell};
use page_lender::{Order, Outcome};
use page_looks::finds::looks_of;
use page_looks::parts::Part;
use window_pages::{PartCounts, WindowFacts, WindowPage, choose, forget, is_free, next};
use window_tables::{PART, TableFacts, can_note, facts_of};

/// How it is seen that a copy is of the page that a look found.
#[derive(Clone, Copy, Debug, PartialEq, Eq)]
pub enum Check {
    /// The copy has the fingerprint that was found.
    Fingerprint,
    /// A glance at the copy finds the page's clue.
    Glance,
    /// The page is another one already.
    Never,
}

/// What came of the copy of a page.
#[derive(Clone, Copy, Debug, PartialEq, Eq)]
pub enum CopyOutcome {
    /// It wasn't to be copied.
    Nothing,
    /// The copy is of the page that was found.
    Good,
    /// It isn't: the page was written since.
    Changed,
    /// The copy is zeros.
    Zeros,
}

impl Check {
    // Returns the number of a check.
    fn number(self) -> u8
        ensures { result ≡ check_number self }
    {
        match self {
            Check::Fingerprint => 1,
            Check::Glance => 2,
            Check::Never => 3,
        }
    }
}

// Returns what came of a copy, by its number.
fn copied_by(number: u8) -> CopyOutcome
    ensures { result ≡ copied_by number }
{
    match number {
        1 => CopyOutcome::Good,
        2 => CopyOutcome::Changed,
        3 => CopyOutcome::Zeros,
        _ => CopyOutcome::Nothing,
    }
}

// Returns whether a page can be chosen.
pub(crate) fn can_choose(page: &WindowPage, facts: &WindowFacts, is_ready: bool) -> bool
    ensures { result ≡ can_choose facts.now is_ready page.now }
{
    is_ready && !page.known().ordered && is_free(page, facts)
}

// Returns how it is seen that a copy of a page is of that which had this fingerprint.
fn check_of(page: &WindowPage, fingerprint: u64) -> Check
    ensures { result ≡ check_of fingerprint page.now }
{
    let looks = looks_of(page);
    if page.known().over || looks.is_again() {
        Check::Fingerprint
    } else if looks.fingerprint == fingerprint {
        Check::Glance
    } else {
        Check::Never
    }
}

// Returns the answer to a page that was given this order.
fn copy_answer(order: Order, check: Check) -> u8
    ensures { result ≡ copy_answer order check }
{
    match order {
        Order::Wait => 0,
        Order::Copy => check.number(),
        Order::Lend => 0,
        Order::Hold(_) => 0,
        Order::Compare(_) => 0,
        Order::Map(_) => 0,
        Order::LetGo(_) => 0,
        Order::TakeHome(_) => 0,
        Order::Release(_) => 0,
    }
}

// Returns whether a loan is to be asked for.
fn lend_answer(order: Order) -> u8
    ensures { result ≡ lend_answer order }
{
    match order {
        Order::Wait => 0,
        Order::Copy => 0,
        Order::Lend => 1,
        Order::Hold(_) => 0,
        Order::Compare(_) => 0,
        Order::Map(_) => 0,
        Order::LetGo(_) => 0,
        Order::TakeHome(_) => 0,
        Order::Release(_) => 0,
    }
}

// Chooses a page to be lent, or to be given back if it is zeros, and gives its order.
pub(crate) fn choose_for(
    page: &mut WindowPage,
    part: &mut PartCounts,
    facts: &WindowFacts,
    is_zeros: bool,
) -> Order
    ensures { ChosenFor (chosen_as is_zeros) facts.now result page.old page.new part.old part.new }
{
    choose(page, part, facts, is_zeros);
    next(page, part, facts)
}

// Chooses a page to be lent that can be chosen, and gives its order.
fn to_copy_one(
    page: &mut WindowPage,
    part: &mut PartCounts,
    facts: &WindowFacts,
    is_ready: bool,
    fingerprint: u64,
) -> u8
    ensures { ToCopy facts.now is_ready fingerprint result page.old page.new part.old part.new }
{
    let can = can_choose(page, facts, is_ready);
    if !can {
        return 0;
    }
    let check = check_of(page, fingerprint);
    let order = choose_for(page, part, facts, false);
    copy_answer(order, check)
}

// The same of the page of a number, which is there.
fn to_copy_there(
    pages: &mut [WindowPage],
    parts: &mut [PartCounts],
    lead: usize,
    place: usize,
    facts: &WindowFacts,
    is_ready: bool,
    fingerprint: u64,
) -> u8
    requires parts { has_parts lead pages.old parts.old ≡ true }
    requires place { place < length pages.old }
    ensures { PageChanges (λ x y p q. ToCopy facts.now is_ready fingerprint result x y p q) lead place pages.old pages.new parts.old parts.new }
{
    let number = (place + lead) / PART;
    let mut page = pages[place];
    let mut part = parts[number];
    let answer = to_copy_one(&mut page, &mut part, facts, is_ready, fingerprint);
    pages[place] = page;
    parts[number] = part;
    answer
}

// The same of the page of a number, if there is one.
fn to_copy_at(
    pages: &mut [WindowPage],
    parts: &mut [PartCounts],
    lead: usize,
    place: usize,
    facts: &WindowFacts,
    is_ready: bool,
    fingerprint: u64,
) -> u8
    requires parts { has_parts lead pages.old parts.old ≡ true }
    ensures { Turn (ToCopy facts.now is_ready fingerprint) lead place result pages.old pages.new parts.old parts.new }
{
    if place >= pages.len() {
        return 0;
    }
    to_copy_there(pages, parts, lead, place, facts, is_ready, fingerprint)
}

// Returns whether a page that is there, or isn't, can be copied as far as its part goes.
fn is_ready(parts: &[Part], lead: usize, place: usize, there: u8) -> bool
    ensures { result ≡ is_ready lead parts.now place there }
{
    there > 0 && !is_whole(parts, lead, place)
}

// The same of each page of a list.
fn to_copy_each(
    pages: &mut [WindowPage],
    parts: &mut [PartCounts],
    lead: usize,
    table: &TableFacts,
    pins: &[u16],
    wholes: &[Part],
    numbers: &[u32],
    there: &[u8],
    fingerprints: &[u64],
    answers: &mut [u8],
)
    requires parts { has_parts lead pages.old parts.old ≡ true }
    requires there { length there.now ≡ length numbers.now }
    requires fingerprints { length fingerprints.now ≡ length numbers.now }
    requires answers { length answers.old ≡ length numbers.now }
    ensures pages { InTurn (CopiesAt table.now pins.now lead wholes.now numbers.now there.now fingerprints.now) lead numbers.now pages.old parts.old answers.old (length numbers.now) pages.new parts.new answers.new }
    ensures counted { Counted lead pages.old parts.old → Counted lead pages.new parts.new }
{
    for n in 0..numbers.len() {
        let place = numbers[n] as usize;
        let facts = facts_of(table, pins, &NO_FACTS, place);
        let ready = is_ready(wholes, lead, place, there[n]);
        let answer = to_copy_at(pages, parts, lead, place, &facts, ready, fingerprints[n]);
        answers[n] = answer;
    }
}

/// Chooses the pages of a list that are to be copied, one after another, each with the fingerprint that a look found. `wholes` has each part of the
/// table, and `there` 1 for a page that is there, else 0. Writes to `answers`, of each: 0 it is left; 1 it is copied, and has that fingerprint if it is the page that
/// was found; 2 it is copied, and then a glance finds its clue; 3 it isn't the page that was found. Of 1 to 3 its order is open. Returns false, and
/// changes nothing, if the table has more pages than its parts, or if the lists have different lengths.
pub fn to_copy(
    pages: &mut [WindowPage],
    parts: &mut [PartCounts],
    lead: usize,
    table: &TableFacts,
    pins: &[u16],
    wholes: &[Part],
    numbers: &[u32],
    there: &[u8],
    fingerprints: &[u64],
    answers: &mut [u8],
) -> bool
    ensures { Each (CopiesAt table.now pins.now lead wholes.now numbers.now there.now fingerprints.now) lead numbers.now (has_parts lead pages.old parts.old && nat_eq (length there.now) (length numbers.now) && nat_eq (length fingerprints.now) (length numbers.now) && nat_eq (length answers.old) (length numbers.now)) result pages.old pages.new parts.old parts.new answers.old answers.new }
{
    let can = can_note(pages, parts, lead, 0, 0);
    if !can
        || there.len() != numbers.len()
        || fingerprints.len() != numbers.len()
        || answers.len() != numbers.len()
    {
        return false;
    }
    to_copy_each(
        pages,
        parts,
        lead,
        table,
        pins,
        wholes,
        numbers,
        there,
        fingerprints,
        answers,
    );
    true
}

// A page was copied. Gives its next order.
fn copied_then(page: &mut WindowPage, part: &mut PartCounts, facts: &WindowFacts) -> Order
    ensures { CopiedThen facts.now result page.old page.new part.old part.new }
{
    tell(page, part, Outcome::Done);
    next(page, part, facts)
}

// A page wasn't copied, since it was written.
fn changed_then(page: &mut WindowPage, part: &mut PartCounts)
    ensures { ChangedThen page.old page.new part.old part.new }
{
    tell(page, part, Outcome::Refused);
    forget(page, part);
}

// Takes what came of the copy of a page. Returns 1 if a loan is to be asked for, else 0.
fn copied_one(
    page: &mut WindowPage,
    part: &mut PartCounts,
    facts: &WindowFacts,
    came: CopyOutcome,
) -> u8
    ensures { CameOfCopy facts.now result page.old page.new part.old part.new came }
{
    match came {
        CopyOutcome::Nothing => 0,
        CopyOutcome::Good => lend_answer(copied_then(page, part, facts)),
        CopyOutcome::Changed => {
            changed_then(page, part);
            0
        }
        CopyOutcome::Zeros => {
            tell(page, part, Outcome::Refused);
            0
        }
    }
}

// The same of the page of a number, which is there.
fn copied_there(
    pages: &mut [WindowPage],
    parts: &mut [PartCounts],
    lead: usize,
    place: usize,
    facts: &WindowFacts,
    came: CopyOutcome,
) -> u8
    requires parts { has_parts lead pages.old parts.old ≡ true }
    requires place { place < length pages.old }
    ensures { PageChanges (λ x y p q. CameOfCopy facts.now result x y p q came) lead place pages.old pages.new parts.old parts.new }
{
    let number = (place + lead) / PART;
    let mut page = pages[place];
    let mut part = parts[number];
    let answer = copied_one(&mut page, &mut part, facts, came);
    pages[place] = page;
    parts[number] = part;
    answer
}

// The same of the page of a number, if there is one.
fn copied_at(
    pages: &mut [WindowPage],
    parts: &mut [PartCounts],
    lead: usize,
    place: usize,
    facts: &WindowFacts,
    came: CopyOutcome,
) -> u8
    requires parts { has_parts lead pages.old parts.old ≡ true }
    ensures { Turn (λ a x y p q. CameOfCopy facts.now a x y p q came) lead place result pages.old pages.new parts.old parts.new }
{
    if place >= pages.len() {
        return 0;
    }
    copied_there(pages, parts, lead, place, facts, came)
}

// The same of each page of a list.
fn copied_each(
    pages: &mut [WindowPage],
    parts: &mut [PartCounts],
    lead: usize,
    table: &TableFacts,
    pins: &[u16],
    numbers: &[u32],
    outcomes: &[u8],
    answers: &mut [u8],
)
    requires parts { has_parts lead pages.old parts.old ≡ true }
    requires outcomes { length outcomes.now ≡ length numbers.now }
    requires answers { length answers.old ≡ length numbers.now }
    ensures pages { InTurn (CopiedAt table.now pins.now numbers.now outcomes.now) lead numbers.now pages.old parts.old answers.old (length numbers.now) pages.new parts.new answers.new }
    ensures counted { Counted lead pages.old parts.old → Counted lead pages.new parts.new }
{
    for n in 0..numbers.len() {
        let place = numbers[n] as usize;
        let facts = facts_of(table, pins, &NO_FACTS, place);
        let answer = copied_at(pages, parts, lead, place, &facts, copied_by(outcomes[n]));
        answers[n] = answer;
    }
}

/// Takes what came of the copies of a list's pages, one after another: 0 it wasn't to be copied; 1 the copy is of the page that was found; 2 it isn't;
/// 3 it is zeros. Of a page that was to be held 2 says that it isn't what it is to show. Writes 1 to `answers` of each of which a loan is to be asked for, else 0. Returns false, and changes nothing, if the table has more
/// pages than its parts, or if the lists have different lengths.
pub fn copied(
    pages: &mut [WindowPage],
    parts: &mut [PartCounts],
    lead: usize,
    table: &TableFacts,
    pins: &[u16],
    numbers: &[u32],
    outcomes: &[u8],
    answers: &mut [u8],
) -> bool
    ensures { Each (CopiedAt table.now pins.now numbers.now outcomes.now) lead numbers.now (has_parts lead pages.old parts.old && nat_eq (length outcomes.now) (length numbers.now) && nat_eq (length answers.old) (length numbers.now)) result pages.old pages.new parts.old parts.new answers.old answers.new }
{
    let can = can_note(pages, parts, lead, 0, 0);
    if !can || outcomes.len() != numbers.len() || answers.len() != numbers.len() {
        return false;
    }
    copied_each(pages, parts, lead, table, pins, numbers, outcomes, answers);
    true
}
