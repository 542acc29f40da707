//! Which pages are held, so that they come to show their frames, or zeros.
ghost use Rattle.std.specs.Prelude.{◌≡◌, ◌&&◌, ◌<◌, if◌then◌else◌, length, nat_eq, not, slice_index_or, true, false};
ghost use Rattle.lend_steps.specs.Asks.{takes_none};
ghost use Rattle.lend_steps.specs.Holds.{GivesBackAt, HoldsAt, ToGiveBack, ToHold, can_hold, has_loan, has_room_for_zeros, is_begin, is_frame};
ghost use Rattle.lend_steps.specs.Lists.{AllInTurnWith, Each, EachWith, InTurn, Turn};
ghost use Rattle.lend_steps.specs.Releases.{is_hold};
ghost use Rattle.page_holds.specs.Rows.{PageChanges};
ghost use Rattle.window_pages.specs.Bytes.{known_of};
ghost use Rattle.window_tables.specs.Facts.{facts_at, only_called};
ghost use Rattle.window_tables.specs.Mappings.{is_whole};
ghost use Rattle.window_tables.specs.Tables.{Counted, has_parts};

use crate::copies::{can_choose, choose_for};
use crate::releases::is_hold;
use crate::tell::{NO_FACTS, ask_last, is_whole, tell};
use look_tasks::room::fits;
use page_lender::{Belief, Order, Outcome, Stage, Target};
use page_looks::parts::Part;
use window_pages::{PartCounts, WindowFacts, WindowPage, next};
use window_tables::rooms::zeros_more;
use window_tables::{PART, TableFacts, can_note, facts_of};

// Returns whether a target is a frame.
fn is_frame(target: Target) -> bool
    ensures { result ≡ is_frame target }
{
    match target {
        Target::Frame(_, _) => true,
        Target::Zeros => false,
    }
}

// Returns whether nothing was done yet on the way to a target.
fn is_begin(stage: Stage) -> bool
    ensures { result ≡ is_begin stage }
{
    match stage {
        Stage::Ready => true,
        Stage::Held => false,
        Stage::Equal => false,
        Stage::LettingGo => false,
    }
}

// Returns whether a page has its loan, and isn't held yet.
fn has_loan(belief: Belief) -> bool
    ensures { result ≡ has_loan belief }
{
    match belief {
        Belief::Private => false,
        Belief::Chosen => false,
        Belief::Copied => false,
        Belief::Turning(stage, target) => is_begin(stage) && is_frame(target),
        Belief::Shown(_, _, _) => false,
        Belief::Leaving(_) => false,
    }
}

// Returns whether a page may be held.
fn can_hold(page: &WindowPage) -> bool
    ensures { result ≡ can_hold page.now }
{
    let known = page.known();
    !known.ordered && has_loan(known.belief)
}

// Returns whether a page is held that was given this order.
fn holds(order: Order, is_split: bool) -> bool
    ensures { result ≡ (is_split && is_hold order) }
{
    is_split && is_hold(order)
}

// Gives a page that may be held its order, and refuses that at once if the page isn't to be held.
fn to_hold_one(
    page: &mut WindowPage,
    part: &mut PartCounts,
    facts: &WindowFacts,
    is_split: bool,
) -> u8
    ensures { ToHold facts.now is_split result page.old page.new part.old part.new }
{
    let can = can_hold(page);
    if !can {
        return 0;
    }
    let order = next(page, part, facts);
    let is_held = holds(order, is_split);
    if is_held {
        return 1;
    }
    tell(page, part, Outcome::Refused);
    0
}

// The same of the page of a number, which is there.
fn to_hold_there(
    pages: &mut [WindowPage],
    parts: &mut [PartCounts],
    lead: usize,
    place: usize,
    facts: &WindowFacts,
    is_split: bool,
) -> u8
    requires parts { has_parts lead pages.old parts.old ≡ true }
    requires place { place < length pages.old }
    ensures { PageChanges (λ x y p q. ToHold facts.now is_split result x y p q) lead place pages.old pages.new parts.old parts.new }
{
    let number = (place + lead) / PART;
    let mut page = pages[place];
    let mut part = parts[number];
    let answer = to_hold_one(&mut page, &mut part, facts, is_split);
    pages[place] = page;
    parts[number] = part;
    answer
}

// The same of the page of a number, if there is one.
fn to_hold_at(
    pages: &mut [WindowPage],
    parts: &mut [PartCounts],
    lead: usize,
    place: usize,
    facts: &WindowFacts,
    is_split: bool,
) -> u8
    requires parts { has_parts lead pages.old parts.old ≡ true }
    ensures { Turn (ToHold facts.now is_split) lead place result pages.old pages.new parts.old parts.new }
{
    if place >= pages.len() {
        return 0;
    }
    to_hold_there(pages, parts, lead, place, facts, is_split)
}

// The same of each page of a list.
fn to_hold_each(
    pages: &mut [WindowPage],
    parts: &mut [PartCounts],
    lead: usize,
    table: &TableFacts,
    pins: &[u16],
    wholes: &[Part],
    numbers: &[u32],
    answers: &mut [u8],
)
    requires parts { has_parts lead pages.old parts.old ≡ true }
    requires answers { length answers.old ≡ length numbers.now }
    ensures pages { InTurn (HoldsAt table.now pins.now lead wholes.now numbers.now) lead numbers.now pages.old parts.old answers.old (length numbers.now) pages.new parts.new answers.new }
    ensures counted { Counted lead pages.old parts.old → Counted lead pages.new parts.new }
{
    for n in 0..numbers.len() {
        let place = numbers[n] as usize;
        let facts = facts_of(table, pins, &NO_FACTS, place);
        let split = !is_whole(wholes, lead, place);
        let answer = to_hold_at(pages, parts, lead, place, &facts, split);
        answers[n] = answer;
    }
}

/// Orders those pages of a list to be held that have their loans, one after another. `wholes` has each part of the table. Writes 1 to `answers` of each
/// whose order that is from then on, else 0. One that something keeps from being lent, or whose part is whole, isn't held, and its loan isn't needed
/// any more. Returns false, and changes nothing, if the table has more pages than its parts, or if the lists have different lengths.
pub fn to_hold(
    pages: &mut [WindowPage],
    parts: &mut [PartCounts],
    lead: usize,
    table: &TableFacts,
    pins: &[u16],
    wholes: &[Part],
    numbers: &[u32],
    answers: &mut [u8],
) -> bool
    ensures { Each (HoldsAt table.now pins.now lead wholes.now numbers.now) lead numbers.now (has_parts lead pages.old parts.old && nat_eq (length answers.old) (length numbers.now)) result pages.old pages.new parts.old parts.new answers.old answers.new }
{
    let can = can_note(pages, parts, lead, 0, 0);
    if !can || answers.len() != numbers.len() {
        return false;
    }
    to_hold_each(pages, parts, lead, table, pins, wholes, numbers, answers);
    true
}

// Returns whether there is room for zeros in place of a page.
fn has_room_for_zeros(
    pages: &[WindowPage],
    wholes: &[Part],
    lead: usize,
    place: usize,
    most: u64,
    taken: u64,
) -> bool
    ensures { result ≡ has_room_for_zeros most taken lead wholes.now pages.now place }
{
    match zeros_more(pages, wholes, lead, place, 1) {
        None => false,
        Some(more) => fits(most, taken, more as u64),
    }
}

// Returns the answer to a page that was given this order.
fn hold_answer(order: Order) -> u8
    ensures { result ≡ if is_hold order then 1 else 0 }
{
    let holds = is_hold(order);
    if holds { 1 } else { 0 }
}

// Chooses a page to be given back that can be chosen, and gives its order.
fn to_give_back_one(
    page: &mut WindowPage,
    part: &mut PartCounts,
    facts: &WindowFacts,
    is_split: bool,
    has_room: bool,
) -> u8
    ensures { ToGiveBack facts.now is_split has_room result page.old page.new part.old part.new }
{
    let can = can_choose(page, facts, is_split);
    if !can {
        return 0;
    }
    if !has_room {
        ask_last(page, part);
        return 4;
    }
    let order = choose_for(page, part, facts, true);
    hold_answer(order)
}

// The same of the page of a number, which is there.
fn to_give_back_there(
    pages: &mut [WindowPage],
    parts: &mut [PartCounts],
    lead: usize,
    place: usize,
    facts: &WindowFacts,
    is_split: bool,
    has_room: bool,
) -> u8
    requires parts { has_parts lead pages.old parts.old ≡ true }
    requires place { place < length pages.old }
    ensures { PageChanges (λ x y p q. ToGiveBack facts.now is_split has_room result x y p q) lead place pages.old pages.new parts.old parts.new }
{
    let number = (place + lead) / PART;
    let mut page = pages[place];
    let mut part = parts[number];
    let answer = to_give_back_one(&mut page, &mut part, facts, is_split, has_room);
    pages[place] = page;
    parts[number] = part;
    answer
}

// The same of the page of a number, if there is one.
fn to_give_back_at(
    pages: &mut [WindowPage],
    parts: &mut [PartCounts],
    lead: usize,
    table: &TableFacts,
    pins: &[u16],
    wholes: &[Part],
    most: u64,
    taken: u64,
    number: u32,
) -> u8
    requires parts { has_parts lead pages.old parts.old ≡ true }
    ensures { Turn (ToGiveBack (facts_at table.now pins.now (only_called false) number) (not (is_whole lead wholes.now number)) (has_room_for_zeros most taken lead wholes.now pages.old number)) lead number result pages.old pages.new parts.old parts.new }
{
    let place = number as usize;
    if place >= pages.len() {
        return 0;
    }
    let facts = facts_of(table, pins, &NO_FACTS, place);
    let split = !is_whole(wholes, lead, place);
    let room = has_room_for_zeros(pages, wholes, lead, place, most, taken);
    to_give_back_there(pages, parts, lead, place, &facts, split, room)
}

// The same of each page of a list.
fn to_give_back_each(
    pages: &mut [WindowPage],
    parts: &mut [PartCounts],
    lead: usize,
    table: &TableFacts,
    pins: &[u16],
    wholes: &[Part],
    most: u64,
    taken: u64,
    numbers: &[u32],
    answers: &mut [u8],
)
    requires parts { has_parts lead pages.old parts.old ≡ true }
    requires answers { length answers.old ≡ length numbers.now }
    ensures pages { AllInTurnWith (GivesBackAt table.now pins.now most lead wholes.now numbers.now) takes_none lead numbers.now taken pages.old pages.new parts.old parts.new answers.old answers.new }
    ensures counted { Counted lead pages.old parts.old → Counted lead pages.new parts.new }
{
    for n in 0..numbers.len() {
        let answer = to_give_back_at(
            pages, parts, lead, table, pins, wholes, most, taken, numbers[n],
        );
        answers[n] = answer;
    }
}

/// Chooses those pages of a list to be given back that are free, one after another, each by itself, and orders them to be held. `wholes` has each part of
/// the table; windows have taken so many mappings of so many. Writes to `answers`, of each: 0 it is left; 1 it is to be held; 4 there is no room for zeros
/// in its place, and it is asked about as seldom as any. Returns false, and changes nothing, if the table has more pages than its parts, or if the
/// lists have different lengths.
pub fn to_give_back(
    pages: &mut [WindowPage],
    parts: &mut [PartCounts],
    lead: usize,
    table: &TableFacts,
    pins: &[u16],
    wholes: &[Part],
    most: u64,
    taken: u64,
    numbers: &[u32],
    answers: &mut [u8],
) -> bool
    ensures { EachWith (GivesBackAt table.now pins.now most lead wholes.now numbers.now) takes_none lead numbers.now taken (has_parts lead pages.old parts.old && nat_eq (length answers.old) (length numbers.now)) result pages.old pages.new parts.old parts.new answers.old answers.new }
{
    let can = can_note(pages, parts, lead, 0, 0);
    if !can || answers.len() != numbers.len() {
        return false;
    }
    to_give_back_each(
        pages, parts, lead, table, pins, wholes, most, taken, numbers, answers,
    );
    true
}
