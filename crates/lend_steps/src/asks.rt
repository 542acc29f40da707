//! About which pages a host is asked, and what its answers mean.
ghost use Rattle.std.specs.Prelude.{◌≡◌, ◌&&◌, ◌||◌, ◌+◌, ◌<◌, ◌≤◌, ◌^◌, if◌then◌else◌, length, nat_eq, nat_lt, not, slice_get, slice_index_or, true, false};
ghost use Rattle.lend_steps.specs.Asks.{Answered, AnsweredAt, AsksAt, InVain, Sees, ToAsk, has_room, is_passing, sees, takes_if_found, takes_none};
ghost use Rattle.lend_steps.specs.Lists.{AllInTurnWith, EachWith, Turn};
ghost use Rattle.look_tasks.specs.Rooms.{fits};
ghost use Rattle.page_holds.specs.Rows.{PageChanges};
ghost use Rattle.page_looks.specs.Idle.{asked};
ghost use Rattle.page_looks.specs.Notes.{Notes, looks_of};
ghost use Rattle.window_pages.specs.Bytes.{known_of, notes_of};
ghost use Rattle.window_tables.specs.Facts.{facts_at, only_called};
ghost use Rattle.window_tables.specs.Mappings.{is_whole, mappings_more};
ghost use Rattle.window_tables.specs.Tables.{Counted, has_parts};

use crate::tell::{NO_FACTS, ask_last, is_whole, part_at};
use look_tasks::room::fits;
use page_looks::finds::{looks_of, write_looks};
use page_looks::idle::LookConfig;
use page_looks::parts::Part;
use window_pages::{PartCounts, WindowFacts, WindowPage, is_free, see};
use window_tables::{PART, TableFacts, can_note, facts_of, mappings_more};

// Returns whether the question about a page isn't noted, so that others don't find it.
fn is_passing(
    config: &LookConfig,
    look: u32,
    lead: usize,
    wholes: &[Part],
    number: u32,
    page: &WindowPage,
) -> bool
    ensures { result ≡ is_passing config.now look lead wholes.now number page.now }
{
    let part = part_at(lead, number as usize);
    part < wholes.len() && looks_of(page).is_asked_in_passing(config, &wholes[part], look, number)
}

// Returns whether there is room for the mappings that a page may take.
fn has_room(
    pages: &[WindowPage],
    wholes: &[Part],
    lead: usize,
    place: usize,
    most: u64,
    taken: u64,
) -> bool
    ensures room { result ≡ has_room most taken lead wholes.now pages.now place }
    ensures sum { result ≡ true → taken + mappings_more lead wholes.now pages.now place 1 < 2 ^ 64 }
{
    fits(
        most,
        taken,
        mappings_more(pages, wholes, lead, place, 1) as u64,
    )
}

// Returns whether the system has mappings for a page, if it needs any: nothing is mapped in place of a page of a whole part.
fn may_map(
    pages: &[WindowPage],
    wholes: &[Part],
    lead: usize,
    place: usize,
    most: u64,
    taken: u64,
) -> bool
    ensures { result ≡ (is_whole lead wholes.now place || has_room most taken lead wholes.now pages.now place) }
{
    is_whole(wholes, lead, place) || has_room(pages, wholes, lead, place, most, taken)
}

// Finds whether a page may be asked about. Returns the answer.
fn to_ask_one(
    page: &mut WindowPage,
    part: &mut PartCounts,
    facts: &WindowFacts,
    has_room: bool,
    config: &LookConfig,
    look: u32,
    lead: usize,
    wholes: &[Part],
    number: u32,
) -> u8
    ensures { ToAsk facts.now has_room (is_passing config.now look lead wholes.now number page.old) result page.old page.new part.old part.new }
{
    let free = is_free(page, facts);
    if !free {
        return 0;
    }
    if !has_room {
        ask_last(page, part);
        return 4;
    }
    let passing = is_passing(config, look, lead, wholes, number, page);
    if passing { 3 } else { 1 }
}

// The same of the page of a number, which is there.
fn to_ask_there(
    pages: &mut [WindowPage],
    parts: &mut [PartCounts],
    lead: usize,
    facts: &WindowFacts,
    has_room: bool,
    config: &LookConfig,
    look: u32,
    wholes: &[Part],
    number: u32,
) -> u8
    requires parts { has_parts lead pages.old parts.old ≡ true }
    requires place { number < length pages.old }
    ensures { PageChanges (λ x y p q. ToAsk facts.now has_room (is_passing config.now look lead wholes.now number x) result x y p q) lead number pages.old pages.new parts.old parts.new }
{
    let place = number as usize;
    let part_number = (place + lead) / PART;
    let mut page = pages[place];
    let mut part = parts[part_number];
    let answer = to_ask_one(
        &mut page, &mut part, facts, has_room, config, look, lead, wholes, number,
    );
    pages[place] = page;
    parts[part_number] = part;
    answer
}

// The same of the page of a number, if there is one.
fn to_ask_at(
    pages: &mut [WindowPage],
    parts: &mut [PartCounts],
    lead: usize,
    table: &TableFacts,
    pins: &[u16],
    config: &LookConfig,
    look: u32,
    wholes: &[Part],
    most: u64,
    taken: u64,
    number: u32,
) -> u8
    requires parts { has_parts lead pages.old parts.old ≡ true }
    ensures { Turn (λ a x y p q. ToAsk (facts_at table.now pins.now (only_called false) number) (is_whole lead wholes.now number || has_room most taken lead wholes.now pages.old number) (is_passing config.now look lead wholes.now number x) a x y p q) lead number result pages.old pages.new parts.old parts.new }
{
    let place = number as usize;
    if place >= pages.len() {
        return 0;
    }
    let facts = facts_of(table, pins, &NO_FACTS, place);
    let room = may_map(pages, wholes, lead, place, most, taken);
    to_ask_there(
        pages, parts, lead, &facts, room, config, look, wholes, number,
    )
}

// The same of each page of a list.
fn to_ask_each(
    pages: &mut [WindowPage],
    parts: &mut [PartCounts],
    lead: usize,
    table: &TableFacts,
    pins: &[u16],
    config: &LookConfig,
    look: u32,
    wholes: &[Part],
    most: u64,
    taken: u64,
    numbers: &[u32],
    answers: &mut [u8],
)
    requires parts { has_parts lead pages.old parts.old ≡ true }
    requires answers { length answers.old ≡ length numbers.now }
    ensures pages { AllInTurnWith (AsksAt table.now pins.now config.now look most lead wholes.now numbers.now) takes_none lead numbers.now taken pages.old pages.new parts.old parts.new answers.old answers.new }
    ensures counted { Counted lead pages.old parts.old → Counted lead pages.new parts.new }
{
    for n in 0..numbers.len() {
        let answer = to_ask_at(
            pages, parts, lead, table, pins, config, look, wholes, most, taken, numbers[n],
        );
        answers[n] = answer;
    }
}

/// Finds about which pages of a list a host may be asked, each by itself: those that are free, and for which the system has mappings, where windows
/// have taken so many of so many. `wholes` has each part of the table. Writes to `answers`, of each: 0 it isn't free; 1 it may be asked about; 3 the
/// same, and others mustn't find it by the question; 4 there is no room for it, and it is asked about as seldom as any. Returns false, and changes
/// nothing, if the table has more pages than its parts, or if the lists have different lengths.
pub fn to_ask(
    pages: &mut [WindowPage],
    parts: &mut [PartCounts],
    lead: usize,
    table: &TableFacts,
    pins: &[u16],
    config: &LookConfig,
    look: u32,
    wholes: &[Part],
    most: u64,
    taken: u64,
    numbers: &[u32],
    answers: &mut [u8],
) -> bool
    ensures { EachWith (AsksAt table.now pins.now config.now look most lead wholes.now numbers.now) takes_none lead numbers.now taken (has_parts lead pages.old parts.old && nat_eq (length answers.old) (length numbers.now)) result pages.old pages.new parts.old parts.new answers.old answers.new }
{
    let can = can_note(pages, parts, lead, 0, 0);
    if !can || answers.len() != numbers.len() {
        return false;
    }
    to_ask_each(
        pages, parts, lead, table, pins, config, look, wholes, most, taken, numbers, answers,
    );
    true
}

// Takes that a page was asked about in vain.
fn ask_seldom(page: &mut WindowPage, part: &mut PartCounts)
    ensures { Notes (asked (looks_of page.old)) (notes_of page.old).seen page.old page.new part.old part.new }
{
    let mut looks = looks_of(page);
    looks.asked();
    let seen = page.notes().seen;
    write_looks(page, part, &looks, seen);
}

// Returns whether it is new of a page that it was seen or not.
fn sees(page: &WindowPage, is_whole: bool, is_other: bool, fingerprint: u64) -> bool
    ensures { result ≡ sees is_whole is_other fingerprint page.now }
{
    let looks = looks_of(page);
    let seen = page.notes().seen;
    is_whole && looks.is_idle() && looks.fingerprint == fingerprint && seen != is_other
}

// Takes that a page was asked about in vain, and whether it was seen.
fn in_vain(
    page: &mut WindowPage,
    part: &mut PartCounts,
    is_whole: bool,
    is_other: bool,
    fingerprint: u64,
)
    ensures { InVain is_whole is_other fingerprint page.old page.new part.old part.new }
{
    ask_seldom(page, part);
    let sees = sees(page, is_whole, is_other, fingerprint);
    if sees {
        see(page, part, is_other);
    }
}

// Takes a host's answer to the question about a page. Returns the answer of this.
fn answered_one(
    page: &mut WindowPage,
    part: &mut PartCounts,
    is_whole: bool,
    is_other: bool,
    has_room: bool,
    fingerprint: u64,
) -> u8
    ensures answer { Answered is_whole is_other has_room fingerprint result page.old page.new part.old part.new }
    ensures room { result ≡ 1 → has_room ≡ true }
{
    let may_lend = is_other && !is_whole;
    if !may_lend {
        in_vain(page, part, is_whole, is_other, fingerprint);
        return 0;
    }
    if !has_room {
        ask_last(page, part);
        return 4;
    }
    1
}

// The same of the page at a place.
fn answered_there(
    pages: &mut [WindowPage],
    parts: &mut [PartCounts],
    lead: usize,
    place: usize,
    is_whole: bool,
    is_other: bool,
    has_room: bool,
    fingerprint: u64,
) -> u8
    requires parts { has_parts lead pages.old parts.old ≡ true }
    requires place { place < length pages.old }
    ensures answer { PageChanges (λ x y p q. Answered is_whole is_other has_room fingerprint result x y p q) lead place pages.old pages.new parts.old parts.new }
    ensures room { result ≡ 1 → has_room ≡ true }
{
    let number = (place + lead) / PART;
    let mut page = pages[place];
    let mut part = parts[number];
    let answer = answered_one(
        &mut page,
        &mut part,
        is_whole,
        is_other,
        has_room,
        fingerprint,
    );
    pages[place] = page;
    parts[number] = part;
    answer
}

// The same of the page of a number, if there is one.
fn answered_at(
    pages: &mut [WindowPage],
    parts: &mut [PartCounts],
    lead: usize,
    wholes: &[Part],
    most: u64,
    taken: u64,
    place: usize,
    is_other: bool,
    fingerprint: u64,
) -> u8
    requires parts { has_parts lead pages.old parts.old ≡ true }
    ensures answer { Turn (Answered (is_whole lead wholes.now place) is_other (has_room most taken lead wholes.now pages.old place) fingerprint) lead place result pages.old pages.new parts.old parts.new }
    ensures sum { result ≡ 1 → taken + mappings_more lead wholes.now pages.old place 1 < 2 ^ 64 }
{
    if place >= pages.len() {
        return 0;
    }
    let whole = is_whole(wholes, lead, place);
    let room = has_room(pages, wholes, lead, place, most, taken);
    answered_there(
        pages,
        parts,
        lead,
        place,
        whole,
        is_other,
        room,
        fingerprint,
    )
}

// Returns how much is taken once this was answered to a page that takes so much.
fn taken_then(answer: u8, taken: u64, more: usize) -> u64
    requires { answer ≡ 1 → taken + more < 2 ^ 64 }
    ensures { result ≡ taken + (if nat_eq answer 1 then more else 0) }
{
    if answer == 1 {
        taken + more as u64
    } else {
        taken
    }
}

// The same of each page of a list.
fn answered_each(
    pages: &mut [WindowPage],
    parts: &mut [PartCounts],
    lead: usize,
    wholes: &[Part],
    most: u64,
    taken: u64,
    numbers: &[u32],
    fingerprints: &[u64],
    seen: &[u8],
    answers: &mut [u8],
)
    requires parts { has_parts lead pages.old parts.old ≡ true }
    requires fingerprints { length fingerprints.now ≡ length numbers.now }
    requires seen { length seen.now ≡ length numbers.now }
    requires answers { length answers.old ≡ length numbers.now }
    ensures pages { AllInTurnWith (AnsweredAt most lead wholes.now numbers.now fingerprints.now seen.now) (takes_if_found lead wholes.now numbers.now) lead numbers.now taken pages.old pages.new parts.old parts.new answers.old answers.new }
    ensures counted { Counted lead pages.old parts.old → Counted lead pages.new parts.new }
{
    let mut has = taken;
    for n in 0..numbers.len() {
        let place = numbers[n] as usize;
        let more = mappings_more(pages, wholes, lead, place, 1);
        let answer = answered_at(
            pages,
            parts,
            lead,
            wholes,
            most,
            has,
            place,
            seen[n] > 0,
            fingerprints[n],
        );
        answers[n] = answer;
        has = taken_then(answer, has, more);
    }
}

/// Takes a host's answers to the questions about a list's pages, one after another: whether somebody else has each (`seen`), which has this
/// fingerprint. `wholes` has each part of the table; windows have taken so many mappings of so many. Writes to `answers`, of each: 1 it may be lent,
/// and its mappings are taken; 4 it could be, but there is no room for it, and it is asked about as seldom as any; else 0. Returns false, and changes
/// nothing, if the table has more pages than its parts, or if the lists have different lengths.
pub fn answered(
    pages: &mut [WindowPage],
    parts: &mut [PartCounts],
    lead: usize,
    wholes: &[Part],
    most: u64,
    taken: u64,
    numbers: &[u32],
    fingerprints: &[u64],
    seen: &[u8],
    answers: &mut [u8],
) -> bool
    ensures { EachWith (AnsweredAt most lead wholes.now numbers.now fingerprints.now seen.now) (takes_if_found lead wholes.now numbers.now) lead numbers.now taken (has_parts lead pages.old parts.old && nat_eq (length fingerprints.now) (length numbers.now) && nat_eq (length seen.now) (length numbers.now) && nat_eq (length answers.old) (length numbers.now)) result pages.old pages.new parts.old parts.new answers.old answers.new }
{
    let can = can_note(pages, parts, lead, 0, 0);
    if !can
        || fingerprints.len() != numbers.len()
        || seen.len() != numbers.len()
        || answers.len() != numbers.len()
    {
        return false;
    }
    answered_each(
        pages,
        parts,
        lead,
        wholes,
        most,
        taken,
        numbers,
        fingerprints,
        seen,
        answers,
    );
    true
}
