//! What a host said of pages of which a loan was asked for.
ghost use Rattle.std.specs.Prelude.{◌≡◌, ◌&&◌, ◌||◌, ◌<◌, ◌≤◌, ◌^◌, length, nat_eq, nat_lt, slice_index_or, true, false};
ghost use Rattle.lend_steps.specs.Lists.{Each, InTurn, Turn};
ghost use Rattle.lend_steps.specs.Loans.{CameOfLoan, LoanedAt, NotLent, is_slot, loan_answer, reply_of, slot_name};
ghost use Rattle.page_holds.specs.Rows.{PageChanges};
ghost use Rattle.window_tables.specs.Tables.{Counted, has_parts};

use crate::tell::{ask_last, tell};
use page_lender::Outcome;
use window_pages::{PartCounts, WindowPage};
use window_tables::{PART, can_note};

// No frame has this number.
const NO_FRAME: u32 = 4_294_967_295;
// The halves of a slot.
const HALVES: u64 = 4_294_967_296;
// One more than the greatest upper half of a slot, and than the greatest lower one.
const TOPS: u64 = 64;

const RESTS: u64 = 67_108_864;

/// What a host said of a page.
#[derive(Clone, Copy, Debug, PartialEq, Eq)]
pub enum LoanReply {
    /// Nothing: it can't have lent it.
    Unheard,
    /// It has no frame for it.
    NoFrame,
    /// It gave a frame, but no slot, which it owes.
    NoSlot,
    /// It gave the slot of this name, with this frame.
    Given(u32, u32),
}

// Returns whether a number is a slot of a host.
fn is_slot(slot: u64) -> bool
    ensures { result ≡ is_slot slot }
{
    slot / HALVES < TOPS && slot % HALVES < RESTS
}

// Returns the name of a slot in 32 bits.
fn slot_name(slot: u64) -> u32
    requires { is_slot slot ≡ true }
    ensures { result ≡ slot_name slot }
{
    (slot / HALVES * RESTS + slot % HALVES) as u32
}

// Returns what a host said of a page, if it was heard.
fn reply_of(is_heard: bool, slot: u64, frame: u32) -> LoanReply
    ensures { result ≡ reply_of is_heard slot frame }
{
    if !is_heard {
        return LoanReply::Unheard;
    }
    if frame == NO_FRAME {
        return LoanReply::NoFrame;
    }
    let is_slot = is_slot(slot);
    if is_slot {
        LoanReply::Given(slot_name(slot), frame)
    } else {
        LoanReply::NoSlot
    }
}

// Returns the answer to a loan.
fn loan_answer(is_taken: bool, is_in_file: bool) -> u8
    ensures { result ≡ loan_answer is_taken is_in_file }
{
    let place = if is_in_file { 8 } else { 4 };
    if is_taken { 1 + place } else { place }
}

// A page got no loan.
fn not_lent(page: &mut WindowPage, part: &mut PartCounts)
    ensures { NotLent page.old page.new part.old part.new }
{
    tell(page, part, Outcome::Refused);
    ask_last(page, part);
}

// Takes what a host said of a page. Returns the answer.
fn loaned_one(page: &mut WindowPage, part: &mut PartCounts, reply: LoanReply, frames: u32) -> u8
    ensures { CameOfLoan frames result page.old page.new part.old part.new reply }
{
    match reply {
        LoanReply::Unheard => {
            tell(page, part, Outcome::Refused);
            0
        }
        LoanReply::NoFrame => {
            not_lent(page, part);
            2
        }
        LoanReply::NoSlot => {
            not_lent(page, part);
            4
        }
        LoanReply::Given(slot, frame) => {
            let is_taken = tell(page, part, Outcome::Lent(slot, frame));
            loan_answer(is_taken, frame < frames)
        }
    }
}

// The same of the page of a number, which is there.
fn loaned_there(
    pages: &mut [WindowPage],
    parts: &mut [PartCounts],
    lead: usize,
    place: usize,
    reply: LoanReply,
    frames: u32,
) -> u8
    requires parts { has_parts lead pages.old parts.old ≡ true }
    requires place { place < length pages.old }
    ensures { PageChanges (λ x y p q. CameOfLoan frames result x y p q reply) lead place pages.old pages.new parts.old parts.new }
{
    let number = (place + lead) / PART;
    let mut page = pages[place];
    let mut part = parts[number];
    let answer = loaned_one(&mut page, &mut part, reply, frames);
    pages[place] = page;
    parts[number] = part;
    answer
}

// The same of the page of a number, if there is one.
fn loaned_at(
    pages: &mut [WindowPage],
    parts: &mut [PartCounts],
    lead: usize,
    place: usize,
    reply: LoanReply,
    frames: u32,
) -> u8
    requires parts { has_parts lead pages.old parts.old ≡ true }
    ensures { Turn (λ a x y p q. CameOfLoan frames a x y p q reply) lead place result pages.old pages.new parts.old parts.new }
{
    if place >= pages.len() {
        return 0;
    }
    loaned_there(pages, parts, lead, place, reply, frames)
}

// The same of each page of a list.
fn loaned_each(
    pages: &mut [WindowPage],
    parts: &mut [PartCounts],
    lead: usize,
    numbers: &[u32],
    slots: &[u64],
    given: &[u32],
    frames: u32,
    is_heard: bool,
    answers: &mut [u8],
)
    requires parts { has_parts lead pages.old parts.old ≡ true }
    requires slots { length slots.now ≡ length numbers.now }
    requires given { length given.now ≡ length numbers.now }
    requires answers { length answers.old ≡ length numbers.now }
    ensures pages { InTurn (LoanedAt is_heard slots.now given.now frames) lead numbers.now pages.old parts.old answers.old (length numbers.now) pages.new parts.new answers.new }
    ensures counted { Counted lead pages.old parts.old → Counted lead pages.new parts.new }
{
    for n in 0..numbers.len() {
        let reply = reply_of(is_heard, slots[n], given[n]);
        let answer = loaned_at(pages, parts, lead, numbers[n] as usize, reply, frames);
        answers[n] = answer;
    }
}

/// Takes what a host, whose file has so many frames, said of a list's pages, one after another: to each the slot and the frame that it gave, or
/// 2^32 - 1 for none. If it wasn't heard (`is_heard`), it has lent none of them. Writes to `answers`, of each, a sum of: 1 it has its loan; 2 the
/// host has no frame for it; 4 the host owes a slot, or a frame of its file; 8 the frame is in its file. Returns false, and changes nothing, if
/// the table has more pages than its parts, or if the lists have different lengths.
pub fn loaned(
    pages: &mut [WindowPage],
    parts: &mut [PartCounts],
    lead: usize,
    numbers: &[u32],
    slots: &[u64],
    given: &[u32],
    frames: u32,
    is_heard: bool,
    answers: &mut [u8],
) -> bool
    ensures { Each (LoanedAt is_heard slots.now given.now frames) lead numbers.now (has_parts lead pages.old parts.old && nat_eq (length slots.now) (length numbers.now) && nat_eq (length given.now) (length numbers.now) && nat_eq (length answers.old) (length numbers.now)) result pages.old pages.new parts.old parts.new answers.old answers.new }
{
    let can = can_note(pages, parts, lead, 0, 0);
    if !can
        || slots.len() != numbers.len()
        || given.len() != numbers.len()
        || answers.len() != numbers.len()
    {
        return false;
    }
    loaned_each(
        pages, parts, lead, numbers, slots, given, frames, is_heard, answers,
    );
    true
}
