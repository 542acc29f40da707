//! What is known of a page, as bytes.
ghost use Rattle.std.specs.Prelude.{◌≡◌, ◌+◌, ◌*◌, ◌/◌, ◌%◌, ◌^◌, ◌<◌, ◌≤◌, if◌then◌else◌};
ghost use Rattle.page_lender.specs.Packing.{frame_in, slot_in};
ghost use Rattle.window_pages.specs.Bytes.{belief_byte, belief_of, bit, digit, known_of, looks_byte, nibble, notes_of};
ghost use Rattle.window_pages.specs.Known.{has_slot, kept_by, stored};

use crate::{KnownPage, PageNotes, WindowPage};
use page_lender::{Belief, belief_of, frame_of, number_of, slot_of};

// What a clue is below.
pub(crate) const CLUES: u16 = 32_768;

// Returns 1 for true.
fn digit(fact: bool) -> u8
    ensures value { result ≡ digit fact }
    ensures bound { result ≤ 1 }
{
    if fact { 1 } else { 0 }
}

// Returns one of the facts of a byte.
fn bit(facts: u8, weight: u8) -> bool
    requires { 0 < weight }
    ensures { result ≡ bit facts weight }
{
    facts / weight % 2 == 1
}

// Returns four facts as a number below 16.
fn nibble(a: bool, b: bool, c: bool, d: bool) -> u8
    ensures value { result ≡ nibble a b c d }
    ensures bound { result ≤ 15 }
{
    digit(a) + 2 * digit(b) + 4 * digit(c) + 8 * digit(d)
}

// Returns the byte of what is believed and of what lies at the page's place.
fn belief_byte(page: &KnownPage) -> u8
    ensures { result ≡ belief_byte page.now }
{
    let place = 32 * digit(page.over) + 64 * digit(page.past) + 128 * digit(page.out);
    number_of(page.belief) + place
}

// Returns the byte of the rest, where the looks and questions stay.
fn looks_byte(looks: u8, page: &KnownPage) -> u8
    ensures { result ≡ looks_byte looks page.now }
{
    looks / 16 * 16 + nibble(page.ordered, page.same, page.moved, page.begins)
}

// Returns whether the host has given a slot for a page, for all that is known.
pub(crate) fn has_slot(belief: Belief) -> bool
    ensures { result ≡ has_slot belief }
{
    belief.slot().is_some()
}

// Returns the slot of a belief, or else this number.
fn slot_or(belief: Belief, otherwise: u32) -> u32
    ensures { result ≡ if has_slot belief then slot_in belief else otherwise }
{
    first_if(has_slot(belief), slot_of(belief), otherwise)
}

// Returns the frame of a belief, 0 if it has a slot alone, or else this number.
fn frame_or(belief: Belief, otherwise: u32) -> u32
    ensures { result ≡ if has_slot belief then frame_in belief else otherwise }
{
    first_if(has_slot(belief), frame_of(belief), otherwise)
}

// Returns the first of two numbers if this is so, and else the second.
fn first_if(is_so: bool, first: u32, second: u32) -> u32
    ensures { result ≡ if is_so then first else second }
{
    if is_so { first } else { second }
}

// Returns a clue, and whether the page was seen elsewhere, as one number.
pub(crate) fn clue_word(clue: u16, seen: bool) -> u16
    ensures { result ≡ clue % 32768 + 32768 * digit seen }
{
    let low = clue % CLUES;
    if seen { low + CLUES } else { low }
}

// Returns the byte with these looks and questions, where the rest stays.
fn notes_byte(rest: u8, looks: u8, asks: u8) -> u8
    ensures { result ≡ rest % 16 + 16 * (looks % 4) + 64 * (asks % 4) }
{
    rest % 16 + 16 * (looks % 4) + 64 * (asks % 4)
}

// Returns the lower half of a fingerprint.
fn low_half(fingerprint: u64) -> u32
    ensures { result ≡ fingerprint % 2 ^ 32 }
{
    (fingerprint % (1 << 32)) as u32
}

// Returns the upper half of a fingerprint.
fn high_half(fingerprint: u64) -> u32
    ensures { result ≡ fingerprint / 2 ^ 32 }
{
    (fingerprint / (1 << 32)) as u32
}

impl WindowPage {
    // Returns what is believed of the page.
    fn believed(&self) -> Belief
        ensures { result ≡ belief_of self.now }
    {
        belief_of(self.belief % 32, self.slot, self.frame)
    }

    /// Returns what is known of the page, apart from what looks have found.
    pub fn known(&self) -> KnownPage
        ensures { result ≡ known_of self.now }
    {
        KnownPage {
            belief: self.believed(),
            ordered: bit(self.looks, 1),
            over: bit(self.belief, 32),
            past: bit(self.belief, 64),
            out: bit(self.belief, 128),
            same: bit(self.looks, 2),
            moved: bit(self.looks, 4),
            begins: bit(self.looks, 8),
        }
    }

    /// Returns what looks have found of the page.
    pub fn notes(&self) -> PageNotes
        ensures { result ≡ notes_of self.now }
    {
        PageNotes {
            fingerprint: u64::from(self.slot) + u64::from(self.frame) * (1 << 32),
            clue: self.clue % CLUES,
            looks: self.looks / 16 % 4,
            asks: self.looks / 64,
            seen: self.clue / CLUES % 2 == 1,
        }
    }

    // Writes what is known of the page. Its slot and frame take the place of a fingerprint.
    pub(crate) fn put_known(&mut self, known: &KnownPage)
        ensures known { known_of self.new ≡ known.now }
        ensures notes { notes_of self.new ≡ kept_by known.now.belief (notes_of self.old) }
    {
        *self = WindowPage {
            slot: slot_or(known.belief, self.slot),
            frame: frame_or(known.belief, self.frame),
            clue: self.clue,
            belief: belief_byte(known),
            looks: looks_byte(self.looks, known),
        };
    }

    // Writes what looks have found of the page. Its fingerprint has no place while it has a slot.
    pub(crate) fn put_notes(&mut self, notes: &PageNotes)
        ensures known { known_of self.new ≡ known_of self.old }
        ensures notes { notes_of self.new ≡ stored (belief_of self.old) (notes_of self.old).fingerprint notes.now }
    {
        let has = has_slot(self.believed());
        *self = WindowPage {
            slot: first_if(has, self.slot, low_half(notes.fingerprint)),
            frame: first_if(has, self.frame, high_half(notes.fingerprint)),
            clue: clue_word(notes.clue, notes.seen),
            belief: self.belief,
            looks: notes_byte(self.looks, notes.looks, notes.asks),
        };
    }
}
