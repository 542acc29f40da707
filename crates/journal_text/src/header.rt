//! The lines at the head of a text.
ghost use Rattle.std.specs.Prelude.{◌≡◌, ◌+◌, ◌≤◌, ◌^◌, Option, Some, Ok, Err, length, IfOk, OnOk};
ghost use Rattle.page_model.specs.Limits.{AreFrames, ArePages};
ghost use Rattle.text_words.specs.Lines.{at_line};
ghost use Rattle.journal_text.specs.Headers.{frames_of, frames_in_limits, numbers, words_in};
ghost use Rattle.journal_text.specs.Headers.{are_pages, pages_in_limits, pages_of, salts_in_limits, salts_of};
ghost use Rattle.text_words.specs.Views.{Gives};
ghost use Rattle.text_words.specs.Cursor.{left, seen};
ghost use Rattle.page_model.specs.declared.limits.TheConstants.{MAX_GUESTS};

use page_model::{MAX_FRAMES, MAX_GUESTS, MAX_PAGES};
use std::alloc::Allocator;
use text_words::line::{at_line, keyword};
use text_words::word::{Left, first_word, next_number, nothing, number, word};
use text_words::{Cause, TextFault};

fn frames_in_limits(n: u32) -> Result<u32, Cause>
    ensures value { result ≡ frames_in_limits n }
    ensures limits { IfOk result AreFrames }
{
    if n == 0 || n > MAX_FRAMES {
        Err(Cause::Frames)
    } else {
        Ok(n)
    }
}

/// Reads the total of frames.
#[tactic(auto, unfolding(crate::specs::Headers::frames_of))]
pub fn frames(line: &[u8]) -> Result<u32, Cause>
    ensures value { result ≡ frames_of line.now }
    ensures limits { IfOk result AreFrames }
{
    let (first, rest) = word(Some(line))?;
    keyword(b"frames", first)?;
    let (n, rest) = next_number(rest)?;
    nothing(rest)?;
    frames_in_limits(n)
}

/// Returns the numbers that the remaining words of line `n` spell.
fn numbers<A: Allocator>(alloc: A, n: u32, rest: Left<'_>) -> Result<Vec<u32, A>, TextFault>
    ensures { Gives (λ v. v.items) result (at_line n (numbers (words_in (left rest.entry)))) }
{
    let mut found = Vec::new(alloc);
    let mut rest = rest;
    while let Some(bytes) = rest {
        let (first, more) = first_word(bytes);
        match number(first) {
            Ok(value) => found.push(value)?,
            Err(cause) => return Err(TextFault::Line(n, cause)),
        }
        rest = more;
    }
    Ok(found)
}

/// Whether each guest has a page, and all together no more than a machine may have.
fn are_pages(pages: &[u32]) -> bool
    ensures { result ≡ are_pages pages.now }
{
    let mut left = MAX_PAGES;
    for n in pages {
        if *n == 0 {
            return false;
        }
        if *n > left {
            return false;
        }
        left -= *n;
    }
    true
}

fn pages_in_limits(pages: &[u32]) -> Result<(), Cause>
    ensures value { seen (λ _. pages.now) result ≡ pages_in_limits pages.now }
    ensures some { OnOk result (1 ≤ length pages.now) }
    ensures few { OnOk result (length pages.now ≤ MAX_GUESTS) }
    ensures limits { OnOk result (ArePages pages.now) }
{
    if pages.is_empty() {
        return Err(Cause::Form);
    }
    if pages.len() > MAX_GUESTS {
        return Err(Cause::Guests);
    }
    if !are_pages(pages) {
        return Err(Cause::Pages);
    }
    Ok(())
}

/// Reads the guests' numbers of pages, on line 3.
#[tactic(auto, unfolding(crate::specs::Headers::pages_of))]
pub fn pages<A: Allocator>(alloc: A, line: &[u8]) -> Result<Vec<u32, A>, TextFault>
    ensures value { Gives (λ v. v.items) result (at_line 3 (pages_of line.now)) }
    ensures some { IfOk result (λ v. 1 ≤ length v.items) }
    ensures few { IfOk result (λ v. length v.items ≤ MAX_GUESTS) }
    ensures limits { IfOk result (λ v. ArePages v.items) }
{
    let (first, rest) = at_line(3, word(Some(line)))?;
    at_line(3, keyword(b"pages", first))?;
    let found = numbers(alloc, 3, rest)?;
    at_line(3, pages_in_limits(&found))?;
    Ok(found)
}

fn salts_in_limits(guests: usize, salts: &[u32]) -> Result<(), Cause>
    ensures value { seen (λ _. salts.now) result ≡ salts_in_limits guests salts.now }
    ensures count { OnOk result (length salts.now ≡ guests) }
{
    if salts.is_empty() {
        return Err(Cause::Form);
    }
    if salts.len() != guests {
        return Err(Cause::Salts);
    }
    Ok(())
}

/// Reads the salts of this many guests, on line 4.
#[tactic(auto, unfolding(crate::specs::Headers::salts_of))]
pub fn salts<A: Allocator>(alloc: A, guests: usize, line: &[u8]) -> Result<Vec<u32, A>, TextFault>
    ensures value { Gives (λ v. v.items) result (at_line 4 (salts_of guests line.now)) }
    ensures count { IfOk result (λ v. length v.items ≡ guests) }
{
    let (first, rest) = at_line(4, word(Some(line)))?;
    at_line(4, keyword(b"salts", first))?;
    let found = numbers(alloc, 4, rest)?;
    at_line(4, salts_in_limits(guests, &found))?;
    Ok(found)
}
