//! The reader of journals.
ghost use Rattle.std.specs.Prelude.{◌≡◌, ◌+◌, ◌*◌, ◌<◌, ◌≤◌, ◌^◌, ◌++◌, ℕ, List, [], Option};
ghost use Rattle.std.specs.Prelude.{Some, None, Ok, Err, false, length, replicate, IfOk, IfErr, OnOk, IsTrue};
ghost use Rattle.text_words.specs.declared.fault.TextFault.TheVariants.{OutOfMemory};
ghost use Rattle.text_words.specs.Words.{with_front};
ghost use Rattle.journal_text.specs.Texts.{journal_in, journal_of, closed_after, ended};
ghost use Rattle.journal_text.specs.Texts.{nothing_more, line_behind_head, entries_in, AreBelow};
ghost use Rattle.text_words.specs.Views.{Gives};
ghost use Rattle.journal_text.specs.Views.{journal_seen};
ghost use Rattle.page_model.specs.declared.limits.TheConstants.{MAX_GUESTS, MAX_TEXT_BYTES, MAX_ENTRIES};

use crate::head::Head;
use crate::head_reader::{line_behind_head, read_head};
use crate::journal::Journal;
use crate::request::{Line, check_end, read_line};
use crate::room::count_lines;
use crate::version::Version;
use page_model::{Entry, MAX_GUESTS, MAX_TEXT_BYTES};
use std::alloc::Allocator;
use text_words::TextFault;
use text_words::word::cut;

/// Notes which guest has closed.
fn note(closed: &mut [bool], entry: &Entry)
    requires { entry.now.guest < length closed.old }
    ensures { closed.new ≡ closed_after closed.old entry.now }
{
    if entry.request.is_close() {
        closed[entry.guest as usize] = true;
    }
}

/// Returns the entries that were found before an end line, if that line is right.
fn ended<A: Allocator>(
    n: u32,
    found: Vec<Entry, A>,
    count: u32,
    is_last: bool,
) -> Result<Vec<Entry, A>, TextFault>
    requires { n < 2 ^ 31 }
    ensures value { Gives (λ v. v.items) result (with_front found.items (nothing_more (ended n (length found.items) is_last count))) }
    ensures same { IfOk result (λ v. v.items ≡ found.items) }
{
    check_end(n, found.len(), count, is_last)?;
    Ok(found)
}

/// Reads the entries of the lines from number `first` on.
fn entries<A: Allocator>(
    alloc: A,
    first: u32,
    closed: &mut [bool],
    text: &[u8],
) -> Result<Vec<Entry, A>, TextFault>
    requires first { first ≤ 5 }
    requires guests { length closed.old ≤ MAX_GUESTS }
    requires short { length text.now ≤ MAX_TEXT_BYTES }
    ensures value { Gives (λ v. v.items) result (entries_in closed.old first 0 text.now) }
    ensures guests { IfOk result (λ v. AreBelow (length closed.old) v.items) }
    ensures few { IfOk result (λ v. length v.items < MAX_ENTRIES) }
{
    let mut found = Vec::with_capacity(alloc, count_lines(text))?;
    let mut rest = text;
    let mut n = first;
    while let Some((line, more)) = cut(b'\n', rest) {
        match read_line(closed, line) {
            Err(cause) => return Err(TextFault::Line(n, cause)),
            Ok(Line::Ends(count)) => return ended(n, found, count, more.is_empty()),
            Ok(Line::Enters(said)) => match said.entry() {
                Err(cause) => return Err(TextFault::Line(n, cause)),
                Ok(entry) => {
                    note(closed, &entry);
                    found.push(entry)?;
                }
            },
        }
        rest = more;
        n += 1;
    }
    Err(TextFault::Truncated(n))
}

/// Reads the entries of this many guests, none of whom has closed, from line `first` on.
fn first_entries<A: Allocator>(
    alloc: A,
    first: u32,
    guests: usize,
    text: &[u8],
) -> Result<Vec<Entry, A>, TextFault>
    requires first { first ≤ 5 }
    requires guests { guests ≤ MAX_GUESTS }
    requires short { length text.now ≤ MAX_TEXT_BYTES }
    ensures value { Gives (λ v. v.items) result (entries_in (replicate guests false) first 0 text.now) }
    ensures guests { IfOk result (λ v. AreBelow guests v.items) }
    ensures few { IfOk result (λ v. length v.items < MAX_ENTRIES) }
{
    let mut closed = [false; MAX_GUESTS];
    entries(alloc, first, &mut closed[..guests], text)
}

/// Reads the entries after the lines of the machine, for guests with these numbers of pages.
fn entries_behind_head<A: Allocator>(
    alloc: A,
    version: Version,
    pages: &[u32],
    text: &[u8],
) -> Result<Vec<Entry, A>, TextFault>
    requires guests { length pages.now ≤ MAX_GUESTS }
    requires short { length text.now ≤ MAX_TEXT_BYTES }
    ensures value { Gives (λ v. v.items) result (entries_in (replicate (length pages.now) false) (line_behind_head version) 0 text.now) }
    ensures guests { IfOk result (λ v. AreBelow (length pages.now) v.items) }
    ensures few { IfOk result (λ v. length v.items < MAX_ENTRIES) }
{
    let first = line_behind_head(version);
    first_entries(alloc, first, pages.len(), text)
}

/// Reads the journal of a text that is not too long.
#[tactic(auto, unfolding(crate::specs::Texts::journal_in))]
fn journal_in<A: Allocator + Clone>(alloc: A, text: &[u8]) -> Result<Journal<A>, TextFault>
    requires { length text.now ≤ MAX_TEXT_BYTES }
    ensures { Gives journal_seen result (journal_in text.now) }
{
    let (head, rest) = read_head(
        alloc.clone()?,
        b"pageshare journal 1",
        b"pageshare journal 2",
        text,
    )?;
    let Head {
        version,
        frames,
        pages,
        salts,
    } = head;
    match entries_behind_head(alloc, version, &pages, rest) {
        Ok(entries) => Ok(Journal {
            frames,
            pages,
            salts,
            entries,
        }),
        Err(fault) => Err(fault),
    }
}

/// Reads a journal's text, version 1 or 2. In version 1 every guest has the salt 0.
///
/// An `Err` is the text's first fault, in the order of `docs/FORMATS.md`, or `OutOfMemory` if memory was refused before that
/// fault's line was read.
#[tactic(auto, unfolding(crate::specs::Texts::journal_of))]
pub fn read_journal<A: Allocator + Clone>(alloc: A, text: &[u8]) -> Result<Journal<A>, TextFault>
    ensures { Gives journal_seen result (journal_of text.now) }
{
    if text.len() > MAX_TEXT_BYTES {
        return Err(TextFault::Long);
    }
    journal_in(alloc, text)
}
