//! The writer of journals.
ghost use Rattle.std.specs.Prelude.{◌≡◌, ◌<◌, ◌^◌, ◌++◌, [], codes, decimal, length, string_bytes, IfOk, OnOk};
ghost use Rattle.journal_text.specs.Views.{journal_seen};
ghost use Rattle.journal_text.specs.Written.{request_words, entry_line, entry_lines, number_words, numbers_line};
ghost use Rattle.journal_text.specs.Written.{needs_salts, version_for, machine_lines, guests_lines, entries_lines, journal_text};

use crate::journal::Journal;
use crate::print::push_digits;
use crate::version::Version;
use page_model::{Entry, LoadReq, Request, StoreReq};
use std::alloc::{AllocError, Allocator};
use text_words::print::{push_counted, push_number};

/// Appends the words of a store.
#[tactic(auto, unfolding(crate::specs::Written::request_words))]
fn push_store<A: Allocator>(out: &mut String<A>, store: &StoreReq) -> Result<(), AllocError>
    ensures { OnOk result (string_bytes out.new ≡ string_bytes out.old ++ request_words (Request.Store store.now)) }
{
    push_counted(out, "store ", store.ppn())?;
    push_counted(out, " ", store.at())?;
    out.push_str(" ")?;
    push_digits(out, store.bytes())
}

/// Appends the words of a load.
#[tactic(auto, unfolding(crate::specs::Written::request_words))]
fn push_load<A: Allocator>(out: &mut String<A>, load: &LoadReq) -> Result<(), AllocError>
    ensures { OnOk result (string_bytes out.new ≡ string_bytes out.old ++ request_words (Request.Load load.now)) }
{
    push_counted(out, "load ", load.ppn())?;
    push_counted(out, " ", load.at())?;
    push_counted(out, " ", load.len())
}

/// Appends the words of a request.
#[tactic(auto, unfolding(crate::specs::Written::request_words))]
fn push_request<A: Allocator>(out: &mut String<A>, request: &Request) -> Result<(), AllocError>
    ensures { OnOk result (string_bytes out.new ≡ string_bytes out.old ++ request_words request.now) }
{
    match request {
        Request::Propose(ppn) => push_counted(out, "propose ", *ppn),
        Request::Store(store) => push_store(out, store),
        Request::Load(load) => push_load(out, load),
        Request::Release(ppn) => push_counted(out, "release ", *ppn),
        Request::Count => out.push_str("count"),
        Request::Close => out.push_str("close"),
    }
}

/// Appends an entry's line.
fn push_entry<A: Allocator>(out: &mut String<A>, entry: &Entry) -> Result<(), AllocError>
    ensures { OnOk result (string_bytes out.new ≡ string_bytes out.old ++ entry_line entry.now) }
{
    push_number(out, u32::from(entry.guest))?;
    out.push_str(" ")?;
    push_request(out, &entry.request)?;
    out.push_str("\n")
}

/// Appends the entries' lines.
fn push_entries<A: Allocator>(out: &mut String<A>, entries: &[Entry]) -> Result<(), AllocError>
    ensures { OnOk result (string_bytes out.new ≡ string_bytes out.old ++ entry_lines entries.now) }
{
    for entry in entries {
        push_entry(out, entry)?;
    }
    Ok(())
}

/// Appends numbers, each after a space.
fn push_numbers<A: Allocator>(out: &mut String<A>, numbers: &[u32]) -> Result<(), AllocError>
    ensures { OnOk result (string_bytes out.new ≡ string_bytes out.old ++ number_words numbers.now) }
{
    for n in numbers {
        push_counted(out, " ", *n)?;
    }
    Ok(())
}

/// Appends a line of a word and numbers.
fn push_numbers_line<A: Allocator>(
    out: &mut String<A>,
    word: &str,
    numbers: &[u32],
) -> Result<(), AllocError>
    ensures { OnOk result (string_bytes out.new ≡ string_bytes out.old ++ numbers_line word.now numbers.now) }
{
    out.push_str(word)?;
    push_numbers(out, numbers)?;
    out.push_str("\n")
}

/// Whether some salt isn't 0.
fn needs_salts(salts: &[u32]) -> bool
    ensures { result ≡ needs_salts salts.now }
{
    for salt in salts {
        if *salt != 0 {
            return true;
        }
    }
    false
}

/// Returns the lowest version that can say these salts.
fn version_for(salts: &[u32]) -> Version
    ensures { result ≡ version_for salts.now }
{
    if needs_salts(salts) {
        Version::Two
    } else {
        Version::One
    }
}

/// Appends the lines of the version and of the frames.
fn push_machine<A: Allocator>(
    out: &mut String<A>,
    version: Version,
    frames: u32,
) -> Result<(), AllocError>
    ensures { OnOk result (string_bytes out.new ≡ string_bytes out.old ++ machine_lines version frames) }
{
    let head = match version {
        Version::One => "pageshare journal 1\nframes ",
        Version::Two => "pageshare journal 2\nframes ",
    };
    push_counted(out, head, frames)?;
    out.push_str("\n")
}

/// Appends the line of the guests' pages, and that of their salts if it is needed.
fn push_guests<A: Allocator>(
    out: &mut String<A>,
    version: Version,
    pages: &[u32],
    salts: &[u32],
) -> Result<(), AllocError>
    ensures { OnOk result (string_bytes out.new ≡ string_bytes out.old ++ guests_lines version pages.now salts.now) }
{
    push_numbers_line(out, "pages", pages)?;
    match version {
        Version::One => Ok(()),
        Version::Two => push_numbers_line(out, "salts", salts),
    }
}

/// Appends the lines of the entries, and the line of their number.
fn push_body<A: Allocator>(out: &mut String<A>, entries: &[Entry]) -> Result<(), AllocError>
    requires { length entries.now < 2 ^ 32 }
    ensures { OnOk result (string_bytes out.new ≡ string_bytes out.old ++ entries_lines entries.now) }
{
    push_entries(out, entries)?;
    push_counted(out, "end ", entries.len() as u32)?;
    out.push_str("\n")
}

/// Returns the text of a journal of a machine with these frames, pages and salts: version 1 if every salt is 0, and version 2
/// otherwise.
#[tactic(auto, unfolding(crate::specs::Written::journal_text))]
pub fn write_entries<A: Allocator>(
    alloc: A,
    frames: u32,
    pages: &[u32],
    salts: &[u32],
    entries: &[Entry],
) -> Result<String<A>, AllocError>
    requires { length entries.now < 2 ^ 32 }
    ensures { IfOk result (λ text. string_bytes text ≡ journal_text
        (record { frames = frames; pages = pages.now; salts = salts.now; entries = entries.now })) }
{
    let version = version_for(salts);
    let mut text = String::new(alloc);
    push_machine(&mut text, version, frames)?;
    push_guests(&mut text, version, pages, salts)?;
    push_body(&mut text, entries)?;
    Ok(text)
}

/// Returns a journal's text, as [`write_entries`] does.
pub fn write_journal<A: Allocator>(alloc: A, journal: &Journal<A>) -> Result<String<A>, AllocError>
    ensures { IfOk result (λ text. string_bytes text ≡ journal_text (journal_seen journal.now)) }
{
    write_entries(
        alloc,
        journal.frames,
        &journal.pages,
        &journal.salts,
        &journal.entries,
    )
}
