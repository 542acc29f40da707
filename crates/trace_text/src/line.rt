//! The lines of a trace.
ghost use Rattle.std.specs.Prelude.{◌≡◌, Some, None};
ghost use Rattle.text_words.specs.Cursor.{left};
ghost use Rattle.trace_text.specs.Lines.{header_of, in_limits, sizes_of, last_number, content_at, page_event, alone};
ghost use Rattle.trace_text.specs.Lines.{write_at, lend_at, trim_at, shows_at, third_at, rest_at, step_of};

use crate::{MAX_TRACE_FRAMES, Step};
use page_model::MAX_PAGES;
use text_words::Cause;
use text_words::line::keyword;
use text_words::word::{Left, next_number, nothing, number_to, word};
use window_events::Event;

/// Checks the first line.
pub(crate) fn check_header(line: &[u8]) -> Result<(), Cause>
    ensures { result ≡ header_of line.now }
{
    if line == b"pageshare trace 1".as_slice() {
        Ok(())
    } else {
        Err(Cause::Header)
    }
}

/// Returns the numbers of pages and frames, if they are within the limits.
fn in_limits(pages: u32, frames: u32) -> Result<(u32, u32), Cause>
    ensures { result ≡ in_limits pages frames }
{
    if pages == 0 || pages > MAX_PAGES {
        return Err(Cause::Pages);
    }
    if frames == 0 || frames > MAX_TRACE_FRAMES {
        return Err(Cause::Frames);
    }
    Ok((pages, frames))
}

/// Reads the second line: how many pages and frames there are.
#[tactic(auto, unfolding(crate::specs::Lines::sizes_of))]
pub(crate) fn read_sizes(line: &[u8]) -> Result<(u32, u32), Cause>
    ensures { result ≡ sizes_of line.now }
{
    let (first, rest) = word(Some(line))?;
    keyword(b"pages", first)?;
    let (pages, rest) = next_number(rest)?;
    let (second, rest) = word(rest)?;
    keyword(b"frames", second)?;
    let (frames, rest) = next_number(rest)?;
    nothing(rest)?;
    in_limits(pages, frames)
}

/// Reads the last word of a line as a number.
#[tactic(auto, unfolding(crate::specs::Lines::last_number))]
fn last_number(rest: Left<'_>) -> Result<u32, Cause>
    ensures { result ≡ last_number (left rest.entry) }
{
    let (n, rest) = next_number(rest)?;
    nothing(rest)?;
    Ok(n)
}

/// Reads the last word of a line as a content.
#[tactic(auto, unfolding(crate::specs::Lines::content_at))]
fn content(rest: Left<'_>) -> Result<u64, Cause>
    ensures { result ≡ content_at (left rest.entry) }
{
    let (word, rest) = word(rest)?;
    let content = number_to(u64::MAX, word)?;
    nothing(rest)?;
    Ok(content)
}

/// Returns the event of a line that has no third word.
fn page_event(name: &[u8], page: u32) -> Option<Event>
    ensures { result ≡ page_event name.now page }
{
    if name == b"guard".as_slice() {
        Some(Event::Guard(page))
    } else if name == b"unguard".as_slice() {
        Some(Event::Unguard(page))
    } else if name == b"copy".as_slice() {
        Some(Event::Copy(page))
    } else if name == b"map".as_slice() {
        Some(Event::Map(page))
    } else if name == b"release".as_slice() {
        Some(Event::Release(page))
    } else if name == b"discard".as_slice() {
        Some(Event::Discard(page))
    } else {
        None
    }
}

/// Returns the step of an event that nothing comes after.
#[tactic(auto, unfolding(crate::specs::Lines::alone))]
fn alone(event: Event, rest: Left<'_>) -> Result<Step, Cause>
    ensures { result ≡ alone event (left rest.entry) }
{
    nothing(rest)?;
    Ok(Step::Happens(event))
}

#[tactic(auto, unfolding(crate::specs::Lines::write_at))]
fn write(page: u32, rest: Left<'_>) -> Result<Step, Cause>
    ensures { result ≡ write_at page (left rest.entry) }
{
    let content = content(rest)?;
    Ok(Step::Happens(Event::Write(page, content)))
}

#[tactic(auto, unfolding(crate::specs::Lines::lend_at))]
fn lend(page: u32, rest: Left<'_>) -> Result<Step, Cause>
    ensures { result ≡ lend_at page (left rest.entry) }
{
    let frame = last_number(rest)?;
    Ok(Step::Happens(Event::Lend(page, frame)))
}

#[tactic(auto, unfolding(crate::specs::Lines::trim_at))]
fn trim(frame: u32, rest: Left<'_>) -> Result<Step, Cause>
    ensures { result ≡ trim_at frame (left rest.entry) }
{
    let content = content(rest)?;
    Ok(Step::Happens(Event::Trim(frame, content)))
}

#[tactic(auto, unfolding(crate::specs::Lines::shows_at))]
fn shows(page: u32, rest: Left<'_>) -> Result<Step, Cause>
    ensures { result ≡ shows_at page (left rest.entry) }
{
    let content = content(rest)?;
    Ok(Step::Shows(page, content))
}

/// Reads what comes after the name and the number of a line that has a third word.
#[tactic(auto, unfolding(crate::specs::Lines::third_at))]
fn third(name: &[u8], n: u32, rest: Left<'_>) -> Result<Step, Cause>
    ensures { result ≡ third_at name.now n (left rest.entry) }
{
    if name == b"write".as_slice() {
        write(n, rest)
    } else if name == b"lend".as_slice() {
        lend(n, rest)
    } else if name == b"trim".as_slice() {
        trim(n, rest)
    } else if name == b"shows".as_slice() {
        shows(n, rest)
    } else {
        Err(Cause::Form)
    }
}

/// Reads what comes after a line's name and its first number.
fn behind(event: Option<Event>, name: &[u8], n: u32, rest: Left<'_>) -> Result<Step, Cause>
    ensures { result ≡ rest_at event name.now n (left rest.entry) }
{
    match event {
        Some(event) => alone(event, rest),
        None => third(name, n, rest),
    }
}

/// Reads a line after the first two.
#[tactic(auto, unfolding(crate::specs::Lines::step_of))]
pub(crate) fn read_step(line: &[u8]) -> Result<Step, Cause>
    ensures { result ≡ step_of line.now }
{
    let (name, left) = word(Some(line))?;
    let (n, left) = next_number(left)?;
    let event = page_event(name, n);
    behind(event, name, n, left)
}
