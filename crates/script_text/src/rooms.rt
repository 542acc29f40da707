//! The lines of the rings and of the journal.
ghost use Rattle.std.specs.Prelude.{◌≡◌, ◌≤◌, ◌<◌, ◌^◌, length, IfOk, OnOk};
ghost use Rattle.share_rings.specs.Faults.{IsCapacity};
ghost use Rattle.merge_machine.specs.Limits.{IsJournal};
ghost use Rattle.text_words.specs.Views.{Gives};
ghost use Rattle.script_text.specs.Texts.{named_number, ring_in_limits, journal_in_limits, ring_of, journal_limit_of, rooms_in};

use page_model::{MAX_ENTRIES, MAX_RING_CAPACITY};
use text_words::line::{at_line, keyword, next_line};
use text_words::word::{next_number, nothing, word};
use text_words::{Cause, TextFault};

/// Reads the number on a line of a word and a number.
#[tactic(auto, unfolding(crate::specs::Texts::named_number))]
fn named_number(name: &[u8], line: &[u8]) -> Result<u32, Cause>
    ensures { result ≡ named_number name.now line.now }
{
    let (first, rest) = word(Some(line))?;
    keyword(name, first)?;
    let (n, rest) = next_number(rest)?;
    nothing(rest)?;
    Ok(n)
}

fn ring_in_limits(n: u32) -> Result<u32, Cause>
    ensures value { result ≡ ring_in_limits n }
    ensures limits { IfOk result IsCapacity }
{
    if n == 0 || n > MAX_RING_CAPACITY {
        Err(Cause::Ring)
    } else {
        Ok(n)
    }
}

fn journal_in_limits(guests: u32, n: u32) -> Result<u32, Cause>
    ensures value { result ≡ journal_in_limits guests n }
    ensures limits { IfOk result IsJournal }
    ensures room { IfOk result (λ m. guests ≤ m) }
{
    if n == 0 || n > MAX_ENTRIES {
        return Err(Cause::Journal);
    }
    if n < guests {
        return Err(Cause::TooMany);
    }
    Ok(n)
}

#[tactic(auto, unfolding(crate::specs::Texts::ring_of))]
fn ring(line: &[u8]) -> Result<u32, Cause>
    ensures value { result ≡ ring_of line.now }
    ensures limits { IfOk result IsCapacity }
{
    let n = named_number(b"ring", line)?;
    ring_in_limits(n)
}

#[tactic(auto, unfolding(crate::specs::Texts::journal_limit_of))]
fn journal(guests: u32, line: &[u8]) -> Result<u32, Cause>
    ensures value { result ≡ journal_limit_of guests line.now }
    ensures limits { IfOk result IsJournal }
    ensures room { IfOk result (λ m. guests ≤ m) }
{
    let n = named_number(b"journal", line)?;
    journal_in_limits(guests, n)
}

/// Reads the room of the rings and of the journal, for this many guests, on line `n` and the next; also returns the text after
/// them.
#[tactic(auto, unfolding(crate::specs::Texts::rooms_in))]
pub(crate) fn read_rooms<'a>(
    n: u32,
    guests: u32,
    text: &'a [u8],
) -> Result<((u32, u32), &'a [u8]), TextFault>
    requires { n < 2 ^ 31 }
    ensures value { Gives (λ x. (x.0, x.1.now)) result (rooms_in n guests text.now) }
    ensures ring { IfOk result (λ x. IsCapacity x.0.0) }
    ensures journal { IfOk result (λ x. IsJournal x.0.1) }
    ensures room { IfOk result (λ x. guests ≤ x.0.1) }
    ensures shorter { IfOk result (λ x. length x.1.now ≤ length text.now) }
{
    let (line, rest) = next_line(n, text)?;
    let ring = at_line(n, ring(line))?;
    let (line, rest) = next_line(n + 1, rest)?;
    let journal = at_line(n + 1, journal(guests, line))?;
    Ok(((ring, journal), rest))
}
