//! The lines after a text's head: a request of a guest, or the end.
ghost use Rattle.std.specs.Prelude.{◌≡◌, ◌+◌, ◌<◌, ◌≤◌, ◌^◌, ℕ, List, Option, Some, None, Ok, Err};
ghost use Rattle.std.specs.Prelude.{false, codes, length, slice_get, IfOk, OnOk};
ghost use Rattle.std.specs.Str.{bytes_eq};
ghost use Rattle.journal_text.specs.Requests.{propose_at, store_at, load_at, release_at, bare_at, named};
ghost use Rattle.journal_text.specs.Requests.{asked_at, may_ask, end_at, entry_at, line_of, IsEnd, IsPlain};
ghost use Rattle.journal_text.specs.Asked.{asked_of, all_entered, IsSpelled, IsNoClose, IsSaidBelow};
ghost use Rattle.journal_text.specs.Texts.{ended};
ghost use Rattle.text_words.specs.Cursor.{left, left_length, seen};
ghost use Rattle.page_model.specs.declared.request.Request.TheVariants as requests;
ghost use Rattle.page_model.specs.declared.limits.TheConstants.{MAX_GUESTS};

use crate::said::{Asked, Said, SaidBy};
use text_words::word::{Left, is_bytes, long_word, next_number, nothing, number, word};
use text_words::{Cause, TextFault};

/// What a line after a text's head says.
#[derive(Drop)]
pub enum Line<T> {
    /// What a guest asks for.
    Enters(T),
    /// The end, with the number of lines that ask for something.
    Ends(u32),
}

#[tactic(auto, unfolding(crate::specs::Requests::propose_at))]
fn propose(rest: Left<'_>) -> Result<Said<'_>, Cause>
    ensures value { seen asked_of result ≡ propose_at (left rest.entry) }
    ensures spelled { IfOk result (λ said. IsSpelled said × IsNoClose said) }
{
    let (ppn, rest) = next_number(rest)?;
    nothing(rest)?;
    Ok(Said::Propose(ppn))
}

#[tactic(auto, unfolding(crate::specs::Requests::store_at, text_words::specs::Words::bytes_in))]
fn store(rest: Left<'_>) -> Result<Said<'_>, Cause>
    ensures value { seen asked_of result ≡ store_at (left rest.entry) }
    ensures spelled { IfOk result (λ said. IsSpelled said × IsNoClose said) }
{
    let (ppn, rest) = next_number(rest)?;
    let (at, rest) = next_number(rest)?;
    let (bytes, rest) = long_word(rest)?;
    if !is_bytes(bytes) {
        return Err(Cause::Form);
    }
    nothing(rest)?;
    Ok(Said::Store(ppn, at, bytes))
}

#[tactic(auto, unfolding(crate::specs::Requests::load_at))]
fn load(rest: Left<'_>) -> Result<Said<'_>, Cause>
    ensures value { seen asked_of result ≡ load_at (left rest.entry) }
    ensures spelled { IfOk result (λ said. IsSpelled said × IsNoClose said) }
{
    let (ppn, rest) = next_number(rest)?;
    let (at, rest) = next_number(rest)?;
    let (len, rest) = next_number(rest)?;
    nothing(rest)?;
    Ok(Said::Load(ppn, at, len))
}

#[tactic(auto, unfolding(crate::specs::Requests::release_at))]
fn release(rest: Left<'_>) -> Result<Said<'_>, Cause>
    ensures value { seen asked_of result ≡ release_at (left rest.entry) }
    ensures spelled { IfOk result (λ said. IsSpelled said × IsNoClose said) }
{
    let (ppn, rest) = next_number(rest)?;
    nothing(rest)?;
    Ok(Said::Release(ppn))
}

#[tactic(auto, unfolding(crate::specs::Requests::bare_at))]
fn count(rest: Left<'_>) -> Result<Said<'_>, Cause>
    ensures value { seen asked_of result ≡ bare_at requests.Count (left rest.entry) }
    ensures spelled { IfOk result (λ said. IsSpelled said × IsNoClose said) }
{
    nothing(rest)?;
    Ok(Said::Count)
}

#[tactic(auto, unfolding(crate::specs::Requests::bare_at))]
fn close(rest: Left<'_>) -> Result<Said<'_>, Cause>
    ensures value { seen asked_of result ≡ bare_at requests.Close (left rest.entry) }
    ensures spelled { IfOk result IsSpelled }
{
    nothing(rest)?;
    Ok(Said::Close)
}

/// Reads what a line asks for, from the word that names it and the words after.
#[tactic(auto, unfolding(crate::specs::Requests::named))]
fn said_by<'a>(name: &[u8], rest: Left<'a>) -> Result<Said<'a>, Cause>
    ensures value { seen asked_of result ≡ named name.now (left rest.entry) }
    ensures spelled { IfOk result IsSpelled }
    ensures plain { bytes_eq name.now (codes "close") ≡ false → IfOk result IsNoClose }
    ensures length { OnOk result (4 ≤ length name.now) }
{
    if name == b"propose".as_slice() {
        propose(rest)
    } else if name == b"store".as_slice() {
        store(rest)
    } else if name == b"load".as_slice() {
        load(rest)
    } else if name == b"release".as_slice() {
        release(rest)
    } else if name == b"count".as_slice() {
        count(rest)
    } else if name == b"close".as_slice() {
        close(rest)
    } else {
        Err(Cause::Form)
    }
}

/// Reads a request, from the word that names it and the words after.
pub fn named(name: &[u8], rest: Left<'_>) -> Result<Asked, Cause>
    ensures value { result ≡ named name.now (left rest.entry) }
    ensures plain { bytes_eq name.now (codes "close") ≡ false → IfOk result IsPlain }
    ensures length { OnOk result (4 ≤ length name.now) }
{
    let said = said_by(name, rest)?;
    Ok(said.request())
}

#[tactic(auto, unfolding(crate::specs::Requests::asked_at))]
fn next_said(rest: Left<'_>) -> Result<Said<'_>, Cause>
    ensures value { seen asked_of result ≡ asked_at (left rest.entry) }
    ensures spelled { IfOk result IsSpelled }
    ensures length { OnOk result (5 ≤ left_length (left rest.entry)) }
{
    let (name, rest) = word(rest)?;
    said_by(name, rest)
}

/// Checks that a guest may ask; `closed` says of each guest whether it has closed.
pub fn may_ask(closed: &[bool], guest: u32) -> Result<(), Cause>
    ensures value { result ≡ may_ask (slice_get closed.now guest) }
    ensures below { OnOk result (guest < length closed.now) }
{
    match closed.get(guest as usize) {
        None => Err(Cause::NoGuest),
        Some(true) => Err(Cause::AfterClose),
        Some(false) => Ok(()),
    }
}

/// Reads the end line, after the word `end`.
#[tactic(auto, unfolding(crate::specs::Requests::end_at))]
pub fn end<T>(rest: Left<'_>) -> Result<Line<T>, Cause>
    ensures value { result ≡ end_at (left rest.entry) }
    ensures ends { IfOk result IsEnd }
    ensures length { OnOk result (2 ≤ left_length (left rest.entry)) }
{
    let (count, rest) = next_number(rest)?;
    nothing(rest)?;
    Ok(Line::Ends(count))
}

#[tactic(auto, unfolding(crate::specs::Requests::entry_at))]
fn entry<'a>(closed: &[bool], first: &[u8], rest: Left<'a>) -> Result<Line<SaidBy<'a>>, Cause>
    requires { length closed.now ≤ MAX_GUESTS }
    ensures value { all_entered result ≡ entry_at closed.now first.now (left rest.entry) }
    ensures below { IfOk result (λ l. IsSaidBelow (length closed.now) l) }
    ensures length { OnOk result (6 ≤ length first.now + left_length (left rest.entry)) }
{
    let guest = number(first)?;
    let said = next_said(rest)?;
    may_ask(closed, guest)?;
    Ok(Line::Enters(SaidBy {
        guest: guest as u8,
        said,
    }))
}

/// Reads a line; `closed` says of each guest whether it has closed. What is wrong with a request's numbers shows only when its
/// entry is made.
#[tactic(auto, using(crate::proofs::Entered::end_entered), unfolding(crate::specs::Requests::line_of))]
pub(crate) fn read_line<'a>(closed: &[bool], line: &'a [u8]) -> Result<Line<SaidBy<'a>>, Cause>
    requires { length closed.now ≤ MAX_GUESTS }
    ensures value { all_entered result ≡ line_of closed.now line.now }
    ensures below { IfOk result (λ l. IsSaidBelow (length closed.now) l) }
    ensures length { OnOk result (5 ≤ length line.now) }
{
    let (first, rest) = word(Some(line))?;
    if first == b"end".as_slice() {
        end(rest)
    } else {
        entry(closed, first, rest)
    }
}

/// Checks the end line, which is line `n`: it must have the number of lines that asked for something, which is `asked`, and be
/// the last.
pub fn check_end(n: u32, asked: usize, count: u32, is_last: bool) -> Result<(), TextFault>
    requires { n < 2 ^ 31 }
    ensures { result ≡ ended n asked is_last count }
{
    if count as usize != asked {
        return Err(TextFault::Count);
    }
    if !is_last {
        return Err(TextFault::Line(n + 1, Cause::Form));
    }
    Ok(())
}
