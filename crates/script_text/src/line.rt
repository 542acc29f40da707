//! The lines of a script after its head: a request, a scan, or the end.
ghost use Rattle.std.specs.Prelude.{◌≡◌, ◌+◌, ◌<◌, ◌≤◌, false, IfOk, OnOk};
ghost use Rattle.page_model.specs.Closing.{is_close};
ghost use Rattle.script_text.specs.Works.{size_of};
ghost use Rattle.text_words.specs.Cursor.{left, seen};
ghost use Rattle.script_text.specs.Lines.{seed_at, scanned, in_order_at, at_random_at, scan_named, scan_at, as_work};
ghost use Rattle.script_text.specs.Lines.{work_named, work_at, is_guest, with_room, item_at, script_line_of, IsPlain, Fits};
ghost use Rattle.page_model.specs.declared.limits.TheConstants.{MAX_GUESTS};

use crate::work::{Item, Work};
use journal_text::request::{Line, end, named};
use page_model::Request;
use text_words::Cause;
use text_words::word::{Left, next_number, nothing, number, number_to, word};

/// What a line asks for, or what is wrong with its numbers.
type Asked = Result<Work, Cause>;

/// Returns the next word as a seed.
#[tactic(auto, unfolding(crate::specs::Lines::seed_at))]
fn next_seed<'a>(rest: Left<'a>) -> Result<(u64, Left<'a>), Cause>
    ensures { seen (λ x. (x.0, left x.1)) result ≡ seed_at (left rest.entry) }
{
    let (first, rest) = word(rest)?;
    Ok((number_to(u64::MAX, first)?, rest))
}

fn scanned(n: u32, work: Work) -> Asked
    ensures value { result ≡ scanned n work }
    ensures plain { IfOk result (λ w. w ≡ work) }
{
    if n == 0 { Err(Cause::Length) } else { Ok(work) }
}

#[tactic(auto, unfolding(crate::specs::Lines::in_order_at))]
fn in_order(rest: Left<'_>) -> Result<Asked, Cause>
    ensures value { result ≡ in_order_at (left rest.entry) }
    ensures plain { IfOk result (λ asked. IfOk asked IsPlain) }
{
    let (n, rest) = next_number(rest)?;
    nothing(rest)?;
    Ok(scanned(n, Work::ScansInOrder(n)))
}

#[tactic(auto, unfolding(crate::specs::Lines::at_random_at))]
fn at_random(rest: Left<'_>) -> Result<Asked, Cause>
    ensures value { result ≡ at_random_at (left rest.entry) }
    ensures plain { IfOk result (λ asked. IfOk asked IsPlain) }
{
    let (seed, rest) = next_seed(rest)?;
    let (n, rest) = next_number(rest)?;
    nothing(rest)?;
    Ok(scanned(n, Work::ScansAtRandom(seed, n)))
}

#[tactic(auto, unfolding(crate::specs::Lines::scan_named))]
fn scan_named(order: &[u8], rest: Left<'_>) -> Result<Asked, Cause>
    ensures value { result ≡ scan_named order.now (left rest.entry) }
    ensures plain { IfOk result (λ asked. IfOk asked IsPlain) }
{
    if order == b"sequential".as_slice() {
        in_order(rest)
    } else if order == b"random".as_slice() {
        at_random(rest)
    } else {
        Err(Cause::Form)
    }
}

#[tactic(auto, unfolding(crate::specs::Lines::scan_at))]
fn scan(rest: Left<'_>) -> Result<Asked, Cause>
    ensures value { result ≡ scan_at (left rest.entry) }
    ensures plain { IfOk result (λ asked. IfOk asked IsPlain) }
{
    let (order, rest) = word(rest)?;
    scan_named(order, rest)
}

/// Returns one request as what a line asks for.
fn as_work(asked: Result<Request, Cause>) -> Asked
    requires { IfOk asked (λ r. is_close r ≡ false) }
    ensures value { result ≡ as_work asked }
    ensures plain { IfOk result IsPlain }
{
    match asked {
        Ok(request) => Ok(Work::Asks(request)),
        Err(cause) => Err(cause),
    }
}

#[tactic(auto, unfolding(crate::specs::Lines::work_named))]
fn work_named(name: &[u8], rest: Left<'_>) -> Result<Asked, Cause>
    ensures value { result ≡ work_named name.now (left rest.entry) }
    ensures plain { IfOk result (λ asked. IfOk asked IsPlain) }
{
    if name == b"scan".as_slice() {
        return scan(rest);
    }
    if name == b"close".as_slice() {
        return Err(Cause::Form);
    }
    let asked = named(name, rest)?;
    Ok(as_work(asked))
}

#[tactic(auto, unfolding(crate::specs::Lines::work_at))]
fn next_work(rest: Left<'_>) -> Result<Asked, Cause>
    ensures value { result ≡ work_at (left rest.entry) }
    ensures plain { IfOk result (λ asked. IfOk asked IsPlain) }
{
    let (name, rest) = word(rest)?;
    work_named(name, rest)
}

/// Checks that a machine of this many guests has this one.
fn is_guest(guests: u32, guest: u32) -> Result<(), Cause>
    ensures value { result ≡ is_guest guests guest }
    ensures below { OnOk result (guest < guests) }
{
    if guest < guests {
        Ok(())
    } else {
        Err(Cause::NoGuest)
    }
}

/// Returns what a guest asks for, if the journal has room for it.
fn with_room(most: u32, total: u32, guest: u8, work: Work) -> Result<Item, Cause>
    requires { total ≤ most }
    ensures value { result ≡ with_room most total guest work }
    ensures item { IfOk result (λ item. item ≡ record { guest = guest; work = work }) }
    ensures room { OnOk result (total + size_of work ≤ most) }
{
    if work.size() > most - total {
        Err(Cause::TooMany)
    } else {
        Ok(Item { guest, work })
    }
}

#[tactic(auto, unfolding(crate::specs::Lines::item_at))]
fn item(
    guests: u32,
    most: u32,
    total: u32,
    first: &[u8],
    rest: Left<'_>,
) -> Result<Line<Item>, Cause>
    requires guests { guests ≤ MAX_GUESTS }
    requires room { total ≤ most }
    ensures value { result ≡ item_at guests most total first.now (left rest.entry) }
    ensures fits { IfOk result (λ line. Fits guests most total line) }
{
    let guest = number(first)?;
    let asked = next_work(rest)?;
    is_guest(guests, guest)?;
    let work = asked?;
    let item = with_room(most, total, guest as u8, work)?;
    Ok(Line::Enters(item))
}

/// Reads a line after the head of a script with this many guests, whose journal has `most` entries, `total` of them already
/// taken.
#[tactic(auto, unfolding(crate::specs::Lines::script_line_of))]
pub(crate) fn read_script_line(
    guests: u32,
    most: u32,
    total: u32,
    line: &[u8],
) -> Result<Line<Item>, Cause>
    requires guests { guests ≤ MAX_GUESTS }
    requires room { total ≤ most }
    ensures value { result ≡ script_line_of guests most total line.now }
    ensures fits { IfOk result (λ said. Fits guests most total said) }
{
    let (first, rest) = word(Some(line))?;
    if first == b"end".as_slice() {
        end(rest)
    } else {
        item(guests, most, total, first, rest)
    }
}
