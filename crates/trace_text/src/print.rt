//! How the play of a trace ended, as a line.
ghost use Rattle.std.specs.Prelude.{◌≡◌, ◌<◌, ◌^◌, ◌++◌, codes, decimal, string_bytes, IfOk, OnOk};
ghost use Rattle.trace_text.specs.Printed.{at_step, possible_words, shown_words, right_line, outcome_line};
ghost use Rattle.trace_text.specs.declared.outcome.Outcome.TheVariants as Outcome;

use crate::Outcome;
use crate::reader::FIRST_STEP;
use itoa::Buffer;
use std::alloc::{AllocError, Allocator};

/// Appends a number.
fn push_number<A: Allocator>(out: &mut String<A>, n: u64) -> Result<(), AllocError>
    ensures { OnOk result (string_bytes out.new ≡ string_bytes out.old ++ decimal n) }
{
    let mut buffer = Buffer::new();
    out.push_str(buffer.format(n))
}

/// Appends words and a number.
fn push_counted<A: Allocator>(out: &mut String<A>, words: &str, n: u64) -> Result<(), AllocError>
    ensures { OnOk result (string_bytes out.new ≡ string_bytes out.old ++ (words.now ++ decimal n)) }
{
    out.push_str(words)?;
    push_number(out, n)
}

/// Appends the words that begin a line about a step.
fn push_step<A: Allocator>(out: &mut String<A>, place: usize) -> Result<(), AllocError>
    ensures { OnOk result (string_bytes out.new ≡ string_bytes out.old ++ at_step place) }
{
    let mut buffer = Buffer::new();
    out.push_str("line ")?;
    out.push_str(buffer.format(place as u128 + u128::from(FIRST_STEP)))?;
    out.push_str(": ")
}

/// Appends that each event was possible.
#[tactic(auto, unfolding(crate::specs::Printed::possible_words))]
fn push_possible<A: Allocator>(out: &mut String<A>) -> Result<(), AllocError>
    ensures { OnOk result (string_bytes out.new ≡ string_bytes out.old ++ possible_words) }
{
    out.push_str(" events, each possible; ")
}

/// Appends that each page showed what is said of it.
#[tactic(auto, unfolding(crate::specs::Printed::shown_words))]
fn push_shown<A: Allocator>(out: &mut String<A>) -> Result<(), AllocError>
    ensures { OnOk result (string_bytes out.new ≡ string_bytes out.old ++ shown_words) }
{
    out.push_str(" pages shown right")
}

/// Appends what the line says of a play in which each step was right.
fn push_right<A: Allocator>(
    out: &mut String<A>,
    events: usize,
    looks: usize,
) -> Result<(), AllocError>
    ensures { OnOk result (string_bytes out.new ≡ string_bytes out.old ++ right_line events looks) }
{
    push_number(out, events as u64)?;
    push_possible(out)?;
    push_number(out, looks as u64)?;
    push_shown(out)
}

/// Appends what the line says of a page that shows something else.
#[tactic(auto, unfolding(crate::specs::Printed::outcome_line))]
fn push_differs<A: Allocator>(
    out: &mut String<A>,
    place: usize,
    page: u32,
    seen: u64,
    said: u64,
) -> Result<(), AllocError>
    ensures { OnOk result (string_bytes out.new ≡ string_bytes out.old ++ outcome_line (Outcome.Differs place page seen said)) }
{
    push_step(out, place)?;
    push_counted(out, "page ", u64::from(page))?;
    push_counted(out, " shows ", seen)?;
    push_counted(out, ", not ", said)
}

/// Appends what the line says of a play.
#[tactic(auto, unfolding(crate::specs::Printed::outcome_line))]
fn push_outcome<A: Allocator>(out: &mut String<A>, outcome: &Outcome) -> Result<(), AllocError>
    ensures { OnOk result (string_bytes out.new ≡ string_bytes out.old ++ outcome_line outcome.now) }
{
    match outcome {
        Outcome::Right(events, looks) => push_right(out, *events, *looks),
        Outcome::NotPossible(place) => {
            push_step(out, *place)?;
            out.push_str("not possible")
        }
        Outcome::Differs(place, page, seen, said) => push_differs(out, *place, *page, *seen, *said),
        Outcome::NoPage(place, page) => {
            push_step(out, *place)?;
            push_counted(out, "no page ", u64::from(*page))
        }
    }
}

/// Returns the line that says how a play ended, without a line feed.
pub fn outcome_line<A: Allocator>(alloc: A, outcome: &Outcome) -> Result<String<A>, AllocError>
    ensures { IfOk result (λ line. string_bytes line ≡ outcome_line outcome.now) }
{
    let mut line = String::new(alloc);
    push_outcome(&mut line, outcome)?;
    Ok(line)
}
