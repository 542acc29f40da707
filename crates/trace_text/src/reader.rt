//! The reader of traces.
ghost use Rattle.std.specs.Prelude.{◌≡◌, ◌≤◌, ◌^◌, length};
ghost use Rattle.text_words.specs.Views.{Gives};
ghost use Rattle.trace_text.specs.Texts.{steps_in, trace_in, trace_of, said_by};

use crate::line::{check_header, read_sizes, read_step};
use crate::{Step, Trace};
use page_model::MAX_TEXT_BYTES;
use std::alloc::Allocator;
use text_words::TextFault;
use text_words::line::{at_line, next_line};
use text_words::word::cut;

/// The number of the first line that is a step.
pub(crate) const FIRST_STEP: u32 = 3;

/// Reads the steps of the lines from the third on.
fn read_steps<A: Allocator>(alloc: A, text: &[u8]) -> Result<Vec<Step, A>, TextFault>
    requires short { length text.now ≤ 2 ^ 26 }
    ensures { Gives (λ v. v.items) result (steps_in 3 text.now) }
{
    let mut steps = Vec::new(alloc);
    let mut rest = text;
    let mut n = FIRST_STEP;
    while let Some((line, more)) = cut(b'\n', rest) {
        match read_step(line) {
            Err(cause) => return Err(TextFault::Line(n, cause)),
            Ok(step) => steps.push(step)?,
        }
        rest = more;
        n += 1;
    }
    if rest.is_empty() {
        return Ok(steps);
    }
    Err(TextFault::Truncated(n))
}

/// Reads the trace of a text that isn't too long.
#[tactic(auto, unfolding(crate::specs::Texts::trace_in))]
fn trace_in<A: Allocator>(alloc: A, text: &[u8]) -> Result<Trace<A>, TextFault>
    requires { length text.now ≤ 2 ^ 26 }
    ensures { Gives said_by result (trace_in text.now) }
{
    let (line, rest) = next_line(1, text)?;
    at_line(1, check_header(line))?;
    let (line, rest) = next_line(2, rest)?;
    let (pages, frames) = at_line(2, read_sizes(line))?;
    match read_steps(alloc, rest) {
        Ok(steps) => Ok(Trace {
            pages,
            frames,
            steps,
        }),
        Err(fault) => Err(fault),
    }
}

/// Reads a trace's text. An `Err` is the text's first fault, or `OutOfMemory` if memory was refused before that fault's line was
/// read.
#[tactic(auto, unfolding(crate::specs::Texts::trace_of))]
pub fn read_trace<A: Allocator>(alloc: A, text: &[u8]) -> Result<Trace<A>, TextFault>
    ensures { Gives said_by result (trace_of text.now) }
{
    if text.len() > MAX_TEXT_BYTES {
        return Err(TextFault::Long);
    }
    trace_in(alloc, text)
}
