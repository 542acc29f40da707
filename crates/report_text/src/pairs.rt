//! What each two guests have in common, as CSV for programs.
ghost use Rattle.std.specs.Prelude.{◌≡◌, option_and_then, slice_get};

use crate::Fleet;
use crate::estimated_sum::EstimatedSum;
use fleet_census::{Amount, FleetPair};
use itoa::Buffer;
use std::alloc::{AllocError, Allocator, Global};
use std::io::{self, Write};

/// Writes the header, and then a line for each two guests: first those of the first guest with each one behind it, and so on. If
/// not all contents were kept, the standard error of each number stands behind it. The fields are those of `docs/FORMATS.md`.
///
/// `pairs` is what a merge counted, with a row for each guest. One guest's lines are in memory at a time.
pub fn write_pairs<A: Allocator, W: Write>(
    alloc: Global,
    fleet: &Fleet<'_>,
    pairs: &[Vec<FleetPair, A>],
    writer: &mut W,
) -> io::Result<()> {
    let names = names_of(alloc, fleet)?;
    let mut lines = String::new(alloc);
    lines.push_str(header_of(fleet))?;
    for first in 0..names.len() {
        push_lines(&mut lines, fleet.sample, &names, pairs, first)?;
        writer.write_all(lines.as_bytes())?;
        lines.clear();
    }
    writer.write_all(lines.as_bytes())
}

fn header_of(fleet: &Fleet<'_>) -> &'static str {
    if fleet.sample > 1 {
        "guest,guest,contents,contents_error,pages,pages_error\n"
    } else {
        "guest,guest,contents,pages\n"
    }
}

/// Returns the guests' names, empty if a digest has no line.
fn names_of<'a>(alloc: Global, fleet: &Fleet<'a>) -> Result<Vec<&'a str>, AllocError> {
    let mut names = Vec::with_capacity(alloc, fleet.guests.len())?;
    for guest in fleet.guests {
        names.push(guest.name().unwrap_or(""))?;
    }
    Ok(names)
}

/// Appends the lines of a guest with each one behind it.
fn push_lines<A: Allocator, B: Allocator>(
    lines: &mut String<A>,
    sample: u32,
    names: &[&str],
    pairs: &[Vec<FleetPair, B>],
    first: usize,
) -> Result<(), AllocError> {
    for second in first..names.len() {
        if let Some(pair) = pair_of(pairs, first, second) {
            lines.push_str(names[first])?;
            lines.push_str(",")?;
            lines.push_str(names[second])?;
            push_pair(lines, sample, pair)?;
        }
    }
    Ok(())
}

/// Returns what two guests have in common: a row has the guests before its own, so there is nothing of a guest with itself.
fn pair_of<B: Allocator>(
    pairs: &[Vec<FleetPair, B>],
    first: usize,
    second: usize,
) -> Option<FleetPair>
    ensures { result ≡ option_and_then (λ row. slice_get row.items first) (slice_get pairs.now second) }
{
    pairs.get(second)?.get(first).copied()
}

fn push_pair<A: Allocator>(
    lines: &mut String<A>,
    sample: u32,
    pair: FleetPair,
) -> Result<(), AllocError> {
    push_sum(lines, sample, pair.contents)?;
    push_sum(lines, sample, pair.pages)?;
    lines.push_str("\n")
}

/// Appends a sum over contents, and its standard error if it is an estimate.
fn push_sum<A: Allocator>(
    lines: &mut String<A>,
    sample: u32,
    amount: Amount,
) -> Result<(), AllocError> {
    let sum = EstimatedSum::of(amount, sample);
    push_number(lines, sum.value)?;
    if sample > 1 {
        push_number(lines, sum.error)?;
    }
    Ok(())
}

fn push_number<A: Allocator>(lines: &mut String<A>, number: u64) -> Result<(), AllocError> {
    let mut buffer = Buffer::new();
    lines.push_str(",")?;
    lines.push_str(buffer.format(number))
}
