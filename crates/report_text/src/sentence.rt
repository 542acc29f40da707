//! The sentence that sums up the numbers.
ghost use Rattle.std.specs.Prelude.{◌≤◌};

use crate::rows::TotalRow;
use crate::{Estimate, Tenths, in_units, per_mille, scale_for, shares_of};
use std::alloc::{AllocError, Allocator};

impl Estimate<'_> {
    /// Appends the sentence that sums up the estimate, without a line feed.
    pub fn push_sentence<A: Allocator>(&self, text: &mut String<A>) -> Result<(), AllocError> {
        push_sentence(text, &self.total_row(), "")
    }
}

/// Appends the sentence, without a line feed: what could be reclaimed, and its parts, which add up to it. Below 10 MiB it has
/// tenths of a MiB, and from there on whole MiB. Each estimate is followed by its standard error. `place` says where it could, if that has to be
/// said.
pub(crate) fn push_sentence<A: Allocator>(
    text: &mut String<A>,
    total: &TotalRow,
    place: &str,
) -> Result<(), AllocError> {
    let scale = scale_for(total.reclaimed);
    let shares = shares_of(scale, &total.parts);
    let [of_whole, of_between, of_within] = errors_of(total);
    push_share(text, scale, shares.whole, of_whole)?;
    text.push_str(" of ")?;
    push_known(text, scale, in_units(scale, total.pages))?;
    let part = per_mille(total.reclaimed, total.pages);
    let (whole, tenth) = (part / 10, part % 10);
    write!(text, " MiB could be reclaimed{place} ({whole}.{tenth} %): ")?;
    push_known(text, scale, shares.zeros)?;
    text.push_str(" zeros, ")?;
    push_share(text, scale, shares.between, of_between)?;
    text.push_str(" between guests, ")?;
    push_share(text, scale, shares.within, of_within)?;
    text.push_str(" within guests")
}

/// Returns the standard errors, in pages, of what could be reclaimed, and of its parts between guests and within guests.
fn errors_of(total: &TotalRow) -> [Option<u64>; 3] {
    match total.errors {
        Some(errors) => [
            Some(errors.reclaimed),
            Some(errors.between),
            Some(errors.within),
        ],
        None => [None, None, None],
    }
}

/// Appends a number of units of which a MiB has `scale`, as MiB: with one decimal if they are tenths.
fn push_known<A: Allocator>(
    text: &mut String<A>,
    scale: u32,
    units: u64,
) -> Result<(), AllocError> {
    if scale == 10 {
        let tenths = Tenths(units);
        write!(text, "{tenths}")
    } else {
        write!(text, "{units}")
    }
}

/// Appends such a number, and its standard error, if there is one.
fn push_share<A: Allocator>(
    text: &mut String<A>,
    scale: u32,
    units: u64,
    error: Option<u64>,
) -> Result<(), AllocError>
    requires { scale ≤ 10 }
{
    push_known(text, scale, units)?;
    let Some(pages) = error else {
        return Ok(());
    };
    text.push_str(" (+- ")?;
    push_known(text, scale, in_units(scale, pages))?;
    text.push_str(")")
}
