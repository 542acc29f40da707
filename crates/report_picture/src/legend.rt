//! The picture's legend.
use crate::parts_of;
use crate::picture::{BETWEEN, UNSHARED, WITHIN, ZERO};
use crate::with_unit::WithUnit;
use report_text::GuestLine;
use std::alloc::{AllocError, Allocator};

/// The names of the bars' parts, and what the legend says about them.
const OF_ZERO: (&str, &str) = ("zeros", "");

const OF_WITHIN: (&str, &str) = (
    "shared within the guest",
    ": pages whose content another page of the guest has",
);

const OF_BETWEEN: (&str, &str) = (
    "shared between guests",
    ": pages whose content a page of another guest has, and no other one of the guest itself",
);

const OF_UNSHARED: (&str, &str) = ("unshared", ": pages whose content occurs once");

/// The pages of each part, summed over the guests.
#[derive(Clone, Copy)]
struct Sums {
    zero: u32,
    within: u32,
    between: u32,
    unshared: u32,
}

/// Appends the legend.
pub(crate) fn push_legend<A: Allocator>(
    text: &mut String<A>,
    guests: &[GuestLine<'_>],
) -> Result<(), AllocError> {
    let sums = sums_of(guests);
    push_entry(text, 66, ZERO, OF_ZERO, sums.zero)?;
    push_entry(text, 86, WITHIN, OF_WITHIN, sums.within)?;
    push_entry(text, 106, BETWEEN, OF_BETWEEN, sums.between)?;
    push_entry(text, 126, UNSHARED, OF_UNSHARED, sums.unshared)
}

fn sums_of(guests: &[GuestLine<'_>]) -> Sums {
    let mut sums = Sums {
        zero: 0,
        within: 0,
        between: 0,
        unshared: 0,
    };
    for guest in guests {
        let parts = parts_of(guest, guests);
        sums = Sums {
            zero: sums.zero.saturating_add(parts.zero),
            within: sums.within.saturating_add(parts.within),
            between: sums.between.saturating_add(parts.between),
            unshared: sums.unshared.saturating_add(parts.unshared),
        };
    }
    sums
}

fn push_entry<A: Allocator>(
    text: &mut String<A>,
    top: u32,
    fill: &str,
    (name, said): (&str, &str),
    pages: u32,
) -> Result<(), AllocError> {
    let base = top.saturating_add(11);
    let amount = WithUnit(pages);
    write!(
        text,
        "<rect x=\"16\" y=\"{top}\" width=\"24\" height=\"14\" fill=\"{fill}\" stroke=\"#222\" stroke-width=\"0.6\"/>"
    )?;
    writeln!(
        text,
        "<text x=\"48\" y=\"{base}\">{name} ({amount}){said}</text>"
    )
}
