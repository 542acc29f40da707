//! The picture's bars, one for each guest.
use crate::picture::{BETWEEN, UNSHARED, WITHIN, ZERO};
use crate::scale::Scale;
use crate::with_unit::WithUnit;
use crate::{Parts, parts_of};
use report_text::{GuestLine, ShortName, XmlName};
use std::alloc::{AllocError, Allocator};

/// Appends the bars of all guests and their axis.
pub(crate) fn push_guest_bars<A: Allocator>(
    text: &mut String<A>,
    guests: &[GuestLine<'_>],
) -> Result<(), AllocError> {
    let scale = Scale::new(204, 330, most_pages(guests));
    text.push_str(
        "<text x=\"16\" y=\"172\" font-size=\"13\" font-weight=\"bold\">Memory of each guest</text>\n",
    )?;
    scale.push_axis(text, guests.len(), "memory")?;
    for (row, guest) in guests.iter().enumerate() {
        push_guest(text, scale, row, guest, parts_of(guest, guests))?;
    }
    Ok(())
}

/// Returns the pages of the largest guest.
fn most_pages(guests: &[GuestLine<'_>]) -> u64 {
    let mut most = 0;
    for guest in guests {
        most = most.max(u64::from(guest.numbers.pages));
    }
    most
}

fn push_guest<A: Allocator>(
    text: &mut String<A>,
    scale: Scale,
    row: usize,
    guest: &GuestLine<'_>,
    parts: Parts,
) -> Result<(), AllocError> {
    let (name, short) = (XmlName(guest.image), ShortName(guest.image));
    writeln!(text, "<g><title>{name}</title>")?;
    scale.push_before(text, row)?;
    writeln!(text, "{short} {row:>2}</text>")?;
    let mut from: u64 = 0;
    for (pages, fill) in [
        (parts.zero, ZERO),
        (parts.within, WITHIN),
        (parts.between, BETWEEN),
        (parts.unshared, UNSHARED),
    ] {
        scale.push_bar(text, row, from, u64::from(pages), fill)?;
        from = from.saturating_add(u64::from(pages));
    }
    scale.push_behind(text, row, from)?;
    let amount = WithUnit(guest.numbers.pages);
    writeln!(text, "{amount}</text></g>")
}
