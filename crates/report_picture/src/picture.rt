//! The numbers as a picture.
use crate::guest_bars::push_guest_bars;
use crate::histogram::push_histogram;
use crate::legend::push_legend;
use crate::scale::top_of;
use report_text::Estimate;
use std::alloc::{AllocError, Allocator};

/// The fill of each part of a bar: the parts can be distinguished in black and white, too.
pub(crate) const ZERO: &str = "#fff";

pub(crate) const WITHIN: &str = "url(#within)";

pub(crate) const BETWEEN: &str = "#1f4e79";

pub(crate) const UNSHARED: &str = "#bbb";

/// The hatching of pages that are shared within a guest.
const HATCHING: &str =
    "<defs><pattern id=\"within\" width=\"6\" height=\"6\" patternUnits=\"userSpaceOnUse\" patternTransform=\"rotate(45)\"><rect width=\"6\" height=\"6\" fill=\"#dcecf7\"/><path d=\"M1 0V6\" stroke=\"#222\" stroke-width=\"1.4\"/></pattern></defs>\n";

/// Draws the picture as SVG: a bar for each guest, next to them the copies as a histogram, and a legend.
pub fn picture_text<A: Allocator>(
    alloc: A,
    estimate: &Estimate<'_>,
) -> Result<String<A>, AllocError> {
    let mut text = String::new(alloc);
    let rows = estimate.guests.len().max(estimate.copies.len());
    push_head(&mut text, rows)?;
    text.push_str("<text x=\"16\" y=\"50\" font-size=\"14\">")?;
    estimate.push_sentence(&mut text)?;
    text.push_str("</text>\n")?;
    push_legend(&mut text, estimate.guests)?;
    push_guest_bars(&mut text, estimate.guests)?;
    push_histogram(&mut text, estimate.copies)?;
    text.push_str("</svg>\n")?;
    Ok(text)
}

/// Appends what comes before the panels of a picture with this many rows.
fn push_head<A: Allocator>(text: &mut String<A>, rows: usize) -> Result<(), AllocError> {
    let height = top_of(rows).saturating_add(50);
    write!(
        text,
        "<svg xmlns=\"http://www.w3.org/2000/svg\" width=\"1210\" height=\"{height}\" "
    )?;
    writeln!(
        text,
        "viewBox=\"0 0 1210 {height}\" font-family=\"sans-serif\" font-size=\"12\" fill=\"#000\">"
    )?;
    text.push_str("<title>What sharing equal pages would reclaim</title>\n")?;
    text.push_str(HATCHING)?;
    writeln!(
        text,
        "<rect width=\"1210\" height=\"{height}\" fill=\"#fff\"/>"
    )?;
    text.push_str(
        "<text x=\"16\" y=\"28\" font-size=\"18\" font-weight=\"bold\">What sharing equal pages would reclaim</text>\n",
    )
}
