//! The picture's histogram of copies.
use crate::picture::UNSHARED;
use crate::scale::Scale;
use page_census::CopiesClass;
use std::alloc::{AllocError, Allocator};

/// Appends a bar for each class of copies, and their axis.
pub(crate) fn push_histogram<A: Allocator>(
    text: &mut String<A>,
    copies: &[CopiesClass],
) -> Result<(), AllocError> {
    let scale = Scale::new(826, 240, most_pages(copies));
    text.push_str(
        "<text x=\"660\" y=\"172\" font-size=\"13\" font-weight=\"bold\">How many copies contents have</text>\n",
    )?;
    scale.push_axis(
        text,
        copies.len(),
        "memory of the pages with so many copies",
    )?;
    for (row, class) in copies.iter().enumerate() {
        push_class(text, scale, row, class)?;
    }
    Ok(())
}

/// Returns the most pages that a class has.
fn most_pages(copies: &[CopiesClass]) -> u64 {
    let mut most = 0;
    for class in copies {
        most = most.max(u64::from(class.pages));
    }
    most
}

fn push_class<A: Allocator>(
    text: &mut String<A>,
    scale: Scale,
    row: usize,
    class: &CopiesClass,
) -> Result<(), AllocError> {
    let (from, to, contents) = (class.from, class.to, class.contents);
    scale.push_before(text, row)?;
    if from == to {
        writeln!(text, "{from}</text>")?;
    } else {
        writeln!(text, "{from} to {to}</text>")?;
    }
    let pages = u64::from(class.pages);
    scale.push_bar(text, row, 0, pages, UNSHARED)?;
    scale.push_behind(text, row, pages)?;
    let noun = if contents == 1 { "content" } else { "contents" };
    writeln!(text, "{contents} {noun}</text>")
}
