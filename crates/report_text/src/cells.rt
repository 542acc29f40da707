//! The cells of the table.
use crate::report::{Report, Source};
use crate::rows::{ClassRow, TotalRow};
use crate::{Unit, in_units};
use std::alloc::{AllocError, Allocator};

/// The table's unit and its columns' widths. If the numbers are estimates, a column for the standard error follows each column of
/// estimates.
#[derive(Clone, Copy)]
pub(crate) struct Cells {
    /// Whether the numbers are estimates.
    is_sampled: bool,
    pub(crate) unit: Unit,
    /// The width of a column of memory.
    width: usize,
    /// The width of the column of copies.
    pub(crate) copies: usize,
    /// The width of the column of contents.
    contents: usize,
}

/// A column, with its heading.
#[derive(Clone, Copy)]
pub(crate) enum Column {
    /// Numbers that are known.
    Known(&'static str),
    /// Numbers that are estimates if a sample was taken.
    Estimated(&'static str),
}

/// The length of the longest heading.
const LONGEST: usize = 14;

/// The least width of the column of copies. It fits every estimate, which has fewer than 2^32 pages.
const COPIES: usize = 24;

/// Returns how many decimal digits a number has.
pub(crate) fn digits(number: u64) -> usize {
    match number.checked_ilog10() {
        Some(power) => power as usize + 1,
        None => 1,
    }
}

/// Returns the greatest number of pages in the table. It is one of the totals, of which all other numbers are parts.
fn greatest(total: &TotalRow) -> u64 {
    let errors = total.errors.unwrap_or_default();
    let mut most = total.pages;
    for (pages, error) in [
        (total.shared, errors.shared),
        (total.frames, errors.frames),
        (total.reclaimed, errors.reclaimed),
        (total.between, errors.between),
    ] {
        most = most.max(pages).max(error);
    }
    most
}

/// Returns a width that fits the copies of each class: none has more than the last.
fn copies_width(source: Source, copies: &[ClassRow]) -> usize {
    match source {
        Source::Images => COPIES,
        Source::Digests => {
            let most = copies.last().map_or(0, |class| class.to);
            digits(most).saturating_mul(2).saturating_add(5).max(COPIES)
        }
    }
}

impl Cells {
    /// Returns cells that fit all numbers.
    pub(crate) fn new<A: Allocator>(report: &Report<'_, A>, unit: Unit) -> Cells {
        let most = match &report.hosts {
            Some(rows) => greatest(&report.total).max(greatest(&rows.sum)),
            None => greatest(&report.total),
        };
        let width = match unit {
            Unit::Mebibytes => digits(in_units(1, most)).saturating_add(2),
            Unit::Pages => digits(most),
        };
        Cells {
            is_sampled: report.sampling.is_some(),
            unit,
            width: width.max(LONGEST),
            copies: copies_width(report.source, &report.copies),
            contents: digits(most).saturating_add(2).max(12),
        }
    }
}

fn push_heading<A: Allocator>(
    text: &mut String<A>,
    cells: Cells,
    heading: &str,
) -> Result<(), AllocError> {
    let wide = cells.width;
    write!(text, "  {heading:>wide$}")
}

/// Appends the heading of a column, followed by that of the standard errors if the column has estimates.
fn push_column<A: Allocator>(
    text: &mut String<A>,
    cells: Cells,
    column: Column,
) -> Result<(), AllocError> {
    match column {
        Column::Known(heading) => push_heading(text, cells, heading),
        Column::Estimated(heading) => {
            push_heading(text, cells, heading)?;
            if cells.is_sampled {
                push_heading(text, cells, "+-")?;
            }
            Ok(())
        }
    }
}

/// Appends the headings of columns.
pub(crate) fn push_headings<A: Allocator>(
    text: &mut String<A>,
    cells: Cells,
    columns: &[Column],
) -> Result<(), AllocError> {
    for column in columns {
        push_column(text, cells, *column)?;
    }
    Ok(())
}

/// Appends a number of pages, in the table's unit.
pub(crate) fn push_pages<A: Allocator>(
    text: &mut String<A>,
    cells: Cells,
    pages: u64,
) -> Result<(), AllocError> {
    push_units(
        text,
        cells,
        match cells.unit {
            Unit::Mebibytes => in_units(10, pages),
            Unit::Pages => pages,
        },
    )
}

/// Appends a number of units: of tenths of a MiB, with one decimal, or of pages.
pub(crate) fn push_units<A: Allocator>(
    text: &mut String<A>,
    cells: Cells,
    units: u64,
) -> Result<(), AllocError> {
    match cells.unit {
        Unit::Mebibytes => {
            let (whole, tenth) = (units / 10, units % 10);
            let wide = cells.width.saturating_sub(2);
            write!(text, "  {whole:>wide$}.{tenth}")
        }
        Unit::Pages => {
            let wide = cells.width;
            write!(text, "  {units:>wide$}")
        }
    }
}

/// Appends a standard error in pages, if the numbers are estimates.
pub(crate) fn push_error<A: Allocator>(
    text: &mut String<A>,
    cells: Cells,
    pages: u64,
) -> Result<(), AllocError> {
    if cells.is_sampled {
        push_pages(text, cells, pages)?;
    }
    Ok(())
}

/// Appends a number of pages, and its standard error if it is an estimate.
pub(crate) fn push_estimate<A: Allocator>(
    text: &mut String<A>,
    cells: Cells,
    pages: u64,
    error: u64,
) -> Result<(), AllocError> {
    push_pages(text, cells, pages)?;
    push_error(text, cells, error)
}

/// Appends the headings of a class's columns.
pub(crate) fn push_class_headings<A: Allocator>(
    text: &mut String<A>,
    cells: Cells,
) -> Result<(), AllocError> {
    let (heading, contents, error) = ("copies", "contents", "+-");
    let (left, wide) = (cells.copies, cells.contents);
    write!(text, "\n{heading:<left$}{contents:>wide$}")?;
    if cells.is_sampled {
        write!(text, "{error:>wide$}")?;
    }
    push_column(text, cells, Column::Estimated("memory"))?;
    text.push_str("\n")
}

/// Appends a number of contents, and its standard error if it is an estimate.
pub(crate) fn push_contents<A: Allocator>(
    text: &mut String<A>,
    cells: Cells,
    contents: u64,
    error: u64,
) -> Result<(), AllocError> {
    let wide = cells.contents;
    write!(text, "{contents:>wide$}")?;
    if cells.is_sampled {
        write!(text, "{error:>wide$}")?;
    }
    Ok(())
}
