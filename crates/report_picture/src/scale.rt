//! A panel of the picture: rows, one below the other, and an axis of memory below them.
use report_text::Tenths;
use std::alloc::{AllocError, Allocator};

/// The pixels from the top to the first row, from one row to the next, and the height of a bar.
const FIRST_ROW: u64 = 190;

const ROW: u64 = 20;

const BAR: u64 = 14;

/// Where a bar of a number of pages ends in a panel.
#[derive(Clone, Copy)]
pub(crate) struct Scale {
    /// The pixels to the left of the rows' bars.
    left: u64,
    /// The pixels of the longest bar.
    width: u64,
    /// The pages of the longest bar.
    most: u64,
}

/// Returns the pixels above the row with this number.
pub(crate) fn top_of(row: usize) -> u64 {
    (row as u64).saturating_mul(ROW).saturating_add(FIRST_ROW)
}

impl Scale {
    pub(crate) fn new(left: u64, width: u64, most: u64) -> Scale {
        Scale { left, width, most }
    }

    /// Returns how many tenths of a pixel from the picture's left a bar of these pages ends.
    fn place(&self, pages: u64) -> u64 {
        let along = pages
            .saturating_mul(self.width.saturating_mul(10))
            .checked_div(self.most)
            .unwrap_or(0);
        self.left.saturating_mul(10).saturating_add(along)
    }

    /// Appends the part of a row's bar that begins behind `from` pages and has `pages` pages.
    pub(crate) fn push_bar<A: Allocator>(
        &self,
        text: &mut String<A>,
        row: usize,
        from: u64,
        pages: u64,
        fill: &str,
    ) -> Result<(), AllocError> {
        if pages == 0 {
            return Ok(());
        }
        let start = self.place(from);
        let end = self.place(from.saturating_add(pages));
        let top = top_of(row);
        let (left, width) = (Tenths(start), Tenths(end.saturating_sub(start)));
        writeln!(
            text,
            "<rect x=\"{left}\" y=\"{top}\" height=\"{BAR}\" width=\"{width}\" fill=\"{fill}\" stroke=\"#222\" stroke-width=\"0.6\"/>"
        )
    }

    /// Appends the start of the text behind a row's bar, which has this many pages.
    pub(crate) fn push_behind<A: Allocator>(
        &self,
        text: &mut String<A>,
        row: usize,
        pages: u64,
    ) -> Result<(), AllocError> {
        let base = top_of(row).saturating_add(11);
        let left = Tenths(self.place(pages).saturating_add(50));
        write!(
            text,
            "<text font-family=\"monospace\" font-size=\"11\" stroke=\"#fff\" stroke-width=\"3\" paint-order=\"stroke\" x=\"{left}\" y=\"{base}\">"
        )
    }

    /// Appends the start of the text before a row's bar.
    pub(crate) fn push_before<A: Allocator>(
        &self,
        text: &mut String<A>,
        row: usize,
    ) -> Result<(), AllocError> {
        let base = top_of(row).saturating_add(11);
        let right = self.left.saturating_sub(6);
        write!(
            text,
            "<text font-family=\"monospace\" font-size=\"11\" text-anchor=\"end\" x=\"{right}\" y=\"{base}\">"
        )
    }

    /// Appends the axis below this many rows: marks with numbers, and what they mean. The bars must be drawn over it.
    pub(crate) fn push_axis<A: Allocator>(
        &self,
        text: &mut String<A>,
        rows: usize,
        title: &str,
    ) -> Result<(), AllocError> {
        let step = step_of(self.most);
        for mark in 0..4u64 {
            let pages = step.saturating_mul(mark);
            if pages <= self.most {
                self.push_mark(text, rows, step, pages)?;
            }
        }
        let unit = if step < PAGES { "KiB" } else { "MiB" };
        let base = top_of(rows).saturating_add(34);
        let left = self.left;
        writeln!(
            text,
            "<text x=\"{left}\" y=\"{base}\">{title}, in {unit}</text>"
        )
    }

    /// Appends a mark of the axis and the line above it.
    fn push_mark<A: Allocator>(
        &self,
        text: &mut String<A>,
        rows: usize,
        step: u64,
        pages: u64,
    ) -> Result<(), AllocError> {
        let (low, base) = (
            top_of(rows).saturating_add(2),
            top_of(rows).saturating_add(16),
        );
        let number = if step < PAGES {
            pages.saturating_mul(4)
        } else {
            pages / PAGES
        };
        let place = Tenths(self.place(pages));
        writeln!(
            text,
            "<path stroke=\"#aaa\" d=\"M{place} 186V{low}\"/><text font-size=\"11\" text-anchor=\"middle\" x=\"{place}\" y=\"{base}\">{number}</text>"
        )
    }
}

/// How many pages a MiB has.
const PAGES: u64 = 256;

/// Returns how many pages lie between two marks of an axis: a power of two, so that there are two to four marks.
fn step_of(most: u64) -> u64 {
    match most.checked_ilog2() {
        Some(power) => 1u64.checked_shl(power.saturating_sub(1)).unwrap_or(1),
        None => 1,
    }
}
