//! The part of the table that is by host.
use crate::cells::{Cells, Column, push_estimate, push_headings, push_pages};
use crate::hosts::HostRows;
use crate::rows::TotalRow;
use crate::{PlainName, per_mille};
use std::alloc::{AllocError, Allocator};

/// The columns of a host's line.
const OF_HOSTS: [Column; 5] = [
    Column::Known("memory"),
    Column::Known("zero"),
    Column::Estimated("shared"),
    Column::Estimated("frames"),
    Column::Estimated("reclaimed"),
];

/// Appends a line for each host, one for the sum over all hosts, and one for all guests in one pool.
pub(crate) fn push_hosts<A: Allocator, B: Allocator>(
    text: &mut String<A>,
    cells: Cells,
    rows: &HostRows<'_, B>,
    pool: &TotalRow,
) -> Result<(), AllocError> {
    text.push_str("\n host  guests")?;
    push_headings(text, cells, &OF_HOSTS)?;
    text.push_str("  reclaimed of memory  name\n")?;
    let mut guests: usize = 0;
    for (number, host) in rows.hosts.iter().enumerate() {
        write!(text, "{number:>5}")?;
        push_numbers(text, cells, host.guests, &host.total)?;
        let name = PlainName(host.host);
        writeln!(text, "  {name}")?;
        guests = guests.saturating_add(host.guests);
    }
    text.push_str("  sum")?;
    push_numbers(text, cells, guests, &rows.sum)?;
    text.push_str("  all hosts\n pool")?;
    push_numbers(text, cells, guests, pool)?;
    text.push_str("  one host with all guests\n")
}

/// Appends how many guests there are, their numbers, and how much of their memory could be reclaimed.
fn push_numbers<A: Allocator>(
    text: &mut String<A>,
    cells: Cells,
    guests: usize,
    total: &TotalRow,
) -> Result<(), AllocError> {
    let errors = total.errors.unwrap_or_default();
    write!(text, "  {guests:>6}")?;
    push_pages(text, cells, total.pages)?;
    push_pages(text, cells, total.zero)?;
    push_estimate(text, cells, total.shared, errors.shared)?;
    push_estimate(text, cells, total.frames, errors.frames)?;
    push_estimate(text, cells, total.reclaimed, errors.reclaimed)?;
    let part = per_mille(total.reclaimed, total.pages);
    let (whole, tenth) = (part / 10, part % 10);
    write!(text, "  {whole:>15}.{tenth} %")
}
