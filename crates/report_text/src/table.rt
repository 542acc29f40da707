//! The numbers as a table for people.
use crate::cells::{
    Cells, Column, digits, push_class_headings, push_contents, push_error, push_estimate,
    push_headings, push_pages, push_units,
};
use crate::hosts_table::push_hosts;
use crate::report::{Report, Sampling, Source};
use crate::rows::{ClassRow, GuestRow, TotalErrors, TotalRow};
use crate::sentence::push_sentence;
use crate::{PlainName, Unit, per_mille, shares_in};
use std::alloc::{AllocError, Allocator};

/// The columns of a guest's line, and those of the line of the total.
const OF_GUESTS: [Column; 5] = [
    Column::Known("memory"),
    Column::Known("zero"),
    Column::Estimated("shared"),
    Column::Estimated("distinct"),
    Column::Estimated("alone"),
];

const OF_TOTAL: [Column; 8] = [
    Column::Known("memory"),
    Column::Known("zero"),
    Column::Estimated("shared"),
    Column::Estimated("frames"),
    Column::Estimated("reclaimed"),
    Column::Known("zero_reclaimed"),
    Column::Estimated("between"),
    Column::Estimated("within"),
];

/// Writes the table: a line for each guest, lines by host if these are shown, one for the total, then the copies, and a sentence that sums up the numbers. That of
/// an estimate ends with how to share the memory. Each line ends with a line feed. If not all contents were kept, the first line
/// says so, and each number that is an estimate has its standard error behind it.
pub fn table_text<A: Allocator, B: Allocator>(
    alloc: A,
    report: &Report<'_, B>,
    unit: Unit,
) -> Result<String<A>, AllocError> {
    let mut text = String::new(alloc);
    let cells = Cells::new(report, unit);
    push_first(&mut text, report.sampling, unit)?;
    push_guest_headings(&mut text, cells, report.source)?;
    push_guests(&mut text, cells, &report.guests)?;
    if let Some(rows) = &report.hosts {
        push_hosts(&mut text, cells, rows, &report.total)?;
    }
    push_total_headings(&mut text, cells)?;
    push_total(&mut text, cells, &report.total)?;
    push_copies(&mut text, cells, &report.copies)?;
    text.push_str("\n")?;
    push_sentences(&mut text, report)?;
    text.push_str(end_of(report.source))?;
    Ok(text)
}

/// Appends what the numbers are.
fn push_first<A: Allocator>(
    text: &mut String<A>,
    sampling: Option<Sampling>,
    unit: Unit,
) -> Result<(), AllocError> {
    if let Some(Sampling { sample, kept }) = sampling {
        writeln!(
            text,
            "An estimate from {kept} contents: zeros, and one in {sample} of the others. Each estimate is followed by its standard error, under \"+-\"."
        )?;
    }
    text.push_str(unit.first_line())
}

fn push_guest_headings<A: Allocator>(
    text: &mut String<A>,
    cells: Cells,
    source: Source,
) -> Result<(), AllocError> {
    text.push_str("guest")?;
    push_headings(text, cells, &OF_GUESTS)?;
    text.push_str(match source {
        Source::Images => "        salt  image\n",
        Source::Digests => "        salt  name\n",
    })
}

fn push_guests<A: Allocator>(
    text: &mut String<A>,
    cells: Cells,
    guests: &[GuestRow<'_>],
) -> Result<(), AllocError> {
    for (number, guest) in guests.iter().enumerate() {
        push_guest(text, cells, number, guest)?;
    }
    Ok(())
}

fn push_guest<A: Allocator>(
    text: &mut String<A>,
    cells: Cells,
    number: usize,
    guest: &GuestRow<'_>,
) -> Result<(), AllocError> {
    let errors = guest.errors.unwrap_or_default();
    write!(text, "{number:>5}")?;
    push_pages(text, cells, guest.pages)?;
    push_pages(text, cells, guest.zero)?;
    push_estimate(text, cells, guest.shared, errors.shared)?;
    push_estimate(text, cells, guest.distinct, errors.distinct)?;
    push_estimate(text, cells, guest.alone, errors.alone)?;
    push_name(text, guest)
}

/// Appends a guest's salt and name; a digest without lines has none.
fn push_name<A: Allocator>(text: &mut String<A>, guest: &GuestRow<'_>) -> Result<(), AllocError> {
    match (guest.salt, guest.name()) {
        (Some(salt), Some(name)) => {
            let name = PlainName(name);
            writeln!(text, "  {salt:>10}  {name}")
        }
        _ => text.push_str("           -  -\n"),
    }
}

fn push_total_headings<A: Allocator>(text: &mut String<A>, cells: Cells) -> Result<(), AllocError> {
    text.push_str("\n     ")?;
    push_headings(text, cells, &OF_TOTAL)?;
    text.push_str("  reclaimed of memory\n")
}

fn push_total<A: Allocator>(
    text: &mut String<A>,
    cells: Cells,
    total: &TotalRow,
) -> Result<(), AllocError> {
    let errors = total.errors.unwrap_or_default();
    text.push_str("total")?;
    push_pages(text, cells, total.pages)?;
    push_pages(text, cells, total.zero)?;
    push_estimate(text, cells, total.shared, errors.shared)?;
    push_estimate(text, cells, total.frames, errors.frames)?;
    push_reclaimed(text, cells, total, &errors)?;
    let part = per_mille(total.reclaimed, total.pages);
    let (whole, tenth) = (part / 10, part % 10);
    writeln!(text, "  {whole:>15}.{tenth} %")
}

/// Appends what could be reclaimed, and its parts, which add up to it in the table's unit.
fn push_reclaimed<A: Allocator>(
    text: &mut String<A>,
    cells: Cells,
    total: &TotalRow,
    errors: &TotalErrors,
) -> Result<(), AllocError> {
    let shares = shares_in(cells.unit, &total.parts);
    push_units(text, cells, shares.whole)?;
    push_error(text, cells, errors.reclaimed)?;
    push_units(text, cells, shares.zeros)?;
    push_units(text, cells, shares.between)?;
    push_error(text, cells, errors.between)?;
    push_units(text, cells, shares.within)?;
    push_error(text, cells, errors.within)
}

fn push_copies<A: Allocator>(
    text: &mut String<A>,
    cells: Cells,
    copies: &[ClassRow],
) -> Result<(), AllocError> {
    push_class_headings(text, cells)?;
    for class in copies {
        push_class(text, cells, class)?;
    }
    Ok(())
}

fn push_class<A: Allocator>(
    text: &mut String<A>,
    cells: Cells,
    class: &ClassRow,
) -> Result<(), AllocError> {
    let errors = class.errors.unwrap_or_default();
    let (from, to, wide) = (class.from, class.to, cells.copies);
    if from == to {
        write!(text, "{from:<wide$}")?;
    } else {
        let start = digits(from).saturating_add(4);
        let left = wide.saturating_sub(start);
        write!(text, "{from} to {to:<left$}")?;
    }
    push_contents(text, cells, class.contents, errors.contents)?;
    push_estimate(text, cells, class.pages, errors.pages)?;
    text.push_str("\n")
}

/// Appends the sentence about all guests. If the numbers are shown by host, the one about the hosts comes before it.
fn push_sentences<A: Allocator, B: Allocator>(
    text: &mut String<A>,
    report: &Report<'_, B>,
) -> Result<(), AllocError> {
    let Some(rows) = &report.hosts else {
        return push_sentence(text, &report.total, "");
    };
    push_sentence(text, &rows.sum, " on the guests' hosts")?;
    text.push_str("\n")?;
    push_sentence(text, &report.total, " if one host had all guests")
}

/// Returns what comes behind the sentence: of images, how to share their memory.
fn end_of(source: Source) -> &'static str {
    match source {
        Source::Images =>
            "\nTo share it: man pageshare-host, or docs/HOST.md in the source tree.\n",
        Source::Digests => "\n",
    }
}
