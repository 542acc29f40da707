//! The rows of a fleet: with a sample of 1 its numbers are known, and else most of them are estimates.
use crate::estimated_sum::EstimatedSum;
use crate::fleet_parts::{parts_of, within_of};
use crate::hosts::{FleetHost, HostRows, host_rows};
use crate::report::{Report, Source};
use crate::rows::{ClassErrors, ClassRow, GuestErrors, GuestRow, TotalErrors, TotalRow};
use crate::{Fleet, FleetLine};
use fleet_census::{FleetClass, FleetTotal};
use std::alloc::{AllocError, Allocator};

impl<'a> Fleet<'a> {
    /// Makes the report of a fleet. It shows the numbers by host if there are at least two.
    pub fn report<A: Allocator + Clone>(
        &self,
        alloc: A,
        hosts: &[FleetHost<'a>],
    ) -> Result<Report<'a, A>, AllocError> {
        let sample = self.sample;
        let total = total_row(sample, &self.total);
        Ok(Report {
            source: Source::Digests,
            sampling: self.sampling(),
            guests: guest_rows(alloc.clone()?, sample, self.guests)?,
            hosts: rows_by_host(alloc.clone()?, sample, hosts, &total)?,
            total,
            copies: class_rows(alloc, sample, self.copies)?,
        })
    }
}

/// Makes the rows of hosts, if there are at least two.
fn rows_by_host<'a, A: Allocator>(
    alloc: A,
    sample: u32,
    hosts: &[FleetHost<'a>],
    total: &TotalRow,
) -> Result<Option<HostRows<'a, A>>, AllocError> {
    if hosts.len() < 2 {
        return Ok(None);
    }
    Ok(Some(host_rows(alloc, sample, hosts, total)?))
}

/// Returns the standard errors of numbers that are estimates.
fn if_sampled<T: Drop>(sample: u32, errors: T) -> Option<T> {
    if sample > 1 { Some(errors) } else { None }
}

fn guest_rows<'a, A: Allocator>(
    alloc: A,
    sample: u32,
    guests: &[FleetLine<'a>],
) -> Result<Vec<GuestRow<'a>, A>, AllocError> {
    let mut rows = Vec::with_capacity(alloc, guests.len())?;
    for guest in guests {
        rows.push(guest_row(sample, guest))?;
    }
    Ok(rows)
}

fn guest_row<'a>(sample: u32, guest: &FleetLine<'a>) -> GuestRow<'a> {
    let numbers = guest.numbers;
    let distinct = EstimatedSum::of(numbers.distinct, sample);
    let shared = EstimatedSum::of(numbers.shared, sample);
    let alone = EstimatedSum::of(numbers.alone, sample);
    let errors = GuestErrors {
        distinct: distinct.error,
        shared: shared.error,
        alone: alone.error,
    };
    GuestRow {
        image: None,
        guest: Some(guest.name()),
        salt: guest.salt(),
        pages: numbers.pages,
        zero: numbers.zero,
        distinct: distinct.value,
        shared: shared.value,
        alone: alone.value,
        errors: if_sampled(sample, errors),
    }
}

pub(crate) fn total_row(sample: u32, total: &FleetTotal) -> TotalRow {
    let shared = EstimatedSum::of(total.shared, sample);
    let frames = EstimatedSum::of(total.frames, sample);
    let reclaimed = EstimatedSum::of(total.reclaimed, sample);
    let between = EstimatedSum::of(total.between, sample);
    let errors = TotalErrors {
        shared: shared.error,
        frames: frames.error,
        reclaimed: reclaimed.error,
        between: between.error,
        within: EstimatedSum::of(within_of(total), sample).error,
    };
    TotalRow {
        pages: total.pages,
        zero: total.zero,
        shared: shared.value,
        frames: frames.value,
        reclaimed: reclaimed.value,
        zero_reclaimed: total.zero_reclaimed,
        between: between.value,
        parts: parts_of(total, sample),
        errors: if_sampled(sample, errors),
    }
}

fn class_rows<A: Allocator>(
    alloc: A,
    sample: u32,
    copies: &[FleetClass],
) -> Result<Vec<ClassRow, A>, AllocError> {
    let mut rows = Vec::with_capacity(alloc, copies.len())?;
    for class in copies {
        rows.push(class_row(sample, class))?;
    }
    Ok(rows)
}

fn class_row(sample: u32, class: &FleetClass) -> ClassRow {
    let contents = EstimatedSum::of(class.contents, sample);
    let pages = EstimatedSum::of(class.pages, sample);
    let errors = ClassErrors {
        contents: contents.error,
        pages: pages.error,
    };
    ClassRow {
        from: class.from,
        to: class.to,
        contents: contents.value,
        pages: pages.value,
        errors: if_sampled(sample, errors),
    }
}
