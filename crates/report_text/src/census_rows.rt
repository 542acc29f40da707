//! The rows of an estimate, whose numbers are all known.
use crate::report::{Report, Source};
use crate::rows::{ClassRow, GuestRow, TotalRow};
use crate::{Estimate, GuestLine, Reclaimed};
use page_census::CopiesClass;
use std::alloc::{AllocError, Allocator};

impl<'a> Estimate<'a> {
    /// Makes the report of an estimate.
    pub fn report<A: Allocator + Clone>(&self, alloc: A) -> Result<Report<'a, A>, AllocError> {
        Ok(Report {
            source: Source::Images,
            sampling: None,
            guests: guest_rows(alloc.clone()?, self.guests)?,
            hosts: None,
            total: self.total_row(),
            copies: class_rows(alloc, self.copies)?,
        })
    }

    /// Returns the numbers in total.
    pub(crate) fn total_row(&self) -> TotalRow {
        let total = self.total;
        TotalRow {
            pages: u64::from(total.pages),
            zero: u64::from(total.zero),
            shared: u64::from(total.shared),
            frames: u64::from(total.frames),
            reclaimed: u64::from(total.reclaimed),
            zero_reclaimed: u64::from(total.zero_reclaimed),
            between: u64::from(total.between),
            parts: Reclaimed::of(&total, self.guests),
            errors: None,
        }
    }
}

fn guest_rows<'a, A: Allocator>(
    alloc: A,
    guests: &[GuestLine<'a>],
) -> Result<Vec<GuestRow<'a>, A>, AllocError> {
    let mut rows = Vec::with_capacity(alloc, guests.len())?;
    for guest in guests {
        rows.push(guest_row(guest))?;
    }
    Ok(rows)
}

fn guest_row<'a>(guest: &GuestLine<'a>) -> GuestRow<'a> {
    let numbers = guest.numbers;
    GuestRow {
        image: Some(guest.image),
        guest: None,
        salt: Some(guest.salt),
        pages: u64::from(numbers.pages),
        zero: u64::from(numbers.zero),
        distinct: u64::from(numbers.distinct),
        shared: u64::from(numbers.shared),
        alone: u64::from(numbers.alone),
        errors: None,
    }
}

fn class_rows<A: Allocator>(
    alloc: A,
    copies: &[CopiesClass],
) -> Result<Vec<ClassRow, A>, AllocError> {
    let mut rows = Vec::with_capacity(alloc, copies.len())?;
    for class in copies {
        rows.push(class_row(class))?;
    }
    Ok(rows)
}

fn class_row(class: &CopiesClass) -> ClassRow {
    ClassRow {
        from: u64::from(class.from),
        to: u64::from(class.to),
        contents: u64::from(class.contents),
        pages: u64::from(class.pages),
        errors: None,
    }
}
