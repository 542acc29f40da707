//! The numbers of a census.
ghost use Rattle.std.specs.Prelude.{◌≡◌, ◌-◌, ◌<◌, ◌≤◌, ◌^◌, All, IfOk, length};
ghost use Rattle.page_census.specs.Contents.{contents};
ghost use Rattle.page_census.specs.Counted.{counted_guests, counted_numbers, counted_total};
ghost use Rattle.page_census.specs.Numbers.{sum_alone};

use crate::Guest;
use crate::tally::{count_copies, count_shared, count_zero, count_zero_classes};
use memory_pages::PageSource;
use std::alloc::{AllocError, Allocator};

/// What is counted of one guest's pages.
#[derive(Clone, Copy, Debug, PartialEq, Eq)]
pub struct GuestNumbers {
    /// How many pages there are.
    pub pages: u32,
    /// How many pages are all zeros.
    pub zero: u32,
    /// How many different contents the pages have.
    pub distinct: u32,
    /// How many pages have a content that some other page has, too, of any guest.
    pub shared: u32,
    /// How many pages have a content that some other page of the guest has, too.
    pub within: u32,
    /// How many pages sharing within the guest alone would reclaim: pages less different contents.
    pub alone: u32,
}

/// What is counted of the pages of all guests.
#[derive(Clone, Copy, Debug, PartialEq, Eq)]
pub struct TotalNumbers {
    /// How many pages there are.
    pub pages: u32,
    /// How many pages are all zeros.
    pub zero: u32,
    /// How many pages have a content that some other page has, too.
    pub shared: u32,
    /// How many different contents all pages have.
    pub frames: u32,
    /// How many pages sharing would reclaim: pages less frames.
    pub reclaimed: u32,
    /// How many of the pages to reclaim are all zeros: pages of zeros less the different salts of these.
    pub zero_reclaimed: u32,
    /// How many pages only sharing between guests reclaims: pages to reclaim less those that the guests reclaim alone.
    pub between: u32,
}

/// Returns the numbers of pages from their marks and classes. `copies` has how often each class occurs among all pages.
pub(crate) fn guest_numbers<A: Allocator>(
    alloc: A,
    copies: &[u32],
    marks: &[u64],
    classes: &[u32],
) -> Result<GuestNumbers, AllocError>
    requires below { All (λ class. class < length copies.now) classes.now }
    requires few { length classes.now < 2 ^ 32 }
    requires same { length marks.now ≡ length classes.now }
    ensures { IfOk result (λ numbers. numbers ≡ counted_numbers copies.now marks.now classes.now) }
{
    let own = count_copies(alloc, copies.len(), classes)?;
    let pages = classes.len() as u32;
    Ok(GuestNumbers {
        pages,
        zero: count_zero(marks),
        distinct: own.distinct,
        shared: count_shared(copies, classes),
        within: count_shared(&own.copies, classes),
        alone: pages - own.distinct,
    })
}

/// Returns the numbers of each guest, from the marks and classes of all pages.
pub(crate) fn numbers_of<S: PageSource, A: Allocator + Clone>(
    alloc: &A,
    guests: &[Guest<S>],
    copies: &[u32],
    marks: &[u64],
    classes: &[u32],
) -> Result<Vec<GuestNumbers, A>, AllocError>
    requires below { All (λ class. class < length copies.now) classes.now }
    requires few { length classes.now < 2 ^ 32 }
    requires marks { length marks.now ≡ length classes.now }
    requires count { length classes.now ≡ length (contents S.pages guests.now) }
    ensures { IfOk result (λ numbers. numbers.items ≡ counted_guests S.pages copies.now guests.now marks.now classes.now) }
{
    let mut numbers = Vec::with_capacity(alloc.clone()?, guests.len())?;
    let mut start = 0;
    for guest in 0..guests.len() {
        let end = start + guests[guest].source.count() as usize;
        let own = guest_numbers(
            alloc.clone()?,
            copies,
            &marks[start..end],
            &classes[start..end],
        )?;
        numbers.push_reserved(own);
        start = end;
    }
    Ok(numbers)
}

/// Returns the pages to reclaim less those that each guest reclaims alone.
fn less_alone(reclaimed: u32, numbers: &[GuestNumbers]) -> u32
    ensures { result ≡ reclaimed - sum_alone numbers.now }
{
    let mut left = reclaimed;
    for guest in numbers {
        left = left.saturating_sub(guest.alone);
    }
    left
}

/// Returns the numbers in total, from the marks and classes of all pages and the numbers of each guest. `copies` has
/// how often each class occurs, and `frames` is how many occur.
pub(crate) fn total_of(
    copies: &[u32],
    frames: u32,
    marks: &[u64],
    classes: &[u32],
    numbers: &[GuestNumbers],
) -> TotalNumbers
    requires below { All (λ class. class < length copies.now) classes.now }
    requires few { length classes.now < 2 ^ 32 }
    requires marks { length marks.now ≡ length classes.now }
    requires copies { length copies.now ≡ length classes.now }
    requires frames { frames ≤ length classes.now }
    ensures { result ≡ counted_total copies.now frames marks.now classes.now numbers.now }
{
    let pages = classes.len() as u32;
    let zero = count_zero(marks);
    let reclaimed = pages - frames;
    TotalNumbers {
        pages,
        zero,
        shared: count_shared(copies, classes),
        frames,
        reclaimed,
        zero_reclaimed: zero.saturating_sub(count_zero_classes(copies, marks)),
        between: less_alone(reclaimed, numbers),
    }
}
