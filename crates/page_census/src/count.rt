//! The census.
ghost use Rattle.std.specs.Prelude.{◌≡◌, ◌↔◌, ◌+◌, ◌≤◌, ◌<◌, ◌^◌, Err, IfOk, length};
ghost use Rattle.page_census.specs.Contents.{AreSteady, contents};
ghost use Rattle.page_census.specs.Fewest.{AreFewest};
ghost use Rattle.page_census.specs.Numbers.{copies_table, numbers_of, sum_alone, total_numbers};
ghost use Rattle.page_census.specs.declared.fault.CensusFault.{CensusFault};

use crate::confirm::find_classes;
use crate::fault::LookFault;
use crate::marks::{count_pages, marks_of_all};
use crate::numbers::{numbers_of, total_of};
use crate::table::copies_table;
use crate::tally::count_copies;
use crate::{CensusFault, CopiesClass, Guest, GuestNumbers, TotalNumbers};
use memory_pages::{PageSource, Progress, Workers};
use page_digest::PageHash;
use std::alloc::Allocator;
use std::thread::Threads;

/// What is counted of the pages of all guests.
#[derive(Drop)]
pub struct CensusNumbers<A: Allocator> {
    /// The numbers of each guest.
    pub guests: Vec<GuestNumbers, A>,
    /// The numbers in total.
    pub total: TotalNumbers,
    /// How many contents have 1 copy, 2, 3 to 4, 5 to 8, and so on in powers of two: only the classes that have
    /// contents, rising.
    pub copies: Vec<CopiesClass, A>,
}

/// Counts the pages of the guests, guest 0 first. `workers` workers read each source once in order, and read pages that may be
/// equal once more to compare them. One thread reads them again if different pages of guests with the same salt have the same
/// hash.
///
/// The result holds if each source is steady: if each of its reads returns the same bytes.
pub fn census<
    R: Threads + Sync,
    H: PageHash,
    S: PageSource,
    P: Progress,
    A: Allocator + Clone + Send + Sync,
>(
    rt: &R,
    alloc: A,
    workers: u32,
    hash: &H,
    guests: &[Guest<S>],
    progress: &P,
) -> Result<CensusNumbers<A>, CensusFault<S::Fault>>
    requires { 1 ≤ workers }
    ensures too_many { (result ≡ Err CensusFault.TooManyPages) ↔ (2 ^ 32 ≤ length (contents S.pages guests.now)) }
    ensures few { IfOk result (λ _. length (contents S.pages guests.now) < 2 ^ 32) }
    ensures guests { IfOk result (λ census. AreSteady S.is_steady guests.now → census.guests.items ≡ numbers_of S.pages guests.now) }
    ensures total { IfOk result (λ census. AreSteady S.is_steady guests.now → census.total ≡ total_numbers S.pages guests.now) }
    ensures fewest { IfOk result (λ census. AreSteady S.is_steady guests.now
        → AreFewest (contents S.pages guests.now) census.total.frames) }
    ensures copies { IfOk result (λ census. AreSteady S.is_steady guests.now
        → census.copies.items ≡ copies_table (contents S.pages guests.now)) }
    ensures between { IfOk result (λ census. AreSteady S.is_steady guests.now
        → census.total.reclaimed ≡ census.total.between + sum_alone census.guests.items) }
{
    let Some(count) = count_pages(guests) else {
        return Err(CensusFault::TooManyPages);
    };
    match count_contents(rt, alloc, workers, hash, guests, progress, count) {
        Ok(census) => Ok(census),
        Err(fault) => Err(CensusFault::from(fault)),
    }
}

/// Counts the pages of the guests, whose number is known.
fn count_contents<
    R: Threads + Sync,
    H: PageHash,
    S: PageSource,
    P: Progress,
    A: Allocator + Clone + Send + Sync,
>(
    rt: &R,
    alloc: A,
    workers: u32,
    hash: &H,
    guests: &[Guest<S>],
    progress: &P,
    count: u32,
) -> Result<CensusNumbers<A>, LookFault<S::Fault>>
    requires workers { 1 ≤ workers }
    requires count { count ≡ length (contents S.pages guests.now) }
    ensures guests { IfOk result (λ census. AreSteady S.is_steady guests.now → census.guests.items ≡ numbers_of S.pages guests.now) }
    ensures total { IfOk result (λ census. AreSteady S.is_steady guests.now → census.total ≡ total_numbers S.pages guests.now) }
    ensures fewest { IfOk result (λ census. AreSteady S.is_steady guests.now
        → AreFewest (contents S.pages guests.now) census.total.frames) }
    ensures copies { IfOk result (λ census. AreSteady S.is_steady guests.now
        → census.copies.items ≡ copies_table (contents S.pages guests.now)) }
    ensures between { IfOk result (λ census. AreSteady S.is_steady guests.now
        → census.total.reclaimed ≡ census.total.between + sum_alone census.guests.items) }
{
    let workers = Workers {
        rt,
        alloc: &alloc,
        count: workers,
    };
    let marks = marks_of_all(&workers, hash, guests, progress, count)?;
    let classes = find_classes(&workers, guests, &marks)?;
    let tally = count_copies(alloc.clone()?, classes.len(), &classes)?;
    let numbers = numbers_of(&alloc, guests, &tally.copies, &marks, &classes)?;
    let total = total_of(&tally.copies, tally.distinct, &marks, &classes, &numbers);
    let copies = copies_table(alloc, &tally.copies)?;
    Ok(CensusNumbers {
        guests: numbers,
        total,
        copies,
    })
}
