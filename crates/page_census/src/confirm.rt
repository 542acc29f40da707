//! The classes of all pages, found by marks and confirmed by several workers.
ghost use Rattle.std.specs.Prelude.{◌≡◌, ◌+◌, ◌*◌, ◌<◌, ◌≤◌, ◌^◌, true, All, IfOk, length, map, slice_index, vec_len};
ghost use Rattle.page_census.specs.Contents.{AreSteady, contents, content_at};
ghost use Rattle.page_census.specs.Classes.{DistinguishedBy, classes_of};
ghost use Rattle.page_census.specs.Fingerprints.{AreClassed, AreConfirmed};

use crate::Guest;
use crate::classes::classes_of;
use crate::compare::Compare;
use crate::fault::LookFault;
use crate::place::is_same_content;
use crate::subject::Subject;
use memory_pages::{PageSource, Workers, new_pages, split_among};
use page_model::Page;
use std::alloc::Allocator;
use std::thread;
use std::thread::Threads;

/// Returns the class of each page. Classes are found by marks, which reads no page, and confirmed by the workers.
/// If different pages have the same mark, classes are found by bytes on one thread instead.
pub(crate) fn find_classes<R: Threads + Sync, S: PageSource, A: Allocator + Clone + Send + Sync>(
    workers: &Workers<'_, R, A>,
    guests: &[Guest<S>],
    marks: &[u64],
) -> Result<Vec<u32, A>, LookFault<S::Fault>>
    requires workers { 1 ≤ workers.now.count }
    requires count { length marks.now ≡ length (contents S.pages guests.now) }
    requires few { length marks.now < 2 ^ 32 }
    requires apart { AreSteady S.is_steady guests.now → DistinguishedBy (contents S.pages guests.now) marks.now }
    ensures len { IfOk result (λ classes. vec_len classes ≡ length marks.now) }
    ensures below { IfOk result (λ classes. All (λ class. class < length marks.now) classes.items) }
    ensures right { IfOk result (λ classes. AreSteady S.is_steady guests.now
        → classes.items ≡ classes_of (contents S.pages guests.now)) }
{
    let classes = classes_of(workers.alloc, guests, marks, Compare::Marks)?;
    if are_confirmed(workers, guests, marks, &classes)? {
        return Ok(classes);
    }
    drop(classes);
    classes_of(workers.alloc, guests, marks, Compare::Bytes)
}

/// Whether the workers find that each page has the content of the first page of its class.
fn are_confirmed<R: Threads + Sync, S: PageSource, A: Allocator + Clone + Send + Sync>(
    workers: &Workers<'_, R, A>,
    guests: &[Guest<S>],
    marks: &[u64],
    classes: &[u32],
) -> Result<bool, LookFault<S::Fault>>
    requires workers { 1 ≤ workers.now.count }
    requires classed { AreClassed (AreSteady S.is_steady guests.now) (contents S.pages guests.now) marks.now classes.now }
    ensures { IfOk result (λ yes. yes ≡ true
        → AreConfirmed (AreSteady S.is_steady guests.now) (contents S.pages guests.now) classes.now
        0 (length (contents S.pages guests.now))) }
{
    let count = classes.len() as u32;
    let split = split_among(workers.count, count);
    let size = split.size;
    let alloc = workers.alloc;
    let part = move |n: usize| -> Result<bool, LookFault<S::Fault>>
        requires { AreClassed (AreSteady S.is_steady guests.now) (contents S.pages guests.now) marks.now classes.now }
        ensures { IfOk result (λ yes. yes ≡ true
            → AreConfirmed (AreSteady S.is_steady guests.entry.now) (contents S.pages guests.entry.now) classes.entry.now
            (size * n) (size * n + size)) }
    { is_part_confirmed(alloc, guests, marks, classes, size, n) };
    let answers = thread::map_indices(workers.rt, alloc.clone()?, split.parts, &part)?;
    for answer in answers {
        if !answer? {
            return Ok(false);
        }
    }
    Ok(true)
}

/// Whether this holds for each page of the part with this number, where each part but the last has `size` pages.
fn is_part_confirmed<S: PageSource, A: Allocator + Clone>(
    alloc: &A,
    guests: &[Guest<S>],
    marks: &[u64],
    classes: &[u32],
    size: u32,
    part: usize,
) -> Result<bool, LookFault<S::Fault>>
    requires classed { AreClassed (AreSteady S.is_steady guests.now) (contents S.pages guests.now) marks.now classes.now }
    ensures { IfOk result (λ yes. yes ≡ true
        → AreConfirmed (AreSteady S.is_steady guests.now) (contents S.pages guests.now) classes.now (size * part) (size * part + size)) }
{
    let mut own = new_pages(alloc.clone()?, 1)?;
    let mut other = new_pages(alloc.clone()?, 1)?;
    let from = part.saturating_mul(size as usize);
    let end = classes.len().min(from.saturating_add(size as usize));
    for number in from..end {
        let first = classes[number];
        if !is_one_content(guests, marks, &mut own, &mut other, number as u32, first)? {
            return Ok(false);
        }
    }
    Ok(true)
}

/// Whether two pages, by their numbers among all, are the same page or have the same content.
fn is_one_content<S: PageSource>(
    guests: &[Guest<S>],
    marks: &[u64],
    own: &mut [Page],
    other: &mut [Page],
    a: u32,
    b: u32,
) -> Result<bool, LookFault<S::Fault>>
    requires buffers { (length own.old ≡ 1) × (length other.old ≡ 1) }
    requires a_within { a < length (contents S.pages guests.now) }
    requires b_within { b < length (contents S.pages guests.now) }
    requires marked { length marks.now ≡ length (contents S.pages guests.now) }
    requires apart { AreSteady S.is_steady guests.now → DistinguishedBy (contents S.pages guests.now) marks.now }
    ensures { IfOk result (λ yes. yes ≡ true → AreSteady S.is_steady guests.now
        → content_at (contents S.pages guests.now) a ≡ content_at (contents S.pages guests.now) b) }
{
    if a == b {
        return Ok(true);
    }
    let mut subject = Subject {
        number: a,
        is_read: false,
    };
    let yes = is_same_content(guests, marks, &mut subject, own, other, b)?;
    Ok(yes)
}
