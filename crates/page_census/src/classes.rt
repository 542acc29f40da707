//! The class of each page: the number of the first page with its content.
ghost use Rattle.std.specs.Prelude.{◌≡◌, ◌+◌, ◌≤◌, ◌<◌, ◌^◌, ◌%◌, ◌++◌, ◌/◌, [], ◌∷◌, All, IfOk};
ghost use Rattle.std.specs.Prelude.{length, map, replicate, vec_capacity, vec_len, slice_index};
ghost use Rattle.page_census.specs.Contents.{AreSteady, contents};
ghost use Rattle.page_census.specs.Classes.{Classed, DistinguishedBy, class_at, classes_of, headed};
ghost use Rattle.page_census.specs.Fingerprints.{Sure, seen};

use crate::Guest;
use crate::compare::Compare;
use crate::fault::LookFault;
use crate::place::is_same;
use crate::subject::Subject;
use memory_pages::{PageSource, new_pages};
use page_model::Page;
use std::alloc::{AllocError, Allocator};

/// The classes of the first pages. The first page of a class is found through the bucket of its mark.
#[derive(Drop)]
pub(crate) struct Classes<A: Allocator> {
    /// The class of each page so far.
    pub(crate) classes: Vec<u32, A>,
    /// For each page, the head of its bucket when the page came.
    pub(crate) links: Vec<u32, A>,
    /// For each bucket, one more than the number of the last page in it that is the first of its class, or 0.
    pub(crate) heads: Vec<u32, A>,
}

/// Returns the class of the next page.
fn class_of_next<S: PageSource, A: Allocator>(
    guests: &[Guest<S>],
    marks: &[u64],
    by: Compare,
    own: &mut [Page],
    other: &mut [Page],
    known: &Classes<A>,
) -> Result<u32, LookFault<S::Fault>>
    requires buffers { (length own.old ≡ 1) × (length other.old ≡ 1) }
    requires classed { Classed (Sure by (AreSteady S.is_steady guests.now)) (seen by (contents S.pages guests.now) marks.now) marks.now
        known.now.classes.items known.now.links.items known.now.heads.items }
    requires marked { length marks.now ≡ length (contents S.pages guests.now) }
    requires apart { AreSteady S.is_steady guests.now → DistinguishedBy (contents S.pages guests.now) marks.now }
    requires more { vec_len known.now.classes < length (contents S.pages guests.now) }
    ensures below { IfOk result (λ class. class ≤ vec_len known.now.classes) }
    ensures right { IfOk result (λ class. Sure by (AreSteady S.is_steady guests.now)
        → class ≡ class_at (seen by (contents S.pages guests.now) marks.now) (vec_len known.now.classes)) }
{
    let number = known.classes.len() as u32;
    let bucket = marks[number as usize] % known.heads.len() as u64;
    let mut subject = Subject {
        number,
        is_read: false,
    };
    let mut link = known.heads[bucket as usize];
    while link != 0 {
        let first = link - 1;
        if is_same(guests, marks, by, &mut subject, own, other, first)? {
            return Ok(first);
        }
        link = known.links[first as usize];
    }
    Ok(number)
}

/// Notes the class of the next page.
fn note<A: Allocator>(known: &mut Classes<A>, mark: u64, class: u32)
    requires buckets { 1 ≤ vec_len known.old.heads }
    requires room { (vec_len known.old.classes < vec_capacity known.old.classes)
        × (vec_len known.old.links < vec_capacity known.old.links) }
    requires few { vec_len known.old.classes + 1 < 2 ^ 32 }
    ensures classes { known.new.classes.items ≡ known.old.classes.items ++ class ∷ [] }
    ensures links { known.new.links.items
        ≡ known.old.links.items ++ slice_index known.old.heads.items (mark % length known.old.heads.items) ∷ [] }
    ensures heads { known.new.heads.items
        ≡ headed known.old.heads.items (mark % length known.old.heads.items) (length known.old.classes.items) class }
    ensures len { vec_len known.new.classes ≡ vec_len known.old.classes + 1 }
    ensures capacities { (vec_capacity known.new.classes ≡ vec_capacity known.old.classes)
        × (vec_capacity known.new.links ≡ vec_capacity known.old.links) }
{
    let bucket = (mark % known.heads.len() as u64) as usize;
    let number = known.classes.len() as u32;
    known.links.push_reserved(known.heads[bucket]);
    known.classes.push_reserved(class);
    if class == number {
        known.heads[bucket] = number + 1;
    }
}

/// Returns the classes of no pages yet, with room for `count` of them.
fn new_classes<A: Allocator + Clone>(alloc: &A, count: usize) -> Result<Classes<A>, AllocError>
    ensures empty { IfOk result (λ known. (known.classes.items ≡ []) × (known.links.items ≡ [])) }
    ensures heads { IfOk result (λ known. known.heads.items ≡ replicate (count / 2 + 1) 0) }
    ensures room { IfOk result (λ known. (count ≤ vec_capacity known.classes) × (count ≤ vec_capacity known.links)) }
{
    let classes = Vec::with_capacity(alloc.clone()?, count)?;
    let links = Vec::with_capacity(alloc.clone()?, count)?;
    let heads = vec![in alloc.clone()?; 0; count / 2 + 1]?;
    Ok(Classes {
        classes,
        links,
        heads,
    })
}

/// Returns the class of each page, as `by` compares pages.
pub(crate) fn classes_of<S: PageSource, A: Allocator + Clone>(
    alloc: &A,
    guests: &[Guest<S>],
    marks: &[u64],
    by: Compare,
) -> Result<Vec<u32, A>, LookFault<S::Fault>>
    requires count { length marks.now ≡ length (contents S.pages guests.now) }
    requires few { length marks.now < 2 ^ 32 }
    requires apart { AreSteady S.is_steady guests.now → DistinguishedBy (contents S.pages guests.now) marks.now }
    ensures len { IfOk result (λ classes. vec_len classes ≡ length marks.now) }
    ensures below { IfOk result (λ classes. All (λ class. class < length marks.now) classes.items) }
    ensures right { IfOk result (λ classes. Sure by (AreSteady S.is_steady guests.now)
        → classes.items ≡ classes_of (seen by (contents S.pages guests.now) marks.now)) }
{
    let mut own = new_pages(alloc.clone()?, 1)?;
    let mut other = new_pages(alloc.clone()?, 1)?;
    let mut known = new_classes(alloc, marks.len())?;
    for number in 0..marks.len() {
        let class = class_of_next(guests, marks, by, &mut own, &mut other, &known)?;
        note(&mut known, marks[number], class);
    }
    Ok(known.classes)
}
