//! How often each class occurs.
ghost use Rattle.std.specs.Prelude.{◌≡◌, ◌<◌, ◌≤◌, ◌^◌, ◌==◌, ℕ, nat_eq, nat_lt, All, IfOk, length, vec_len, count_by, slice_index};
ghost use Rattle.page_census.specs.Numbers.{copies, distinct};
ghost use Rattle.page_census.specs.Counted.{count_below, is_zero_class};

use std::alloc::{AllocError, Allocator};

/// How often each class occurs in a list, and how many classes occur.
#[derive(Drop)]
pub(crate) struct Tally<A: Allocator> {
    pub(crate) copies: Vec<u32, A>,
    pub(crate) distinct: u32,
}

/// Counts how often each class below `bound` occurs in a list.
pub(crate) fn count_copies<A: Allocator>(
    alloc: A,
    bound: usize,
    classes: &[u32],
) -> Result<Tally<A>, AllocError>
    requires below { All (λ class. class < bound) classes.now }
    requires few { length classes.now < 2 ^ 32 }
    ensures len { IfOk result (λ tally. vec_len tally.copies ≡ bound) }
    ensures copies { IfOk result (λ tally. (class : ℕ) → class < bound
        → slice_index tally.copies.items class ≡ copies nat_eq class classes.now) }
    ensures distinct { IfOk result (λ tally. tally.distinct ≡ distinct nat_eq classes.now) }
    ensures few { IfOk result (λ tally. tally.distinct ≤ length classes.now) }
{
    let mut copies = vec![in alloc; 0u32; bound]?;
    let mut distinct = 0;
    let mut left = classes.len();
    while left > 0 {
        left -= 1;
        let class = classes[left] as usize;
        let before = copies[class];
        if before == 0 {
            distinct += 1;
        }
        copies[class] = before + 1;
    }
    Ok(Tally { copies, distinct })
}

/// Counts how many of these classes have more than one copy.
pub(crate) fn count_shared(copies: &[u32], classes: &[u32]) -> u32
    requires below { All (λ class. class < length copies.now) classes.now }
    requires few { length classes.now < 2 ^ 32 }
    ensures { result ≡ count_by (λ class. nat_lt 1 (slice_index copies.now class)) classes.now }
{
    let mut count = 0;
    for class in classes {
        if copies[*class as usize] > 1 {
            count += 1;
        }
    }
    count
}

/// Counts how many of these marks are those of pages of zeros.
pub(crate) fn count_zero(marks: &[u64]) -> u32
    requires { length marks.now < 2 ^ 32 }
    ensures { result ≡ count_by (λ mark. mark == 0) marks.now }
{
    marks.iter().filter(|mark| **mark == 0).count() as u32
}

fn is_zero_class(copies: &[u32], marks: &[u64], class: usize) -> bool
    requires { (class < length copies.now) × (class < length marks.now) }
    ensures { result ≡ is_zero_class copies.now marks.now class }
{
    marks[class] == 0 && copies[class] > 0
}

/// Counts how many of the classes that occur are those of pages of zeros. The mark of a class is that of its first
/// page.
pub(crate) fn count_zero_classes(copies: &[u32], marks: &[u64]) -> u32
    requires few { length copies.now < 2 ^ 32 }
    requires same { length marks.now ≡ length copies.now }
    ensures { result ≡ count_below (is_zero_class copies.now marks.now) (length copies.now) }
{
    let mut count = 0;
    for class in 0..copies.len() {
        if is_zero_class(copies, marks, class) {
            count += 1;
        }
    }
    count
}
