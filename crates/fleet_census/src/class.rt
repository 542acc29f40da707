//! The copies table: how many contents have how many copies.
ghost use Rattle.std.specs.Prelude.{◌≡◌, ◌+◌, ◌<◌, ◌≤◌, ◌^◌, ℕ, IfOk, [], filter, length, map, vec_capacity};
ghost use Rattle.std.specs.List.{range_with_len};
ghost use Rattle.fleet_census.specs.Classes.{IsInClass, class_after, class_at, fewest, has_contents, most, no_contents};

use crate::Amount;
use crate::content::Content;
use std::alloc::{AllocError, Allocator};

/// The contents whose number of copies is in a range.
#[derive(Clone, Copy, Debug, PartialEq, Eq)]
pub struct FleetClass {
    /// The fewest copies of these contents.
    pub from: u64,
    /// The most copies of these contents.
    pub to: u64,
    /// How many different contents have this many copies.
    pub contents: Amount,
    /// How many pages have these contents.
    pub pages: Amount,
}

impl FleetClass {
    /// Whether there is such a content.
    fn has_contents(&self) -> bool
        ensures { result ≡ has_contents self.now }
    {
        self.contents.zeros > 0 || self.contents.others > 0
    }
}

// The last class has up to 2^64 copies, which no content has.
pub(crate) const CLASSES: usize = 65;

/// Returns the fewest copies in the class with this number.
fn fewest(number: usize) -> u64
    requires { number < CLASSES }
    ensures { result ≡ fewest number }
{
    if number == 0 {
        1
    } else {
        2u64.pow(number as u32 - 1) + 1
    }
}

/// Returns the most copies in the class with this number.
fn most(number: usize) -> u64
    requires { number < CLASSES }
    ensures { result ≡ most number }
{
    if number == 64 {
        u64::MAX
    } else {
        2u64.pow(number as u32)
    }
}

/// Returns the number of the class that has this many copies.
fn class_of(copies: u64) -> usize
    ensures within { result < CLASSES }
    ensures is { 1 ≤ copies → IsInClass copies result }
{
    if copies <= 1 {
        0
    } else {
        (copies - 1).ilog2() as usize + 1
    }
}

/// Makes the table of all classes, without contents.
pub(crate) fn new_classes<A: Allocator>(alloc: A) -> Result<Vec<FleetClass, A>, AllocError>
    ensures { IfOk result (λ classes. classes.items ≡ map no_contents (range_with_len 0 CLASSES)) }
{
    let mut classes = Vec::with_capacity(alloc, CLASSES)?;
    for number in 0..CLASSES {
        classes.push_reserved(FleetClass {
            from: fewest(number),
            to: most(number),
            contents: Amount::NOTHING,
            pages: Amount::NOTHING,
        });
    }
    Ok(classes)
}

/// Appends the classes that have contents.
pub(crate) fn push_classes<A: Allocator>(copies: &mut Vec<FleetClass, A>, classes: &[FleetClass])
    requires empty { copies.old.items ≡ [] }
    requires room { length classes.now ≤ vec_capacity copies.old }
    ensures { copies.new.items ≡ filter has_contents classes.now }
{
    for class in classes {
        if class.has_contents() {
            copies.push_reserved(*class);
        }
    }
}

/// Counts a content in its class.
pub(crate) fn count_class(classes: &mut [FleetClass], content: &Content)
    requires { length classes.old ≡ CLASSES }
    ensures { 1 ≤ content.now.copies → (number : ℕ) → number < CLASSES
        → class_at classes.new number ≡ class_after content.now number (class_at classes.old number) }
{
    let is_zeros = content.is_zeros();
    let class = &mut classes[class_of(content.copies)];
    class.contents.add(is_zeros, 1);
    class.pages.add(is_zeros, content.copies);
}
