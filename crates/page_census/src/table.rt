//! The copies table: how many contents have how many copies.
ghost use Rattle.std.specs.Prelude.{◌≡◌, ◌+◌, ◌≤◌, ◌<◌, ◌^◌, IfOk, length, sum};
ghost use Rattle.page_census.specs.Numbers.{fewest, is_between, most};
ghost use Rattle.page_census.specs.Counted.{counted_class, counted_table};

use std::alloc::{AllocError, Allocator};

/// The contents whose number of copies is in a range.
#[derive(Clone, Copy, Debug, PartialEq, Eq)]
pub struct CopiesClass {
    /// The fewest copies of these contents.
    pub from: u32,
    /// The most copies of these contents.
    pub to: u32,
    /// How many different contents have this many copies.
    pub contents: u32,
    /// How many pages have these contents.
    pub pages: u32,
}

// The last class has up to 2^32 copies, which no content has.
const CLASSES: u32 = 33;

fn power(number: u32) -> u64
    requires { number < 33 }
    ensures is { result ≡ 2 ^ number }
    ensures within { result ≤ 2 ^ 32 }
{
    2u64.pow(number)
}

/// Returns the fewest copies in the class with this number.
fn fewest(number: u32) -> u32
    requires { number < 33 }
    ensures { result ≡ fewest number }
{
    (power(number) / 2 + 1) as u32
}

/// Returns the most copies in the class with this number.
fn most(number: u32) -> u32
    requires { number < 33 }
    ensures { result ≡ most number }
{
    power(number).min(u32::MAX as u64) as u32
}

fn is_between(from: u32, to: u32, count: u32) -> bool
    ensures { result ≡ is_between from to count }
{
    from <= count && count <= to
}

/// Counts the contents that have at least `from` and at most `to` copies. `copies` has the number of copies of each
/// class.
fn count_class(copies: &[u32], from: u32, to: u32) -> CopiesClass
    requires few { length copies.now < 2 ^ 32 }
    requires all { sum copies.now < 2 ^ 32 }
    ensures { result ≡ counted_class copies.now from to }
{
    let mut contents = 0;
    let mut pages = 0;
    for count in copies {
        if is_between(from, to, *count) {
            contents += 1;
            pages += *count;
        }
    }
    CopiesClass {
        from,
        to,
        contents,
        pages,
    }
}

/// Returns the classes of copies that have contents, rising.
pub(crate) fn copies_table<A: Allocator>(
    alloc: A,
    copies: &[u32],
) -> Result<Vec<CopiesClass, A>, AllocError>
    requires few { length copies.now < 2 ^ 32 }
    requires all { sum copies.now < 2 ^ 32 }
    ensures { IfOk result (λ table. table.items ≡ counted_table copies.now) }
{
    let mut table = Vec::with_capacity(alloc, CLASSES as usize)?;
    for number in 0..CLASSES {
        let class = count_class(copies, fewest(number), most(number));
        if class.contents > 0 {
            table.push_reserved(class);
        }
    }
    Ok(table)
}
