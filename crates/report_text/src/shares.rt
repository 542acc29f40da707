//! Parts of memory in units, rounded so that they add up.
ghost use Rattle.std.specs.Prelude.{◌≡◌, ◌+◌, ◌*◌, ◌<◌, ◌≤◌, ◌%◌, ◌^◌};
ghost use Rattle.report_text.specs.Amounts.{nearest};
ghost use Rattle.report_text.specs.Shares.{IsNear, below, filled, lacking, more_by, remainder, shares_in, shares_of, whole_of};

use crate::amounts::{PAGES_OF_A_MEBIBYTE, in_units_of};
use crate::{Reclaimed, Unit};

/// What could be reclaimed and its parts, in units of memory. The parts add up to the whole.
#[derive(Clone, Copy, Debug, PartialEq, Eq)]
pub struct Shares {
    /// All that could be reclaimed.
    pub whole: u64,
    /// Pages of zeros.
    pub zeros: u64,
    /// Other pages, which only sharing between guests reclaims.
    pub between: u64,
    /// Other pages, which sharing within each guest reclaims.
    pub within: u64,
}

/// How many units are added to each part: 0 or 1.
#[derive(Clone, Copy)]
struct More {
    zeros: u64,
    between: u64,
    within: u64,
}

/// Returns 1 if the first number is below the second, and else 0.
fn below(a: u64, b: u64) -> u64
    ensures value { result ≡ below a b }
    ensures small { result ≤ 1 }
{
    if a < b { 1 } else { 0 }
}

/// Largest remainder method: returns which parts are rounded up. `lack` units are lacking; the remainders are `a`, `b` and `c`.
fn more_by(lack: u64, a: u64, b: u64, c: u64) -> More
    ensures value { result ≡ more_by lack a b c }
    ensures sum { lack ≤ 3 → result.zeros + result.between + result.within ≡ lack }
    ensures some { 256 * lack ≤ a + b + c + 128 → a < 256 → b < 256 → c < 256
        → (result.zeros ≤ a) × (result.between ≤ b) × (result.within ≤ c) }
    ensures few { (result.zeros ≤ 1) × (result.between ≤ 1) × (result.within ≤ 1) }
{
    More {
        zeros: below(below(a, b) + below(a, c), lack),
        between: below(1 - below(a, b) + below(b, c), lack),
        within: below(1 - below(a, c) + (1 - below(b, c)), lack),
    }
}

/// Returns how many whole units these pages fill.
fn filled(scale: u32, pages: u64) -> u64
    requires { scale ≤ 10 }
    ensures { result ≡ filled scale pages }
{
    (u128::from(scale) * u128::from(pages) / PAGES_OF_A_MEBIBYTE) as u64
}

/// Returns the remainder of these pages beyond the whole units that they fill, in 256ths of a unit.
fn remainder(scale: u32, pages: u64) -> u64
    requires { scale ≤ 10 }
    ensures { result ≡ remainder scale pages }
{
    (u128::from(scale) * u128::from(pages) % PAGES_OF_A_MEBIBYTE) as u64
}

/// Returns all parts in units, to the nearest; a half is rounded up.
fn whole_in(scale: u32, parts: &Reclaimed) -> u64
    requires { scale ≤ 10 }
    ensures { result ≡ nearest scale (whole_of parts.now) }
{
    let whole = u128::from(parts.zeros) + u128::from(parts.between) + u128::from(parts.within);
    in_units_of(scale, whole)
}

/// Returns by how many units the rounded whole exceeds the sum of the whole units that the parts fill.
fn lacking(scale: u32, parts: &Reclaimed) -> u64
    requires { scale ≤ 10 }
    ensures { result ≡ lacking scale parts.now }
{
    let (zeros, between) = (filled(scale, parts.zeros), filled(scale, parts.between));
    whole_in(scale, parts) - (zeros + between + filled(scale, parts.within))
}

/// Returns the parts in units of which a MiB has `scale`. They add up to the whole in units, to the nearest, and each is rounded
/// down or up: those with the largest remainders are rounded up.
pub fn shares_of(scale: u32, parts: &Reclaimed) -> Shares
    requires { scale ≤ 10 }
    ensures value { result ≡ shares_of scale parts.now }
    ensures whole { result.whole ≡ nearest scale (parts.now.zeros + parts.now.between + parts.now.within) }
    ensures sum { result.zeros + result.between + result.within ≡ result.whole }
    ensures zeros { IsNear scale parts.now.zeros result.zeros }
    ensures between { IsNear scale parts.now.between result.between }
    ensures within { IsNear scale parts.now.within result.within }
{
    let more = more_by(
        lacking(scale, parts),
        remainder(scale, parts.zeros),
        remainder(scale, parts.between),
        remainder(scale, parts.within),
    );
    Shares {
        whole: whole_in(scale, parts),
        zeros: filled(scale, parts.zeros) + more.zeros,
        between: filled(scale, parts.between) + more.between,
        within: filled(scale, parts.within) + more.within,
    }
}

/// Returns the parts in a table's unit: in tenths of a MiB, which are rounded so that they add up, or in pages.
pub fn shares_in(unit: Unit, parts: &Reclaimed) -> Shares
    ensures { result ≡ shares_in unit parts.now }
{
    match unit {
        Unit::Mebibytes => shares_of(10, parts),
        Unit::Pages => Shares {
            whole: parts.whole(),
            zeros: parts.zeros,
            between: parts.between,
            within: parts.within,
        },
    }
}
