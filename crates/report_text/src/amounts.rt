//! Amounts of memory for people.
ghost use Rattle.std.specs.Prelude.{◌≡◌, ◌<◌, ◌≤◌, ◌*◌, ◌^◌};
ghost use Rattle.report_text.specs.Amounts.{nearest, per_mille, scale_for};

use std::fmt::{self, Display, Formatter};

/// How many pages a MiB has.
pub(crate) const PAGES_OF_A_MEBIBYTE: u128 = 256;

/// The pages from which on memory is shown in whole MiB, and no longer in tenths: 10 MiB.
const WHOLE_FROM: u64 = 2560;

/// In what a table's numbers are.
#[derive(Clone, Copy, Debug, PartialEq, Eq)]
pub enum Unit {
    /// MiB, with one decimal.
    Mebibytes,
    /// Pages of 4,096 bytes.
    Pages,
}

impl Unit {
    /// Returns the line that a table begins with, and an empty line behind it.
    pub fn first_line(self) -> &'static str {
        match self {
            Unit::Mebibytes => "Each number in MiB.\n\n",
            Unit::Pages => "Each number in pages of 4,096 bytes.\n\n",
        }
    }
}

/// A number given in tenths, shown with one decimal.
#[derive(Clone, Copy)]
pub struct Tenths(pub u64);

impl Display for Tenths {
    fn fmt<W: fmt::Write>(&self, f: &mut Formatter<W>) -> fmt::Result {
        let (whole, tenth) = (self.0 / 10, self.0 % 10);
        write!(f, "{whole}.{tenth}")
    }
}

/// Returns these pages in units of which a MiB has `scale`, to the nearest; a half is rounded up.
pub(crate) fn in_units_of(scale: u32, pages: u128) -> u64
    requires few { pages < 3 * 2 ^ 64 }
    requires scale { scale ≤ 10 }
    ensures { result ≡ nearest scale pages }
{
    ((u128::from(scale) * pages + PAGES_OF_A_MEBIBYTE / 2) / PAGES_OF_A_MEBIBYTE) as u64
}

/// Returns these pages in units of which a MiB has `scale`, to the nearest; a half is rounded up. With 1 they are MiB, and with
/// 10 tenths of a MiB.
pub fn in_units(scale: u32, pages: u64) -> u64
    requires { scale ≤ 10 }
    ensures { result ≡ nearest scale pages }
{
    in_units_of(scale, u128::from(pages))
}

/// Returns how many units a MiB has in an amount of `pages` pages: 10 below 10 MiB, and else 1.
pub fn scale_for(pages: u64) -> u32
    ensures value { result ≡ scale_for pages }
    ensures within { result ≤ 10 }
{
    if pages < WHOLE_FROM { 10 } else { 1 }
}

/// Returns how many thousandths of the whole the part is, to the nearest; a half is rounded up. For a whole of 0 it is
/// 0.
pub fn per_mille(part: u64, whole: u64) -> u128
    ensures { result ≡ per_mille part whole }
{
    if whole == 0 {
        return 0;
    }
    (1000 * u128::from(part) + u128::from(whole) / 2) / u128::from(whole)
}
