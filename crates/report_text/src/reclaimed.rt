//! What could be reclaimed, in parts that add up to it.
ghost use Rattle.std.specs.Prelude.{◌≡◌, ◌+◌, ◌-◌, ◌<◌, ◌^◌, min, sum_by};
ghost use Rattle.report_text.specs.Reclaimed.{parts_by, reclaimed_of, within_guest};

use crate::GuestLine;
use page_census::TotalNumbers;
use serde::Serialize;

/// The pages that could be reclaimed, in three parts, which add up to them.
#[derive(Clone, Copy, Debug, PartialEq, Eq, Serialize)]
pub struct Reclaimed {
    /// Pages of zeros.
    pub zeros: u64,
    /// Other pages, which only sharing between guests reclaims.
    pub between: u64,
    /// Other pages, which sharing within each guest reclaims.
    pub within: u64,
}

impl Reclaimed {
    /// Splits a whole, by its zeros and what sharing within guests reclaims of the rest. More than there is of these is cut.
    pub fn by(whole: u64, zeros: u64, within: u64) -> Reclaimed
        ensures value { result ≡ parts_by whole zeros within }
        ensures sum { result.zeros + result.between + result.within ≡ whole }
    {
        let zeros = zeros.min(whole);
        let within = within.min(whole - zeros);
        Reclaimed {
            zeros,
            between: whole - zeros - within,
            within,
        }
    }

    /// Returns the pages of all parts, at most 2^64 - 1.
    pub fn whole(&self) -> u64
        ensures { result ≡ min (self.now.zeros + self.now.between + self.now.within) (2 ^ 64 - 1) }
    {
        self.zeros
            .saturating_add(self.between)
            .saturating_add(self.within)
    }

    /// Returns the parts of what is reclaimed in total; `guests` are all guests.
    pub fn of(total: &TotalNumbers, guests: &[GuestLine<'_>]) -> Reclaimed
        ensures value { result ≡ reclaimed_of total.now guests.now }
        ensures sum { result.zeros + result.between + result.within ≡ total.now.reclaimed }
    {
        Reclaimed::by(
            u64::from(total.reclaimed),
            u64::from(total.zero_reclaimed),
            within_guests(guests),
        )
    }
}

/// Returns what sharing within a guest alone would reclaim, less its pages of zeros but one.
fn within_guest(guest: &GuestLine<'_>) -> u64
    ensures value { result ≡ within_guest guest.now }
    ensures within { result < 2 ^ 32 }
{
    let zeros = guest.numbers.zero.saturating_sub(1);
    u64::from(guest.numbers.alone.saturating_sub(zeros))
}

/// Returns the sum of that over the guests, at most 2^64 - 1.
fn within_guests(guests: &[GuestLine<'_>]) -> u64
    ensures { result ≡ min (sum_by within_guest guests.now) (2 ^ 64 - 1) }
{
    let mut sum: u64 = 0;
    for guest in guests {
        sum = sum.saturating_add(within_guest(guest));
    }
    sum
}
