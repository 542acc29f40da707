//! The parts of a guest's bar.
ghost use Rattle.std.specs.Prelude.{◌≡◌, ◌+◌, ◌<◌, ◌^◌, nat_lt};
ghost use Rattle.report_picture.specs.Parts.{parts_of, salt_zeros, zero_under};

use page_census::GuestNumbers;
use report_text::GuestLine;

/// The pages of a guest in four parts.
#[derive(Clone, Copy, Debug, PartialEq, Eq)]
pub struct Parts {
    /// The pages of zeros.
    pub zero: u32,
    /// The other pages whose content some other page of the guest has.
    pub within: u32,
    /// The other pages whose content a page of another guest has, and no other page of this guest.
    pub between: u32,
    /// The pages, other than those of zeros, whose content no other page has.
    pub unshared: u32,
}

/// Splits a guest's pages into parts. Numbers that no census returns are cut, so that the parts never exceed the pages.
#[tactic(auto, unfolding(crate::specs::Parts::parts_of))]
fn split_pages(has_zeros: bool, numbers: &GuestNumbers) -> Parts
    ensures value { result ≡ parts_of has_zeros numbers.now }
    ensures sum { result.zero + result.within + result.between + result.unshared ≡ numbers.now.pages }
{
    let zero = numbers.zero.min(numbers.pages);
    let shared_zero = if has_zeros { numbers.zero } else { 0 };
    let within_zero = if numbers.zero > 1 { numbers.zero } else { 0 };
    let others = numbers.pages - zero;
    let shared = numbers.shared.saturating_sub(shared_zero).min(others);
    let within = numbers.within.saturating_sub(within_zero).min(shared);
    Parts {
        zero,
        within,
        between: shared - within,
        unshared: others - shared,
    }
}

/// Returns the guest's pages of zeros if it has this salt, and else 0.
#[tactic(auto, unfolding(crate::specs::Parts::zero_under))]
fn zero_under(salt: u32, guest: &GuestLine<'_>) -> u64
    ensures value { result ≡ zero_under salt guest.now }
    ensures within { result < 2 ^ 32 }
{
    if guest.salt == salt {
        u64::from(guest.numbers.zero)
    } else {
        0
    }
}

/// Whether the guests of this salt have two pages of zeros or more.
fn has_zeros(salt: u32, guests: &[GuestLine<'_>]) -> bool
    ensures { result ≡ nat_lt 1 (salt_zeros salt guests.now) }
{
    let mut zeros: u64 = 0;
    for guest in guests {
        zeros += zero_under(salt, guest);
        if zeros > 1 {
            return true;
        }
    }
    false
}

/// Returns the parts of a guest's pages; `guests` are all guests.
pub fn parts_of(guest: &GuestLine<'_>, guests: &[GuestLine<'_>]) -> Parts
    ensures value { result ≡ parts_of (nat_lt 1 (salt_zeros guest.now.salt guests.now)) guest.now.numbers }
    ensures sum { result.zero + result.within + result.between + result.unshared ≡ guest.now.numbers.pages }
{
    split_pages(has_zeros(guest.salt, guests), &guest.numbers)
}
