//! Which numbers the pages of a new window get.
ghost use Rattle.std.specs.Prelude.{◌≡◌, ℕ, true, false};
ghost use Rattle.offered_ranges.specs.Numbers.{IsFirst, fits};

use offered_ranges::{Taken, first_free};

/// Finds the least number from which so many in a row are no window's. All of them are below 2^32 - 1. Returns whether there is one, and
/// else leaves `base` as it is.
#[unsafe(no_mangle)]
pub extern "C" fn pageshare_window_find_numbers(taken: &[Taken], count: u32, base: &mut u32) -> bool
    ensures first { result ≡ true → IsFirst count taken.now base.new }
    ensures none { result ≡ false → (from : ℕ) → fits from count taken.now ≡ false }
    ensures same { result ≡ false → base.new ≡ base.old }
{
    match first_free(taken, count) {
        None => false,
        Some(from) => {
            *base = from;
            true
        }
    }
}
