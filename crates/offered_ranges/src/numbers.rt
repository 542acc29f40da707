//! The numbers of windows' pages.
ghost use Rattle.std.specs.Prelude.{◌≡◌, ◌+◌, ◌<◌, ◌^◌, ℕ, IfSome, None, false};
ghost use Rattle.std.specs.List.{list_any};
ghost use Rattle.offered_ranges.specs.Numbers.{IsFirst, IsTaken, end_of, fits, meets};

/// The numbers of a window's pages: so many in a row.
#[repr(C)]
#[derive(Clone, Copy, Debug, PartialEq, Eq)]
pub struct Taken {
    /// The number of its first page.
    pub base: u32,
    /// How many pages it has.
    pub count: u32,
}

/// Returns the least number from which so many in a row are no window's. All of them are below 2^32 - 1. Returns nothing if there is no
/// such number.
pub fn first_free(taken: &[Taken], count: u32) -> Option<u32>
    ensures first { IfSome result (λ from. IsFirst count taken.now from) }
    ensures none { result ≡ None → (from : ℕ) → fits from count taken.now ≡ false }
{
    let mut from = 0;
    while let Some(end) = end_of_met(taken, from, count) {
        from = end;
    }
    if from + u64::from(count) > u64::from(u32::MAX) {
        return None;
    }
    Some(from as u32)
}

// The number behind those of a window that has one of so many numbers in a row, if a window has one.
fn end_of_met(taken: &[Taken], from: u64, count: u32) -> Option<u64>
    requires { from < 2 ^ 33 }
    ensures none { result ≡ None → list_any (meets from count) taken.now ≡ false }
    ensures some { IfSome result (λ end. IsTaken from count taken.now end) }
{
    for window in taken {
        if meets(window, from, count) {
            return Some(end_of(window));
        }
    }
    None
}

// Whether a window has one of so many numbers in a row.
fn meets(window: &Taken, from: u64, count: u32) -> bool
    requires { from < 2 ^ 33 }
    ensures { result ≡ meets from count window.now }
{
    from < end_of(window) && u64::from(window.base) < from + u64::from(count)
}

// The number behind those of a window.
fn end_of(window: &Taken) -> u64
    ensures end { result ≡ end_of window.now }
    ensures within { result < 2 ^ 33 }
{
    u64::from(window.base) + u64::from(window.count)
}
