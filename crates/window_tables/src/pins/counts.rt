//! How often each page was pinned.
ghost use Rattle.std.specs.Prelude.{◌≡◌, ◌+◌, ◌-◌, false, map, nat_eq, if◌then◌else◌};
ghost use Rattle.std.specs.List.{list_any};
ghost use Rattle.window_tables.specs.Pins.{can_pin, can_unpin, pinned, unpinned};

/// The most that a page is pinned.
pub const PINS_MOST: u16 = u16::MAX;

/// Pins `count` pages from `from` on once more, of whose counts these are. Returns whether it did: not if one of them isn't there, or was
/// pinned 65,535 times. Then it changes nothing.
pub fn pin(counts: &mut [u16], from: usize, count: usize) -> bool
    ensures pinned { result ≡ can_pin from count counts.old }
    ensures counts { counts.new ≡ if result then pinned from count counts.old else counts.old }
{
    let is_there = from <= counts.len() && count <= counts.len() - from;
    if !is_there || has(&counts[from..from + count], PINS_MOST) {
        return false;
    }
    add_one(&mut counts[from..from + count]);
    true
}

/// Unpins `count` pages from `from` on once. Returns whether it did: not if one of them isn't there, or isn't pinned. Then it changes
/// nothing.
pub fn unpin(counts: &mut [u16], from: usize, count: usize) -> bool
    ensures unpinned { result ≡ can_unpin from count counts.old }
    ensures counts { counts.new ≡ if result then unpinned from count counts.old else counts.old }
{
    let is_there = from <= counts.len() && count <= counts.len() - from;
    if !is_there || has(&counts[from..from + count], 0) {
        return false;
    }
    take_one(&mut counts[from..from + count]);
    true
}

// Whether one of the counts is this number.
fn has(counts: &[u16], number: u16) -> bool
    ensures { result ≡ list_any (nat_eq number) counts.now }
{
    for count in counts {
        if *count == number {
            return true;
        }
    }
    false
}

// Adds one to each.
fn add_one(counts: &mut [u16])
    requires { list_any (nat_eq PINS_MOST) counts.old ≡ false }
    ensures { counts.new ≡ map (λ n. n + 1) counts.old }
{
    for count in counts.iter_mut() {
        *count += 1;
    }
}

// Takes one off each.
fn take_one(counts: &mut [u16])
    requires { list_any (nat_eq 0) counts.old ≡ false }
    ensures { counts.new ≡ map (λ n. n - 1) counts.old }
{
    for count in counts.iter_mut() {
        *count -= 1;
    }
}
