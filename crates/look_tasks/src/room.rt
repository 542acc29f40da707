//! Whether another mapping may be made.
ghost use Rattle.std.specs.Prelude.{◌≡◌, ◌+◌, ◌<◌, ◌^◌, true};
ghost use Rattle.look_tasks.specs.Rooms.{most_of, fits};

/// Of a process's mappings a so-many-th is left to its own code.
pub const SPARE_PART: u64 = 10;

/// And at least so many are.
pub const SPARE_LEAST: u64 = 4_000;

/// Returns how many mappings windows may take in all, of so many that the system lets the process have.
pub fn most(limit: u64) -> u64
    ensures { result ≡ most_of limit }
{
    let spare = (limit / SPARE_PART).max(SPARE_LEAST);
    limit.saturating_sub(spare)
}

/// Returns whether so many mappings more may be made, where so many are taken and there may be so many at most. None more always may.
pub fn fits(most: u64, taken: u64, count: u64) -> bool
    ensures fits { result ≡ fits most taken count }
    ensures sum { result ≡ true → taken + count < 2 ^ 64 }
{
    count == 0 || (taken <= most && count <= most - taken)
}
