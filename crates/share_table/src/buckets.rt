//! How many buckets a table has.
ghost use Rattle.std.specs.Prelude.{◌≤◌};
ghost use Rattle.share_table.specs.Buckets.{IsGreatestPower};

// Returns the greatest power of two that is at most the capacity.
pub(crate) fn bucket_count(capacity: u32) -> u32
    requires { 1 ≤ capacity }
    ensures { IsGreatestPower capacity result }
{
    let mut buckets = 1;
    while buckets <= capacity / 2 {
        buckets *= 2;
    }
    buckets
}
