//! When what doesn't wait for a budget is done again.
ghost use Rattle.std.specs.Prelude.{◌≡◌};
ghost use Rattle.look_tasks.specs.Chores.{again_at};

/// A chore gets one part in so many of the thread's share.
pub const OF_SHARE: u64 = 10;

/// Returns when a chore is done again that began at `begun` and used `took` nanoseconds of processor time: after `least` nanoseconds, or
/// later, so that all its runs together use at most a tenth of the thread's share, which is 1 to 100 percent of a processor.
pub fn again_ns(percent: u32, begun: u64, took: u64, least: u64) -> u64
    ensures { result ≡ again_at percent begun took least }
{
    let share = u128::from(percent.min(100).max(1));
    let parts = u128::from(took) * u128::from(OF_SHARE * 100);
    let apart = (parts + share - 1) / share;
    let again = u128::from(begun) + apart.max(u128::from(least));
    again.min(u128::from(u64::MAX)) as u64
}
