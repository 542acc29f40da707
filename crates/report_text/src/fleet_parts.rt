//! What could be reclaimed of a fleet, in parts that add up to it.
ghost use Rattle.std.specs.Prelude.{◌≡◌, ◌+◌, ◌-◌, ◌^◌, min};
ghost use Rattle.report_text.specs.Reclaimed.{parts_by};
ghost use Rattle.fleet_census.specs.Amounts.{estimate};
ghost use Rattle.report_text.specs.FleetParts.{within_of};

use crate::Reclaimed;
use crate::estimated_sum::EstimatedSum;
use fleet_census::{Amount, FleetTotal};

/// Returns what sharing within guests reclaims of the contents other than zeros. Its squares, and so its standard error, are at least
/// those of its contents.
pub(crate) fn within_of(total: &FleetTotal) -> Amount
    ensures { result ≡ within_of total.now }
{
    let (reclaimed, between) = (total.reclaimed, total.between);
    Amount {
        zeros: 0,
        others: reclaimed.others.saturating_sub(between.others),
        squares: reclaimed.squares.saturating_sub(between.squares),
    }
}

/// Estimates the parts of what is reclaimed from a sample: those of zeros are known.
pub(crate) fn parts_of(total: &FleetTotal, sample: u32) -> Reclaimed
    ensures value { result ≡ parts_by (min (estimate total.now.reclaimed sample) (2 ^ 64 - 1)) total.now.zero_reclaimed
        (min (estimate (within_of total.now) sample) (2 ^ 64 - 1)) }
    ensures sum { result.zeros + result.between + result.within ≡ min (estimate total.now.reclaimed sample) (2 ^ 64 - 1) }
{
    let whole = EstimatedSum::of(total.reclaimed, sample).value;
    let within = EstimatedSum::of(within_of(total), sample).value;
    Reclaimed::by(whole, total.zero_reclaimed, within)
}
