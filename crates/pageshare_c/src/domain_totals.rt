//! What a domain counts, as C gets it.
ghost use Rattle.std.specs.Prelude.{◌≡◌, Some};
ghost use Rattle.c_surface.specs.declared.status.TheConstants as status;
ghost use Rattle.pageshare_c.specs.Hosts.{made_status};
ghost use Rattle.pageshare_c.specs.Leases.{totals_after};

use crate::hosted::Hosted;
use c_surface::{DomainTotals, status, totals_of};

/// Writes what the domain counts to `totals`, and returns the status.
pub(crate) fn report(hosted: &Hosted, totals: &mut DomainTotals) -> u32
    ensures status { result ≡ made_status (λ m. status.OK) (Some hosted.now) }
    ensures totals { totals.new ≡ totals_after totals.old (Some hosted.now) }
{
    match hosted {
        Hosted::Begun(_) => status::NO_MACHINE,
        Hosted::Made(made) => {
            *totals = totals_of(&made.domain.report());
            status::OK
        }
    }
}
