//! What a domain counts, as C reads it.
ghost use Rattle.std.specs.Prelude.{◌≡◌};
ghost use Rattle.c_surface.specs.Totals.{totals_of};

use share_domain::DomainReport;

/// What a domain counts, or a host of one.
#[repr(C)]
#[derive(Clone, Copy)]
pub struct DomainTotals {
    pub machines: u32,
    /// The clients that have entered and aren't out; of a host its sessions.
    pub clients: u32,
    /// The slots that clients have.
    pub slots: u32,
    /// The frames in use.
    pub frames: u32,
    /// The slots whose frame another slot has, too.
    pub shared: u32,
    /// Slots less frames.
    pub reclaimed: u32,
}

/// Returns what C reads of a report.
pub fn totals_of(report: &DomainReport) -> DomainTotals
    ensures { result ≡ totals_of report.now }
{
    DomainTotals {
        machines: report.machines,
        clients: report.clients,
        slots: report.slots,
        frames: report.frames,
        shared: report.shared,
        reclaimed: report.reclaimed,
    }
}
