//! Pages that clients lend, as C gets them.
ghost use Rattle.std.specs.Prelude.{◌≡◌, Some};
ghost use Rattle.pageshare_c.specs.Leases.{loan_of, not_lent, LendsAt};

use crate::hosted::Hosted;
use c_surface::{lend_status, status};
use page_model::Page;
use share_domain::{LendFault, Loan, NO_FRAME, slot_number};

/// What became of a page that was to be lent.
#[repr(C)]
#[derive(Clone, Copy)]
pub struct DomainLoan {
    /// `OK` if the page was lent, and else why it was not.
    pub status: u32,
    /// The frame that holds the page's bytes, or [`NO_FRAME`].
    pub frame: u32,
    /// The page's slot, or 0.
    pub slot: u64,
    /// How many slots have this frame, with this one, or 0.
    pub sharers: u32,
}

/// Lends a client's page, and returns what became of it.
pub(crate) fn lend(hosted: &mut Hosted, client: u32, page: &Page) -> DomainLoan
    ensures { LendsAt client page.now result (Some hosted.old) (Some hosted.new) }
{
    match hosted {
        Hosted::Begun(_) => not_lent(status::NO_MACHINE),
        Hosted::Made(made) => loan_of(made.domain.lend(client, page)),
    }
}

/// Returns what C gets of a page that was lent, or wasn't.
fn loan_of(became: Result<Loan, LendFault>) -> DomainLoan
    ensures { result ≡ loan_of (Some became) }
{
    match became {
        Err(fault) => not_lent(lend_status(fault)),
        Ok(loan) => DomainLoan {
            status: status::OK,
            frame: loan.frame,
            slot: slot_number(loan.slot),
            sharers: loan.sharers,
        },
    }
}

/// Returns what C gets of a page that wasn't lent, for this cause.
pub(crate) fn not_lent(status: u32) -> DomainLoan
    ensures { result ≡ not_lent status }
{
    DomainLoan {
        status,
        frame: NO_FRAME,
        slot: 0,
        sharers: 0,
    }
}
