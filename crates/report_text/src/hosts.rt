//! What was counted of each host of a fleet, and the sum over all hosts.
ghost use Rattle.std.specs.Prelude.{◌≡◌};
ghost use Rattle.report_text.specs.HostSums.{bound_of, errors_added, errors_in, errors_of, row_added, sum_of};

use crate::Reclaimed;
use crate::fleet_rows::total_row;
use crate::rows::{HostRow, TotalErrors, TotalRow};
use fleet_census::FleetTotal;
use std::alloc::{AllocError, Allocator};

/// A host, and what was counted of the guests on it.
#[derive(Clone, Copy)]
pub struct FleetHost<'a> {
    /// The host's name.
    pub name: &'a str,
    /// How many guests are on it.
    pub guests: usize,
    /// The numbers of these guests in total.
    pub total: FleetTotal,
}

/// The rows of hosts, and their sum.
#[derive(Drop)]
pub(crate) struct HostRows<'a, A: Allocator> {
    pub(crate) hosts: Vec<HostRow<'a>, A>,
    pub(crate) sum: TotalRow,
}

impl TotalRow {
    /// No pages.
    const NOTHING: TotalRow = TotalRow {
        pages: 0,
        zero: 0,
        shared: 0,
        frames: 0,
        reclaimed: 0,
        zero_reclaimed: 0,
        between: 0,
        parts: Reclaimed {
            zeros: 0,
            between: 0,
            within: 0,
        },
        errors: None,
    };

    /// Returns these numbers with those of one host more, each at most 2^64 - 1.
    fn with(&self, host: &HostRow<'_>) -> TotalRow
        ensures { result ≡ row_added self.now host.now }
    {
        let more = host.total;
        TotalRow {
            pages: self.pages.saturating_add(more.pages),
            zero: self.zero.saturating_add(more.zero),
            shared: self.shared.saturating_add(more.shared),
            frames: self.frames.saturating_add(more.frames),
            reclaimed: self.reclaimed.saturating_add(more.reclaimed),
            zero_reclaimed: self.zero_reclaimed.saturating_add(more.zero_reclaimed),
            between: self.between.saturating_add(more.between),
            parts: Reclaimed {
                zeros: self.parts.zeros.saturating_add(more.parts.zeros),
                between: self.parts.between.saturating_add(more.parts.between),
                within: self.parts.within.saturating_add(more.parts.within),
            },
            errors: None,
        }
    }
}

impl TotalErrors {
    /// The standard errors of numbers that are known.
    const NOTHING: TotalErrors = TotalErrors {
        shared: 0,
        frames: 0,
        reclaimed: 0,
        between: 0,
        within: 0,
    };

    /// Returns the standard errors of a host's numbers; 0 if these are known.
    fn of(host: &HostRow<'_>) -> TotalErrors
        ensures { result ≡ errors_in host.now }
    {
        match host.total.errors {
            Some(errors) => errors,
            None => TotalErrors::NOTHING,
        }
    }

    /// Returns these standard errors with those of one host more, each at most 2^64 - 1.
    fn with(&self, host: &HostRow<'_>) -> TotalErrors
        ensures { result ≡ errors_added self.now host.now }
    {
        let more = TotalErrors::of(host);
        TotalErrors {
            shared: self.shared.saturating_add(more.shared),
            frames: self.frames.saturating_add(more.frames),
            reclaimed: self.reclaimed.saturating_add(more.reclaimed),
            between: self.between.saturating_add(more.between),
            within: self.within.saturating_add(more.within),
        }
    }

    /// Returns these standard errors, bounded by those of the pool. Only the frames aren't bounded: in all else a content counts
    /// at least as much in the pool as on all hosts together.
    fn at_most(&self, pool: &TotalErrors) -> TotalErrors
        ensures { result ≡ bound_of self.now pool.now }
    {
        TotalErrors {
            shared: self.shared.min(pool.shared),
            frames: self.frames,
            reclaimed: self.reclaimed.min(pool.reclaimed),
            between: self.between.min(pool.between),
            within: self.within.min(pool.within),
        }
    }
}

/// Returns the sum over hosts, without standard errors.
fn sum_of(hosts: &[HostRow<'_>]) -> TotalRow
    ensures { result ≡ sum_of hosts.now }
{
    let mut sum = TotalRow::NOTHING;
    for host in hosts {
        sum = sum.with(host);
    }
    sum
}

/// Returns the sum of the hosts' standard errors.
fn errors_of(hosts: &[HostRow<'_>]) -> TotalErrors
    ensures { result ≡ errors_of hosts.now }
{
    let mut sum = TotalErrors::NOTHING;
    for host in hosts {
        sum = sum.with(host);
    }
    sum
}

/// Makes the rows of hosts, and their sum. A content that several hosts have is in the sample of all of them or of none, so its share
/// of the errors adds up: the sum's standard errors are bounds.
pub(crate) fn host_rows<'a, A: Allocator>(
    alloc: A,
    sample: u32,
    hosts: &[FleetHost<'a>],
    pool: &TotalRow,
) -> Result<HostRows<'a, A>, AllocError> {
    let mut rows = Vec::with_capacity(alloc, hosts.len())?;
    for host in hosts {
        rows.push(HostRow {
            host: host.name,
            guests: host.guests,
            total: total_row(sample, &host.total),
        })?;
    }
    let mut sum = sum_of(&rows);
    if let Some(errors) = pool.errors {
        sum.errors = Some(errors_of(&rows).at_most(&errors));
    }
    Ok(HostRows { hosts: rows, sum })
}
