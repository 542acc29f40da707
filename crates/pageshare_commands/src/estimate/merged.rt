//! The numbers of guests whose digests were merged, as those of a census.
use crate::estimate::already::Already;
use crate::estimate::counted::Counted;
use fleet_census::{Amount, FleetClass, FleetGuest, FleetNumbers, FleetTotal};
use page_census::{CopiesClass, GuestNumbers, TotalNumbers};
use std::alloc::{AllocError, Global};

/// Returns the numbers of a merge of whole digests. `within` has for each guest the pages whose content another of its own pages has,
/// and `already` is what of the processes is shared already, which a merge doesn't count.
pub fn counted(
    alloc: Global,
    merged: &FleetNumbers<Global>,
    within: &[u64],
    already: Already,
) -> Result<Counted, AllocError> {
    let mut guests = Vec::new(alloc);
    for (guest, own) in merged.guests.iter().zip(within) {
        guests.push(guest_of(guest, *own))?;
    }
    let mut copies = Vec::new(alloc);
    for class in &merged.copies {
        copies.push(class_of(class))?;
    }
    Ok(Counted {
        guests,
        total: total_of(&merged.total),
        copies,
        already: Some(already),
    })
}

/// Returns a number of pages or contents: there are at most 4,294,967,295 pages.
fn few(number: u64) -> u32 {
    u32::try_from(number).unwrap_or(u32::MAX)
}

/// Returns a sum over all contents: none is left out of whole digests.
fn whole(amount: Amount) -> u32 {
    few(amount.estimate(1))
}

fn guest_of(guest: &FleetGuest, within: u64) -> GuestNumbers {
    GuestNumbers {
        pages: few(guest.pages),
        zero: few(guest.zero),
        distinct: whole(guest.distinct),
        shared: whole(guest.shared),
        within: few(within),
        alone: whole(guest.alone),
    }
}

fn total_of(total: &FleetTotal) -> TotalNumbers {
    TotalNumbers {
        pages: few(total.pages),
        zero: few(total.zero),
        shared: whole(total.shared),
        frames: whole(total.frames),
        reclaimed: whole(total.reclaimed),
        zero_reclaimed: few(total.zero_reclaimed),
        between: whole(total.between),
    }
}

fn class_of(class: &FleetClass) -> CopiesClass {
    CopiesClass {
        from: few(class.from),
        to: few(class.to),
        contents: whole(class.contents),
        pages: whole(class.pages),
    }
}
