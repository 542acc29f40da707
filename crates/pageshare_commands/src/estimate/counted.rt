//! What was counted of the guests.
use crate::estimate::already::Already;
use page_census::{CensusNumbers, CopiesClass, GuestNumbers, TotalNumbers};
use std::alloc::Global;

/// The numbers of each guest and in total, and how many contents have how many copies.
#[derive(Drop)]
pub struct Counted {
    pub guests: Vec<GuestNumbers>,
    pub total: TotalNumbers,
    pub copies: Vec<CopiesClass>,
    /// What of the processes is shared already; `None` if no process was read.
    pub already: Option<Already>,
}

impl From<CensusNumbers<Global>> for Counted {
    fn from(numbers: CensusNumbers<Global>) -> Counted {
        Counted {
            guests: numbers.guests,
            total: numbers.total,
            copies: numbers.copies,
            already: None,
        }
    }
}
