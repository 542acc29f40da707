//! One page, as its lender knows it.

use crate::{Bars, Belief};

/// One page, as its lender knows it.
#[derive(Clone, Copy, Debug, PartialEq, Eq)]
pub struct PageLender {
    /// What is believed of it.
    pub belief: Belief,
    /// Whether an order was given of which nothing is known yet.
    pub ordered: bool,
    /// What keeps it from being lent.
    pub bars: Bars,
}
