//! Amounts of memory with their unit.
use report_text::{Tenths, in_units};
use std::fmt::{self, Display, Formatter};

/// A number of pages, shown with a unit: KiB below one MiB, and else tenths of a MiB.
#[derive(Clone, Copy)]
pub(crate) struct WithUnit(pub(crate) u32);

impl Display for WithUnit {
    fn fmt<W: fmt::Write>(&self, f: &mut Formatter<W>) -> fmt::Result {
        if self.0 < 256 {
            let kibibytes = 4 * self.0;
            return write!(f, "{kibibytes} KiB");
        }
        let tenths = Tenths(in_units(10, u64::from(self.0)));
        write!(f, "{tenths} MiB")
    }
}
