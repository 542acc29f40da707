//! Reports made by hand, instead of by a machine.
ghost use Rattle.std.specs.Prelude.{◌≡◌};

use page_model::Report;

/// Returns what a machine reports after a store to its only page and some loads: this many entries, and one page in one
/// frame.
pub fn one_page(entries: u32) -> Report
    ensures { result ≡ record { entries = entries; mapped = 1; shared = 0; frames = 1; reclaimed = 0; hints = 0 } }
{
    Report::new(entries, 1, 0, 1, 0)
}

/// Returns what is read before anything was published.
pub fn all_zeros() -> Report {
    Report::new(0, 0, 0, 0, 0)
}

/// Returns a report of this many entries whose other numbers depend on that number.
pub fn mixed(entries: u32) -> Report
    ensures { result.entries ≡ entries }
{
    let (by_seven, by_eleven, by_thirteen) = (entries % 7, entries % 11, entries % 13);
    let frames = 10 + by_seven + by_eleven;
    Report::new(
        entries,
        frames + 30 + by_thirteen,
        20 + by_thirteen,
        frames,
        1 + by_seven,
    )
}
