//! What is so of a page of a table: of its window, its process and its pins.
ghost use Rattle.std.specs.Prelude.{◌≡◌, ◌<◌, nat_lt, slice_index_or};
ghost use Rattle.window_tables.specs.Facts.{facts_at, is_pinned};

use window_pages::WindowFacts;

/// What is so of a window and its process, as far as it keeps the window's pages from being lent.
#[repr(C)]
#[derive(Clone, Copy, Debug, PartialEq, Eq)]
pub struct TableFacts {
    /// How many transfers aren't counted at their pages, and may be of any page.
    pub elsewhere: u64,
    /// Devices may hold memory of any page that is a copy over a frame, for all that is known.
    pub may_pin: bool,
    /// A child of a fork would have the window's pages.
    pub inherited: bool,
    /// Memory of the process is locked.
    pub locked: bool,
    /// Nothing is lent of the window any more.
    pub ends: bool,
    /// Nothing is lent of any window any more.
    pub is_over: bool,
}

// Returns whether a page was pinned. No page was where there is no table of pins.
fn is_pinned(pins: &[u16], page: usize) -> bool
    ensures { result ≡ is_pinned pins.now page }
{
    page < pins.len() && pins[page] > 0
}

/// Returns what is so of a page: of its window and its process, of its pins, and what is so besides (`why`). `pins` has how often each page
/// was pinned, and is empty if none was yet.
pub fn facts_of(table: &TableFacts, pins: &[u16], why: &WindowFacts, page: usize) -> WindowFacts
    ensures { result ≡ facts_at table.now pins.now why.now page }
{
    WindowFacts {
        called: why.called,
        pinned: why.pinned || is_pinned(pins, page),
        may_pin: why.may_pin || table.may_pin || table.elsewhere > 0,
        inherited: why.inherited || table.inherited,
        locked: why.locked || table.locked,
        leaves: why.leaves,
        ended: why.ended || table.ends || table.is_over,
    }
}
