//! A window's tables.

use crate::WindowState;
use page_looks::parts::Part;
use std::alloc::Allocator;
use std::marker::Model;
use window_pages::{PartCounts, WindowPage};

// A window.
#[derive(Drop)]
pub(crate) struct WindowTables<A: Allocator> {
    // Its pages.
    pub(crate) pages: Vec<WindowPage, A>,
    // Counts of the pages of each part.
    pub(crate) counts: Vec<PartCounts, A>,
    // Its parts.
    pub(crate) parts: Vec<Part, A>,
    // How often each page was pinned. Empty as long as none was.
    pub(crate) pins: Vec<u16, A>,
    // How many pages of its first part lie before it.
    pub(crate) lead: usize,
    // How many seams between mappings it had when it was offered.
    pub(crate) seams: usize,
    // What is so of it.
    pub(crate) state: WindowState,
    // It is a window no more, and has pages whose slots aren't released yet.
    pub(crate) has_ended: bool,
}

impl<A: Allocator> Model for WindowTables<A> {
    ghost use Rattle.process_lender.specs.Windows.{Window};

    ghost Value = { Window };

    ghost view = { λ w. record { pages = w.pages.items; counts = w.counts.items; parts = w.parts.items; pins = w.pins.items; lead = w.lead; seams = w.seams; state = w.state; has_ended = w.has_ended } };
}
