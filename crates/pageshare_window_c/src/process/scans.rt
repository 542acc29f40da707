//! Scans of a window's parts.
ghost use Rattle.std.specs.Prelude.{◌≡◌};
ghost use Rattle.process_lender.specs.Lists.{NoAnswer};
ghost use Rattle.pageshare_window_c.specs.Processes.{OfHeld, OnHeld};
ghost use Rattle.pageshare_window_c.specs.ProcessRows.{NumbersIn, ScansAs, scan_by, scan_step_by, scanned, scanned_of, with_row};

use crate::looks::{WindowLook, config_of};
use crate::process::handle::ProcessHandle;
use c_handles::Handle;
use page_looks::finds::FindOutcome;
use process_lender::{ProcessLender, WindowScan};
use std::alloc::Global;

/// A scan of pages in a row that are of one part. What a call doesn't read may be empty.
#[repr(C)]
pub struct ProcessScan<'a, 'b> {
    /// Which memory the system has for each page.
    pub memory: &'a [u8],
    /// What came of each page's step.
    pub outcomes: &'a [FindOutcome],
    /// What is done next with each page.
    pub row: &'b mut [u8],
    /// The number of the first page.
    pub first: usize,
    /// The look.
    pub look: WindowLook,
    /// The number of what is done.
    pub kind: u8,
}

/// What is done in a scan.
#[derive(Clone, Copy)]
pub enum ScanStep {
    /// It begins.
    Begin,
    /// It is taken what came of its steps.
    Done,
    /// It takes pages beside those that have changed.
    Follow,
}

// Returns what is done in a scan, by its number.
fn step_by(kind: u8) -> Option<ScanStep>
    ensures { result ≡ scan_step_by kind }
{
    match kind {
        1 => Some(ScanStep::Begin),
        2 => Some(ScanStep::Done),
        3 => Some(ScanStep::Follow),
        _ => None,
    }
}

// Returns the scan of a look.
fn scan_by(look: &WindowLook) -> WindowScan
    ensures { result ≡ scan_by look.now }
{
    WindowScan {
        config: config_of(look),
        look: look.look,
        zeros: look.zeros,
        is_return: look.is_return,
        ready: look.ready,
    }
}

// Does that in a scan of a window's pages, of which this is said.
fn scan_pages(
    lender: &mut ProcessLender<Global>,
    window: usize,
    step: Option<ScanStep>,
    scan: &WindowScan,
    first: usize,
    memory: &[u8],
    outcomes: &[FindOutcome],
    row: &mut [u8],
) -> bool
    ensures { ScansAs step (scanned scan.now first memory.now outcomes.now) window result row.old row.new lender.old lender.new }
{
    match step {
        None => false,
        Some(ScanStep::Begin) => lender.begin_scan(window, scan, first, memory, row),
        Some(ScanStep::Done) => lender.scan_done(window, scan, first, outcomes, row),
        Some(ScanStep::Follow) => lender.follow_changes(window, scan, first, memory, row),
    }
}

/// Does something in a scan of a window's pages, and writes a byte of each to `row`: what is done next with it. Returns false, and changes nothing, if the
/// handle holds no process, if there is no such window, if the pages aren't all there, if the row has another length, or if nothing has this number.
#[unsafe(no_mangle)]
pub extern "C" fn pageshare_process_scan(
    alloc: Global,
    process: &mut ProcessHandle,
    window: usize,
    pages: &mut ProcessScan<'_, '_>,
) -> bool
    ensures done { OnHeld (λ old new. ScansAs (scan_step_by pages.old.kind) (scanned_of pages.old) window result pages.old.row.now pages.new.row.now old new) (NoAnswer result pages.old.row.now pages.new.row.now) process.old.slot.lender process.new.slot.lender }
    ensures rest { pages.new ≡ with_row pages.new.row.now pages.old }
{
    match process.take(alloc) {
        None => false,
        Some(mut held) => {
            let done = scan_pages(
                &mut held.lender,
                window,
                step_by(pages.kind),
                &scan_by(&pages.look),
                pages.first,
                pages.memory,
                pages.outcomes,
                pages.row,
            );
            process.put(held);
            done
        }
    }
}

/// Finds where glances look at the pages at these places, counted from the page `first` of a window on, as far as they are there. Where the handle holds no
/// process, or where there is no such window, it finds nothing.
#[unsafe(no_mangle)]
pub extern "C" fn pageshare_process_glance_numbers(
    alloc: Global,
    process: &mut ProcessHandle,
    window: usize,
    first: usize,
    places: &[u16],
    numbers: &mut [u64],
)
    ensures found { OfHeld (λ l. NumbersIn window first places.now numbers.old numbers.new l) (numbers.new ≡ numbers.old) process.old.slot.lender }
    ensures same { process.new.slot.lender ≡ process.old.slot.lender }
{
    match process.take(alloc) {
        None => {}
        Some(held) => {
            held.lender.find_numbers(window, first, places, numbers);
            process.put(held);
        }
    }
}
