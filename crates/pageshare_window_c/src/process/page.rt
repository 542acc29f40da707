//! Single pages of a window, and copies of pages in a row.
ghost use Rattle.std.specs.Prelude.{◌≡◌, false};
ghost use Rattle.process_lender.specs.Pages.{NoneRead};
ghost use Rattle.pageshare_window_c.specs.Processes.{OfHeld, OnHeld};
ghost use Rattle.pageshare_window_c.specs.ProcessPages.{NotesPageAs, ReadsPagesIn, page_notice_by};

use crate::process::handle::ProcessHandle;
use c_handles::Handle;
use process_lender::{PageNotice, ProcessLender};
use std::alloc::Global;
use window_pages::WindowPage;

// Returns what is noted of a page. No other number is that of a notice.
fn notice_by(kind: u8, flag: bool) -> Option<PageNotice>
    ensures { result ≡ page_notice_by kind flag }
{
    match kind {
        1 => Some(PageNotice::AskedAtOnce),
        2 => Some(PageNotice::Held(flag)),
        3 => Some(PageNotice::GivenBack(flag)),
        _ => None,
    }
}

// Notes something of a page, if it is a notice.
fn note_page(
    lender: &mut ProcessLender<Global>,
    window: usize,
    page: usize,
    notice: Option<PageNotice>,
) -> bool
    ensures { NotesPageAs notice window page result lender.old lender.new }
{
    match notice {
        None => false,
        Some(notice) => lender.note_page(window, page, notice),
    }
}

/// Notes something of a page of a window: 1 the host is to be asked about it at once; 2 it was to be held, and was, if the flag is set; 3 it was given back
/// as zeros and has no memory, if the flag is set, or it has memory. Returns false, and changes nothing, if the handle holds no process, if there is no such
/// window or page, or if no notice has this number.
#[unsafe(no_mangle)]
pub extern "C" fn pageshare_process_note_page(
    alloc: Global,
    process: &mut ProcessHandle,
    window: usize,
    page: usize,
    kind: u8,
    flag: bool,
) -> bool
    ensures { OnHeld (λ old new. NotesPageAs (page_notice_by kind flag) window page result old new) (result ≡ false) process.old.slot.lender process.new.slot.lender }
{
    match process.take(alloc) {
        None => false,
        Some(mut held) => {
            let done = note_page(&mut held.lender, window, page, notice_by(kind, flag));
            process.put(held);
            done
        }
    }
}

/// Reads what is known of pages of a window, one after another, from the page `first` on: as many as `pages` has places. Returns false, and reads nothing, if
/// the handle holds no process, if there is no such window, or if these pages aren't all there.
#[unsafe(no_mangle)]
pub extern "C" fn pageshare_process_read_pages(
    alloc: Global,
    process: &mut ProcessHandle,
    window: usize,
    first: usize,
    pages: &mut [WindowPage],
) -> bool
    ensures pages { OfHeld (λ l. ReadsPagesIn window first result pages.old pages.new l) (NoneRead result pages.old pages.new) process.old.slot.lender }
    ensures same { process.new.slot.lender ≡ process.old.slot.lender }
{
    match process.take(alloc) {
        None => false,
        Some(held) => {
            let done = held.lender.read_pages(window, first, pages);
            process.put(held);
            done
        }
    }
}
