//! Parts of a window, and pages of it that were pinned.
ghost use Rattle.std.specs.Prelude.{◌≡◌, false};
ghost use Rattle.pageshare_window_c.specs.Processes.{OnHeld};
ghost use Rattle.pageshare_window_c.specs.ProcessRows.{NotesPart, NotesPartAs, PinsIn, change_by, order_after};

use crate::looks::{WindowLook, config_of};
use crate::part::part_number;
use crate::process::handle::ProcessHandle;
use c_handles::Handle;
use page_looks::parts::{PartConfig, PartLook};
use process_lender::{PartNotice, ProcessLender};
use std::alloc::Global;

/// What is noted of a part.
#[repr(C)]
#[derive(Clone, Copy)]
pub struct ProcessPartNotice {
    /// The number of what it is.
    pub kind: u8,
    /// It is backed by a huge page, or it is whole.
    pub flag: bool,
    /// Idle pages that have changed.
    pub changes: u32,
    /// Pages with memory of their own.
    pub own: u32,
    /// When parts are split, and when they are made whole.
    pub config: PartConfig,
    /// What a look found of it.
    pub found: PartLook,
    /// The look.
    pub look: WindowLook,
}

/// What becomes of a part.
#[derive(Clone, Copy)]
pub enum PartChange {
    /// This is noted of it.
    Noted(PartNotice),
    /// It is whole from now on, or split.
    Whole(bool),
}

// Returns what becomes of a part. No other number is that of a notice.
fn change_by(notice: &ProcessPartNotice) -> Option<PartChange>
    ensures { result ≡ change_by notice.now }
{
    match notice.kind {
        1 => Some(PartChange::Noted(PartNotice::Settled(notice.config, notice.found))),
        2 => Some(PartChange::Noted(PartNotice::Rests(
            config_of(&notice.look),
            notice.changes,
            notice.own,
        ))),
        3 => Some(PartChange::Noted(PartNotice::Woken)),
        4 => Some(PartChange::Noted(PartNotice::Huge(notice.flag))),
        5 => Some(PartChange::Noted(PartNotice::Forgotten)),
        6 => Some(PartChange::Whole(notice.flag)),
        _ => None,
    }
}

// Writes what is to be done with a part of which a look found something.
fn put_order(
    lender: &ProcessLender<Global>,
    window: usize,
    first: usize,
    notice: &PartNotice,
    order: &mut u8,
)
    ensures { order.new ≡ order_after notice.now window first lender.now order.old }
{
    match notice {
        PartNotice::Settled(config, found) => {
            match lender.next_of_part(window, first, config, found) {
                None => {}
                Some(next) => *order = part_number(next),
            }
        }
        PartNotice::Rests(_, _, _) => {}
        PartNotice::Woken => {}
        PartNotice::Huge(_) => {}
        PartNotice::Forgotten => {}
    }
}

// Notes something of the part of a page, and writes what is to be done with it.
fn note_as(
    lender: &mut ProcessLender<Global>,
    window: usize,
    first: usize,
    notice: PartNotice,
    order: &mut u8,
) -> bool
    ensures { NotesPart notice window first result order.old order.new lender.old lender.new }
{
    put_order(lender, window, first, &notice, order);
    lender.note_part(window, first, notice)
}

// Notes something of the part of a page.
fn note_part(
    lender: &mut ProcessLender<Global>,
    window: usize,
    first: usize,
    notice: &ProcessPartNotice,
    order: &mut u8,
) -> bool
    ensures { NotesPartAs (change_by notice.now) window first result order.old order.new lender.old lender.new }
{
    match change_by(notice) {
        None => false,
        Some(PartChange::Noted(notice)) => note_as(lender, window, first, notice, order),
        Some(PartChange::Whole(is_whole)) => lender.set_whole(window, first, is_whole),
    }
}

/// Notes something of the part of a page of a window. Where a look found something of it, the number of what is to be done with it is written to `order`: 0
/// nothing, 1 it is split, 2 it is made whole. Returns false, and changes nothing, if the handle holds no process, if there is no such part, or if no notice
/// has this number; and if a part is to be whole or split, and this isn't the first page of one whose pages are all there.
#[unsafe(no_mangle)]
pub extern "C" fn pageshare_process_note_part(
    alloc: Global,
    process: &mut ProcessHandle,
    window: usize,
    first: usize,
    notice: &ProcessPartNotice,
    order: &mut u8,
) -> bool
    ensures { OnHeld (λ old new. NotesPartAs (change_by notice.now) window first result order.old order.new old new) ((result ≡ false) × (order.new ≡ order.old)) process.old.slot.lender process.new.slot.lender }
{
    match process.take(alloc) {
        None => false,
        Some(mut held) => {
            let done = note_part(&mut held.lender, window, first, notice, order);
            process.put(held);
            done
        }
    }
}

// Pins pages of a window once more, or once less. Returns whether it did.
fn pin(
    lender: &mut ProcessLender<Global>,
    window: usize,
    first: usize,
    count: usize,
    is_more: bool,
) -> bool
    ensures { PinsIn is_more window first count result lender.old lender.new }
{
    match lender.set_pins(window, first, count, is_more) {
        Err(_) => false,
        Ok(done) => done,
    }
}

/// Notes that `count` pages of a window from `first` on were pinned once more, or once less. Returns whether it did: not if the handle holds no process, if
/// there is no such window, if one of them isn't there, was pinned 65,535 times, or is to be unpinned and isn't pinned; and not if none of the window's pages
/// was pinned yet, and there is no memory for their counts. Then nothing changes.
#[unsafe(no_mangle)]
pub extern "C" fn pageshare_process_pin(
    alloc: Global,
    process: &mut ProcessHandle,
    window: usize,
    first: usize,
    count: usize,
    is_more: bool,
) -> bool
    ensures { OnHeld (λ old new. PinsIn is_more window first count result old new) (result ≡ false) process.old.slot.lender process.new.slot.lender }
{
    match process.take(alloc) {
        None => false,
        Some(mut held) => {
            let done = pin(&mut held.lender, window, first, count, is_more);
            process.put(held);
            done
        }
    }
}
