//! Pages of a window in a row: what is noted and asked of them, and what is read.
ghost use Rattle.std.specs.Prelude.{◌≡◌, None, false, is_some, unwrap_or};
ghost use Rattle.std.specs.Option.{option_map_or};
ghost use Rattle.process_lender.specs.Questions.{NoneStays};
ghost use Rattle.pageshare_window_c.specs.Processes.{OfHeld, OnHeld};
ghost use Rattle.pageshare_window_c.specs.ProcessPages.{AnswersAs, FindsStayingIn, NotesAs, notice_by, part_read, question_by, run_in};

use crate::process::handle::ProcessHandle;
use crate::process::notice::{ProcessNotice, notice_by};
use crate::process::question::{ProcessQuestion, question_by};
use c_handles::Handle;
use page_looks::parts::Part;
use process_lender::ProcessLender;
use std::alloc::Global;
use window_pages::{PartCounts, WindowFacts};
use window_tables::runs::PageRun;

/// What is known of a part of a window.
#[repr(C)]
#[derive(Clone, Copy)]
pub struct PartRead {
    /// What looks have found of it.
    pub part: Part,
    /// Counts of its pages.
    pub counts: PartCounts,
}

// Notes what has become of pages in a row.
fn note(
    lender: &mut ProcessLender<Global>,
    window: usize,
    first: usize,
    count: usize,
    notice: &ProcessNotice,
) -> bool
    ensures { NotesAs (notice_by notice.now) window first count result lender.old lender.new }
{
    match notice_by(notice) {
        None => false,
        Some(notice) => lender.note(window, first, count, notice),
    }
}

/// Notes what has become of `count` pages of a window from `first` on. Returns false, and changes nothing, if the handle holds no process, if there is no
/// such window, if these pages aren't all there, or if no notice has this number.
#[unsafe(no_mangle)]
pub extern "C" fn pageshare_process_note(
    alloc: Global,
    process: &mut ProcessHandle,
    window: usize,
    first: usize,
    count: usize,
    notice: &ProcessNotice,
) -> bool
    ensures { OnHeld (λ old new. NotesAs (notice_by notice.now) window first count result old new) (result ≡ false) process.old.slot.lender process.new.slot.lender }
{
    match process.take(alloc) {
        None => false,
        Some(mut held) => {
            let done = note(&mut held.lender, window, first, count, notice);
            process.put(held);
            done
        }
    }
}

// Returns the answer to a question about pages in a row.
fn may(
    lender: &ProcessLender<Global>,
    window: usize,
    first: usize,
    count: usize,
    question: &ProcessQuestion,
) -> bool
    ensures { AnswersAs (question_by question.now) window first count result lender.now }
{
    match question_by(question) {
        None => false,
        Some(question) => lender.may(window, first, count, question),
    }
}

/// Returns the answer to a question about `count` pages of a window from `first` on. Returns false if the handle holds no process, if there is no such
/// window, if these pages aren't all there, or if no question has this number.
#[unsafe(no_mangle)]
pub extern "C" fn pageshare_process_may(
    alloc: Global,
    process: &mut ProcessHandle,
    window: usize,
    first: usize,
    count: usize,
    question: &ProcessQuestion,
) -> bool
    ensures answer { OfHeld (λ l. AnswersAs (question_by question.now) window first count result l) (result ≡ false) process.old.slot.lender }
    ensures same { process.new.slot.lender ≡ process.old.slot.lender }
{
    match process.take(alloc) {
        None => false,
        Some(held) => {
            let is = may(&held.lender, window, first, count, question);
            process.put(held);
            is
        }
    }
}

/// Finds which pages over frames have to stay where they are, of which `why` is so besides. Of each page `copies` says whether it has memory of its own;
/// what is found takes the place of that. Returns false, and finds nothing, if the handle holds no process, if there is no such window, or if the pages
/// aren't all there.
#[unsafe(no_mangle)]
pub extern "C" fn pageshare_process_find_staying(
    alloc: Global,
    process: &mut ProcessHandle,
    window: usize,
    why: &WindowFacts,
    first: usize,
    copies: &mut [bool],
) -> bool
    ensures found { OfHeld (λ l. FindsStayingIn why.now window first result copies.old copies.new l) (NoneStays result copies.old copies.new) process.old.slot.lender }
    ensures same { process.new.slot.lender ≡ process.old.slot.lender }
{
    match process.take(alloc) {
        None => false,
        Some(held) => {
            let is = held.lender.find_staying(window, why, first, copies);
            process.put(held);
            is
        }
    }
}

// Writes the first run of pages of some kinds.
fn next_run(
    lender: &ProcessLender<Global>,
    window: usize,
    first: usize,
    end: usize,
    kinds: u8,
    run: &mut PageRun,
) -> bool
    ensures found { result ≡ is_some (run_in kinds window first end lender.now) }
    ensures run { run.new ≡ unwrap_or (run_in kinds window first end lender.now) run.old }
{
    match lender.next_run(window, first, end, kinds) {
        None => false,
        Some(found) => {
            *run = found;
            true
        }
    }
}

/// Finds the first run of pages of some kinds, a sum of their numbers, from one page on and before another. Returns whether there is one, and else
/// leaves `run` as it is: where there is none, no such window, or no process.
#[unsafe(no_mangle)]
pub extern "C" fn pageshare_process_next_run(
    alloc: Global,
    process: &mut ProcessHandle,
    window: usize,
    first: usize,
    end: usize,
    kinds: u8,
    run: &mut PageRun,
) -> bool
    ensures found { result ≡ is_some (option_map_or (run_in kinds window first end) process.old.slot.lender None) }
    ensures run { run.new ≡ unwrap_or (option_map_or (run_in kinds window first end) process.old.slot.lender None) run.old }
    ensures same { process.new.slot.lender ≡ process.old.slot.lender }
{
    match process.take(alloc) {
        None => false,
        Some(held) => {
            let is = next_run(&held.lender, window, first, end, kinds, run);
            process.put(held);
            is
        }
    }
}

// Reads the part of a page.
fn read_part(
    lender: &ProcessLender<Global>,
    window: usize,
    first: usize,
    part: &mut PartRead,
) -> bool
    ensures there { result ≡ is_some (part_read window first lender.now) }
    ensures part { part.new ≡ unwrap_or (part_read window first lender.now) part.old }
{
    match lender.part(window, first) {
        None => false,
        Some(found) => match lender.counts(window, first) {
            None => false,
            Some(counts) => {
                *part = PartRead {
                    part: found,
                    counts,
                };
                true
            }
        },
    }
}

/// Reads what is known of the part of a page of a window. Returns whether it is there, and else leaves `part` as it is: where there is none, no such
/// window, or no process.
#[unsafe(no_mangle)]
pub extern "C" fn pageshare_process_read_part(
    alloc: Global,
    process: &mut ProcessHandle,
    window: usize,
    first: usize,
    part: &mut PartRead,
) -> bool
    ensures there { result ≡ is_some (option_map_or (part_read window first) process.old.slot.lender None) }
    ensures part { part.new ≡ unwrap_or (option_map_or (part_read window first) process.old.slot.lender None) part.old }
    ensures same { process.new.slot.lender ≡ process.old.slot.lender }
{
    match process.take(alloc) {
        None => false,
        Some(held) => {
            let is = read_part(&held.lender, window, first, part);
            process.put(held);
            is
        }
    }
}

/// Returns how many mappings windows have taken, 0 if the handle holds no process.
#[unsafe(no_mangle)]
pub extern "C" fn pageshare_process_mappings(alloc: Global, process: &mut ProcessHandle) -> usize
    ensures count { result ≡ option_map_or (λ l. l.mappings) process.old.slot.lender 0 }
    ensures same { process.new.slot.lender ≡ process.old.slot.lender }
{
    match process.take(alloc) {
        None => 0,
        Some(held) => {
            let count = held.lender.mappings();
            process.put(held);
            count
        }
    }
}
