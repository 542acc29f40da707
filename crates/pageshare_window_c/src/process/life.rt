//! A process that comes and goes, and its windows that do.
ghost use Rattle.std.specs.Prelude.{◌≡◌, IfOk, None, false, is_some, option_map};
ghost use Rattle.std.specs.Option.{option_map_or};
ghost use Rattle.process_lender.specs.Offers.{can_take_out, end_of, is_open, no_windows, state_set};
ghost use Rattle.process_lender.specs.Windows.{window_at};
ghost use Rattle.pageshare_window_c.specs.Processes.{MakesProcess, Offers, OnHeld, no_place, with_facts, without};

use crate::process::handle::ProcessHandle;
use crate::process::held::HeldProcess;
use c_handles::Handle;
use process_lender::{ProcessFacts, ProcessLender, WindowState};
use std::alloc::{AllocError, Global};

/// A window that a process offers.
#[repr(C)]
#[derive(Clone, Copy)]
pub struct WindowOffer {
    /// The number of its first page in the process's memory.
    pub number: u64,
    /// How many pages it has.
    pub count: usize,
    /// How many seams between mappings it has.
    pub seams: usize,
    /// What is so of it.
    pub state: WindowState,
}

// Makes a process without windows.
fn new_process(alloc: Global, facts: ProcessFacts) -> Result<Box<HeldProcess>, AllocError>
    ensures { IfOk result (λ boxed. boxed.value ≡ no_windows facts) }
{
    let lender = ProcessLender::new(alloc, facts)?;
    let boxed = Box::new(alloc, HeldProcess { lender })?;
    Ok(boxed)
}

/// Makes a process without windows, of which this is so. Returns false, and changes nothing, if the handle holds a process, or if there is no memory.
#[unsafe(no_mangle)]
pub extern "C" fn pageshare_process_make(
    alloc: Global,
    process: &mut ProcessHandle,
    facts: &ProcessFacts,
) -> bool
    ensures { MakesProcess facts.now result process.old.slot.lender process.new.slot.lender }
{
    if process.is_live() {
        return false;
    }
    match new_process(alloc, *facts) {
        Err(_) => false,
        Ok(held) => {
            process.put(held);
            true
        }
    }
}

/// Frees a process, with all that is known of its windows. Returns whether the handle held one.
#[unsafe(no_mangle)]
pub extern "C" fn pageshare_process_free(alloc: Global, process: &mut ProcessHandle) -> bool
    ensures none { process.new.slot.lender ≡ None }
    ensures freed { result ≡ is_some process.old.slot.lender }
{
    match process.take(alloc) {
        None => false,
        Some(_held) => true,
    }
}

// Takes a window in, and returns its place, or the greatest number if there is no memory.
fn offer(lender: &mut ProcessLender<Global>, offer: &WindowOffer) -> usize
    ensures { Offers offer.now result lender.old lender.new }
{
    match lender.offer(offer.number, offer.count, offer.seams, offer.state) {
        Err(_) => usize::MAX,
        Ok(place) => place,
    }
}

/// Takes in a window of so many pages of which nothing is known, and returns its place: the first free one. Its mappings count, and its seams, too.
/// Returns the greatest number, and changes nothing, if the handle holds no process, or if there is no memory.
#[unsafe(no_mangle)]
pub extern "C" fn pageshare_process_offer(
    alloc: Global,
    process: &mut ProcessHandle,
    window: &WindowOffer,
) -> usize
    ensures { OnHeld (λ old new. Offers window.now result old new) (result ≡ no_place) process.old.slot.lender process.new.slot.lender }
{
    match process.take(alloc) {
        None => usize::MAX,
        Some(mut held) => {
            let place = offer(&mut held.lender, window);
            process.put(held);
            place
        }
    }
}

/// Ends a window: nothing is lent of it any more, and its mappings don't count. Its pages stay known, whose slots are to be released. Returns false,
/// and changes nothing, if there is no such window, or if it has ended.
#[unsafe(no_mangle)]
pub extern "C" fn pageshare_process_end(
    alloc: Global,
    process: &mut ProcessHandle,
    window: usize,
) -> bool
    ensures done { result ≡ option_map_or (λ l. is_open (window_at window l.windows)) process.old.slot.lender false }
    ensures ended { process.new.slot.lender ≡ option_map (λ l. end_of window (window_at window l.windows) l) process.old.slot.lender }
{
    match process.take(alloc) {
        None => false,
        Some(mut held) => {
            let done = held.lender.end(window);
            process.put(held);
            done
        }
    }
}

/// Takes out a window that has ended, and frees its place. Returns false, and changes nothing, if there is no such window, if it hasn't ended, or if a
/// slot of its pages is still to be released.
#[unsafe(no_mangle)]
pub extern "C" fn pageshare_process_take_out(
    alloc: Global,
    process: &mut ProcessHandle,
    window: usize,
) -> bool
    ensures done { result ≡ option_map_or (λ l. can_take_out window l.windows) process.old.slot.lender false }
    ensures free { process.new.slot.lender ≡ option_map (without window) process.old.slot.lender }
{
    match process.take(alloc) {
        None => false,
        Some(mut held) => {
            let done = held.lender.take_out(window);
            process.put(held);
            done
        }
    }
}

/// Notes what is so of the process from now on. Returns false if the handle holds none.
#[unsafe(no_mangle)]
pub extern "C" fn pageshare_process_set_facts(
    alloc: Global,
    process: &mut ProcessHandle,
    facts: &ProcessFacts,
) -> bool
    ensures done { result ≡ is_some process.old.slot.lender }
    ensures set { process.new.slot.lender ≡ option_map (with_facts facts.now) process.old.slot.lender }
{
    match process.take(alloc) {
        None => false,
        Some(mut held) => {
            held.lender.set_facts(*facts);
            process.put(held);
            true
        }
    }
}

/// Notes what is so of a window from now on. Returns false, and notes nothing, if there is no such window, or if it has ended.
#[unsafe(no_mangle)]
pub extern "C" fn pageshare_process_set_state(
    alloc: Global,
    process: &mut ProcessHandle,
    window: usize,
    state: &WindowState,
) -> bool
    ensures done { result ≡ option_map_or (λ l. is_open (window_at window l.windows)) process.old.slot.lender false }
    ensures set { process.new.slot.lender ≡ option_map (λ l. state_set window state.now (window_at window l.windows) l) process.old.slot.lender }
{
    match process.take(alloc) {
        None => false,
        Some(mut held) => {
            let done = held.lender.set_state(window, *state);
            process.put(held);
            done
        }
    }
}
