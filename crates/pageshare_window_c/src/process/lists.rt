//! What is done with lists of a window's pages.
ghost use Rattle.std.specs.Prelude.{◌≡◌, false};
ghost use Rattle.process_lender.specs.Lists.{NoAnswer, NoneFound};
ghost use Rattle.pageshare_window_c.specs.Processes.{OnHeld};
ghost use Rattle.pageshare_window_c.specs.ProcessLists.{FindsReleasesIn, ListsAs, ReleasesIn, listed, listed_of, step_by, with_answers};

use crate::looks::{WindowLook, config_of};
use crate::process::handle::ProcessHandle;
use c_handles::Handle;
use process_lender::{Choice, ProcessLender};
use std::alloc::Global;

/// A list of pages, what is done with them, and what is known of each. What a call doesn't read may be empty.
#[repr(C)]
pub struct ProcessList<'a, 'b> {
    /// The pages' numbers.
    pub numbers: &'a [u32],
    /// The fingerprint of each.
    pub fingerprints: &'a [u64],
    /// Of each: whether somebody else has it, whether it is there, or what came of its copy.
    pub given: &'a [u8],
    /// The slot that the host gave to each.
    pub slots: &'a [u64],
    /// The frame that the host gave to each.
    pub frames: &'a [u32],
    /// What is found of each.
    pub answers: &'b mut [u8],
    /// The look.
    pub look: WindowLook,
    /// How many frames the host's file has.
    pub file_frames: u32,
    /// The host was heard.
    pub is_heard: bool,
    /// The number of what is done.
    pub kind: u8,
}

/// What is done with a list.
#[derive(Clone, Copy)]
pub enum ListStep {
    /// Pages are chosen about which a host may be asked.
    ToAsk,
    /// The host's answers are taken.
    Answered,
    /// Pages are chosen that are to be copied.
    ToCopy,
    /// It is taken what came of the copies.
    Copied,
    /// It is taken what the host said of loans.
    Loaned,
    /// Pages are chosen that are to be held.
    ToHold,
    /// Pages are chosen that are to be held and given back as zeros.
    ToGiveBack,
}

// Returns what is done with a list, by its number.
fn step_by(kind: u8) -> Option<ListStep>
    ensures { result ≡ step_by kind }
{
    match kind {
        1 => Some(ListStep::ToAsk),
        2 => Some(ListStep::Answered),
        3 => Some(ListStep::ToCopy),
        4 => Some(ListStep::Copied),
        5 => Some(ListStep::Loaned),
        6 => Some(ListStep::ToHold),
        7 => Some(ListStep::ToGiveBack),
        _ => None,
    }
}

// Does that with pages of a window, of which this is said.
fn list_by(
    lender: &mut ProcessLender<Global>,
    window: usize,
    step: Option<ListStep>,
    numbers: &[u32],
    fingerprints: &[u64],
    given: &[u8],
    slots: &[u64],
    frames: &[u32],
    look: &WindowLook,
    file_frames: u32,
    is_heard: bool,
    answers: &mut [u8],
) -> bool
    ensures { ListsAs step (listed numbers.now fingerprints.now given.now slots.now frames.now look.now file_frames is_heard) window result answers.old answers.new lender.old lender.new }
{
    match step {
        None => false,
        Some(ListStep::ToAsk) => {
            lender.choose(
                window,
                Choice::ToAsk(config_of(look), look.look),
                numbers,
                answers,
            )
        }
        Some(ListStep::Answered) => {
            lender.answered(window, numbers, fingerprints, given, answers)
        }
        Some(ListStep::ToCopy) => lender.to_copy(window, numbers, given, fingerprints, answers),
        Some(ListStep::Copied) => lender.copied(window, numbers, given, answers),
        Some(ListStep::Loaned) => {
            lender.loaned(
                window,
                numbers,
                slots,
                frames,
                file_frames,
                is_heard,
                answers,
            )
        }
        Some(ListStep::ToHold) => lender.choose(window, Choice::ToHold, numbers, answers),
        Some(ListStep::ToGiveBack) => {
            lender.choose(window, Choice::ToGiveBack, numbers, answers)
        }
    }
}

// Does what a list says with its pages.
fn list(lender: &mut ProcessLender<Global>, window: usize, list: &mut ProcessList<'_, '_>) -> bool
    ensures done { ListsAs (step_by list.old.kind) (listed_of list.old) window result list.old.answers.now list.new.answers.now lender.old lender.new }
    ensures rest { list.new ≡ with_answers list.new.answers.now list.old }
{
    let step = step_by(list.kind);
    let look = list.look;
    list_by(
        lender,
        window,
        step,
        list.numbers,
        list.fingerprints,
        list.given,
        list.slots,
        list.frames,
        &look,
        list.file_frames,
        list.is_heard,
        list.answers,
    )
}

/// Does something with a list of a window's pages, one after another, and writes an answer of each. Returns false, and changes nothing, if the handle
/// holds no process, if there is no such window, if the list's parts have different lengths, or if nothing has this number.
#[unsafe(no_mangle)]
pub extern "C" fn pageshare_process_list(
    alloc: Global,
    process: &mut ProcessHandle,
    window: usize,
    pages: &mut ProcessList<'_, '_>,
) -> bool
    ensures done { OnHeld (λ old new. ListsAs (step_by pages.old.kind) (listed_of pages.old) window result pages.old.answers.now pages.new.answers.now old new) (NoAnswer result pages.old.answers.now pages.new.answers.now) process.old.slot.lender process.new.slot.lender }
    ensures rest { pages.new ≡ with_answers pages.new.answers.now pages.old }
{
    match process.take(alloc) {
        None => false,
        Some(mut held) => {
            let done = list(&mut held.lender, window, pages);
            process.put(held);
            done
        }
    }
}

/// Finds which of `count` pages of a window from `first` on are to be released. That is their order from then on. Writes their numbers to `places`, as
/// many as there is space for, and returns how many they are. Where the handle holds no process, where there is no such window, or where these pages
/// aren't all there, there are none, and nothing changes.
#[unsafe(no_mangle)]
pub extern "C" fn pageshare_process_to_release(
    alloc: Global,
    process: &mut ProcessHandle,
    window: usize,
    first: usize,
    count: usize,
    places: &mut [usize],
) -> usize
    ensures { OnHeld (λ old new. FindsReleasesIn window first count result places.old places.new old new) (NoneFound result places.old places.new) process.old.slot.lender process.new.slot.lender }
{
    match process.take(alloc) {
        None => 0,
        Some(mut held) => {
            let found = held.lender.to_release(window, first, count, places);
            process.put(held);
            found
        }
    }
}

/// Takes what came of the message that released the slots of a list's pages: the host heard it, or it didn't. Returns false, and changes nothing, if the
/// handle holds no process, or if there is no such window.
#[unsafe(no_mangle)]
pub extern "C" fn pageshare_process_released(
    alloc: Global,
    process: &mut ProcessHandle,
    window: usize,
    numbers: &[usize],
    is_heard: bool,
) -> bool
    ensures { OnHeld (λ old new. ReleasesIn window numbers.now is_heard result old new) (result ≡ false) process.old.slot.lender process.new.slot.lender }
{
    match process.take(alloc) {
        None => false,
        Some(mut held) => {
            let done = held.lender.released(window, numbers, is_heard);
            process.put(held);
            done
        }
    }
}
