//! What the thread that lends a monitor's pages decides, for the C that makes its system calls: what is done next with a page, which pages
//! a call of the monitor is about, which ones a device may hold, how many mappings may be made, and how much processor time it may use.
//!
//! What is known of windows' pages is behind a handle (`process`). Of a budget, of tasks, ranges, transfers and a session C keeps the numbers, and passes
//! their address to each call. No call has a condition on its arguments except that its references are valid. `window/pageshare_process.h` and
//! `window/pageshare_window.h` declare the same functions in C, and say what the caller owes.
#![tactic(auto)]

ghost use Rattle.std.specs.Prelude.{◌≡◌, ◌+◌, if◌then◌else◌, length, slice_get, true, false};
ghost use Rattle.std.specs.List.{list_any};
ghost use Rattle.look_tasks.specs.Budgets.{begun, credited, paced};
ghost use Rattle.look_tasks.specs.Chores.{again_at};
ghost use Rattle.look_tasks.specs.Rooms.{fits, most_of};
ghost use Rattle.offered_ranges.specs.Pieces.{IsFirst, meets};
ghost use Rattle.offered_ranges.specs.Tables.{added, can_add, can_take_out, is_of, ranges_of, taken_out};
ghost use Rattle.page_looks.specs.Parts.{order_of, part_then};
ghost use Rattle.pageshare_window_c.specs.Budgets.{ledger_of, rates};
ghost use Rattle.pageshare_window_c.specs.Parts.{part_number};

mod budget;
mod holds;
mod laws;
mod looks;
mod numbers;
mod part;
pub mod process;
mod ranges;
pub mod session;
mod tasks;
mod times;
mod transfers;

pub use budget::{CREDIT_NS, OWED_NS, SAVED_NS, WindowBudget};
use budget::{budget_of, config_by, put};
pub use client_session::KeptSession;
pub use holds::{WindowRowOrder, pageshare_window_row_again};
pub use laws::{limits_law, tasks_law};
use look_tasks::Budget;
use look_tasks::room::{fits, most};
pub use look_tasks::{LookFinds, LookSteps, LookTasks, LookTimes, PartReturn, TaskOutcome};
pub use looks::WindowLook;
pub use numbers::pageshare_window_find_numbers;
pub use offered_ranges::{OfferedBounds, OfferedRange, Piece, Taken};
use offered_ranges::{add, is_part_left, next as next_piece, take_out};
pub use page_looks::finds::FindOutcome;
pub use page_looks::parts::{Part, PartConfig, PartLook};
use part::part_number;
pub use ranges::{pageshare_window_bounds, pageshare_window_is_all_left};
pub use tasks::{
    WindowTask, pageshare_window_begin_tasks, pageshare_window_next_task,
    pageshare_window_task_done,
};
pub use times::{
    pageshare_window_be_eager, pageshare_window_begin_times, pageshare_window_look_ended,
    pageshare_window_pause_ms,
};
pub use transfers::{pageshare_window_begin_transfer, pageshare_window_end_transfer};
pub use window_pages::{PartCounts, WindowFacts, WindowPage};
pub use window_tables::pins::Transfer;
pub use window_tables::runs::PageRun;

/// Begins a budget at these readings of the clocks: the time, and the processor time that the thread has used. A share is 1 to 100
/// percent of one processor, and a burst is no less.
#[unsafe(no_mangle)]
pub extern "C" fn pageshare_window_begin(
    budget: &mut WindowBudget,
    percent: u32,
    burst: u32,
    now: u64,
    spent: u64,
)
    ensures { ledger_of budget.new ≡ begun (rates percent burst) now spent }
{
    put(budget, &Budget::new(config_by(percent, burst), now, spent));
}

/// Changes the rates, and keeps the rest.
#[unsafe(no_mangle)]
pub extern "C" fn pageshare_window_pace(budget: &mut WindowBudget, percent: u32, burst: u32)
    ensures { ledger_of budget.new ≡ paced (ledger_of budget.old) percent burst }
{
    let mut paced = budget_of(budget);
    paced.pace(percent, burst);
    put(budget, &paced);
}

/// Adds to the credit: processor time that may be used beyond the share, up to the burst.
#[unsafe(no_mangle)]
pub extern "C" fn pageshare_window_give_credit(budget: &mut WindowBudget, ns: u64)
    ensures { ledger_of budget.new ≡ credited (ledger_of budget.old) ns }
{
    let mut credited = budget_of(budget);
    credited.give_credit(ns);
    put(budget, &credited);
}

/// Returns when something is done again that doesn't wait for the budget, began at `begun` and used `took` nanoseconds of processor time:
/// after `least` nanoseconds, or later, so that it uses at most a tenth of a share of so many percent.
#[unsafe(no_mangle)]
pub extern "C" fn pageshare_window_again(percent: u32, begun: u64, took: u64, least: u64) -> u64
    ensures { result ≡ again_at percent begun took least }
{
    look_tasks::again_ns(percent, begun, took, least)
}

/// Returns how many mappings windows may take in all, of so many that the system lets the process have.
#[unsafe(no_mangle)]
pub extern "C" fn pageshare_window_mappings_most(limit: u64) -> u64
    ensures { result ≡ most_of limit }
{
    most(limit)
}

/// Returns whether windows may take so many mappings more, where they have taken so many, and may take so many in all. None more always
/// may be taken.
#[unsafe(no_mangle)]
pub extern "C" fn pageshare_window_has_mappings(most: u64, taken: u64, count: u64) -> bool
    ensures { result ≡ fits most taken count }
{
    fits(most, taken, count)
}

/// Finds the first piece of ranges that lies between two pages: of `begin` and what comes after it, but of neither `end` nor what comes
/// after that. Returns whether there is one, and else leaves `piece` as it is.
#[unsafe(no_mangle)]
pub extern "C" fn pageshare_window_next_piece(
    ranges: &[OfferedRange],
    begin: u64,
    end: u64,
    piece: &mut Piece,
) -> bool
    ensures found { result ≡ list_any (meets begin end) ranges.now }
    ensures first { result ≡ true → IsFirst begin end ranges.now piece.new }
    ensures same { result ≡ false → piece.new ≡ piece.old }
{
    match next_piece(ranges, begin, end) {
        None => false,
        Some(found) => {
            *piece = found;
            true
        }
    }
}

/// Returns whether a range is left of a window.
#[unsafe(no_mangle)]
pub extern "C" fn pageshare_window_is_part_left(ranges: &[OfferedRange], window: u64) -> bool
    ensures { result ≡ list_any (is_of window) ranges.now }
{
    is_part_left(ranges, window)
}

/// Adds a range that isn't a window yet to a table of which `count` places are used. Returns whether it did: not if the range is empty,
/// if one of its pages is in another range, or if no place is free.
#[unsafe(no_mangle)]
pub extern "C" fn pageshare_window_add_range(
    ranges: &mut [OfferedRange],
    count: &mut usize,
    begin: u64,
    end: u64,
    said: u64,
) -> bool
    ensures added { result ≡ can_add (length ranges.old) count.old (ranges_of count.old ranges.old) begin end }
    ensures ranges { ranges_of count.new ranges.new ≡ if result then added (ranges_of count.old ranges.old) begin end said else ranges_of count.old ranges.old }
    ensures count { count.new ≡ if result then count.old + 1 else count.old }
{
    add(ranges, count, begin, end, said)
}

/// Takes pages out of the range at a place. What is left of that range, one part or two, goes to the end of the table. Returns whether
/// it did: not if these pages aren't a piece of that range, or if no place is free for a second part.
#[unsafe(no_mangle)]
pub extern "C" fn pageshare_window_take_out(
    ranges: &mut [OfferedRange],
    count: &mut usize,
    place: usize,
    begin: u64,
    end: u64,
) -> bool
    ensures taken { result ≡ can_take_out (length ranges.old) count.old begin end (slice_get (ranges_of count.old ranges.old) place) }
    ensures ranges { ranges_of count.new ranges.new ≡ if result then taken_out place begin end (slice_get (ranges_of count.old ranges.old) place) (ranges_of count.old ranges.old) else ranges_of count.old ranges.old }
    ensures count { count.new ≡ if result then length (ranges_of count.new ranges.new) else count.old }
{
    take_out(ranges, count, place, begin, end)
}

/// Returns the number of what is to be done with a part of a window after a look: 0 nothing, 1 it is split, 2 it is made whole. The caller
/// then writes to `whole` whether it was done.
#[unsafe(no_mangle)]
pub extern "C" fn pageshare_window_next_of_part(
    part: &mut Part,
    config: &PartConfig,
    look: &PartLook,
) -> u8
    ensures order { result ≡ part_number (order_of config.now part.old look.now) }
    ensures part { part.new ≡ part_then config.now part.old look.now (order_of config.now part.old look.now) }
{
    part_number(part.next(config, look))
}
