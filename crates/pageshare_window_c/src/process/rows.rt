//! Pages of a window that are held in a row.
ghost use Rattle.std.specs.Prelude.{◌≡◌};
ghost use Rattle.process_lender.specs.Lists.{NoAnswer};
ghost use Rattle.process_lender.specs.Rows.{nothing_next};
ghost use Rattle.pageshare_window_c.specs.Holds.{order_by, step_number};
ghost use Rattle.pageshare_window_c.specs.Processes.{OnHeld};
ghost use Rattle.pageshare_window_c.specs.ProcessRows.{BeginsRowIn, CameOfOrderIn, FindsNextIn};

use crate::holds::{WindowRowOrder, order_numbers};
use crate::process::handle::ProcessHandle;
use c_handles::Handle;
use page_holds::HoldStep;
use page_holds::rows::RowOrder;
use std::alloc::Global;

// Nothing is done any more with pages of a row.
const OVER: RowOrder = RowOrder {
    step: HoldStep::Over,
    first: 0,
    count: 0,
};

/// Takes what came of the attempt to hold each page of a row, which begins with the page `first`, and writes a byte of each page to `row`: where its
/// memory is. Returns false, and changes nothing, if the handle holds no process, if there is no such window, if these pages aren't all there, or if there
/// are more or fewer attempts than bytes.
#[unsafe(no_mangle)]
pub extern "C" fn pageshare_process_begin_row(
    alloc: Global,
    process: &mut ProcessHandle,
    window: usize,
    first: usize,
    row: &mut [u8],
    takings: &[u8],
) -> bool
    ensures { OnHeld (λ old new. BeginsRowIn window first takings.now result row.old row.new old new) (NoAnswer result row.old row.new) process.old.slot.lender process.new.slot.lender }
{
    match process.take(alloc) {
        None => false,
        Some(mut held) => {
            let done = held.lender.begin_row(window, first, row, takings);
            process.put(held);
            done
        }
    }
}

/// Finds what is done next with pages of a row. If writes to a page may wait, that is its order from then on. Where the handle holds no process, or where
/// there is no such window, nothing is.
#[unsafe(no_mangle)]
pub extern "C" fn pageshare_process_next_of_row(
    alloc: Global,
    process: &mut ProcessHandle,
    window: usize,
    first: usize,
    row: &[u8],
    order: &mut WindowRowOrder,
)
    ensures row { OnHeld (λ old new. FindsNextIn window first row.now (order_by order.new) old new) (order_by order.new ≡ nothing_next) process.old.slot.lender process.new.slot.lender }
    ensures step { order.new.step ≡ step_number (order_by order.new).step }
{
    match process.take(alloc) {
        None => *order = order_numbers(OVER),
        Some(mut held) => {
            let next = held.lender.next_of_row(window, first, row);
            process.put(held);
            *order = order_numbers(next);
        }
    }
}

/// Takes what came of an order of a row: with the first `done` of its pages the step was done, and with `refused` pages behind these it wasn't. The others
/// weren't tried, and are ordered again. Returns false, and changes nothing, if the handle holds no process, if there is no such window, or if the row has
/// no such pages.
#[unsafe(no_mangle)]
pub extern "C" fn pageshare_process_row_done(
    alloc: Global,
    process: &mut ProcessHandle,
    window: usize,
    first: usize,
    row: &mut [u8],
    order: &WindowRowOrder,
    done: usize,
    refused: usize,
) -> bool
    ensures { OnHeld (λ old new. CameOfOrderIn window first order.now.first done refused result row.old row.new old new) (NoAnswer result row.old row.new) process.old.slot.lender process.new.slot.lender }
{
    match process.take(alloc) {
        None => false,
        Some(mut held) => {
            let is_done = held
                .lender
                .row_done(window, first, row, order.first, done, refused);
            process.put(held);
            is_done
        }
    }
}
