//! What is done next with pages that are held in a row.
ghost use Rattle.std.specs.Prelude.{◌≡◌, ◌%◌};
ghost use Rattle.pageshare_window_c.specs.Holds.{order_by, step_number};

use page_holds::HoldStep;
use page_holds::rows::{RowOrder, again};

/// What is done next with pages of a row.
#[repr(C)]
#[derive(Clone, Copy)]
pub struct WindowRowOrder {
    /// The first of the pages, counted from the row's first one.
    pub first: usize,
    /// How many pages in a row they are.
    pub count: usize,
    /// The number of what is done.
    pub step: u8,
}

// Returns the number of what is done next.
fn step_number(step: HoldStep) -> u8
    ensures { result ≡ step_number step }
{
    match step {
        HoldStep::Over => 0,
        HoldStep::Compare => 1,
        HoldStep::CompareZeros => 2,
        HoldStep::Map => 3,
        HoldStep::GiveBack => 4,
        HoldStep::PutBack => 5,
        HoldStep::EndWatch => 6,
    }
}

// Returns an order's numbers.
pub(crate) fn order_numbers(order: RowOrder) -> WindowRowOrder
    ensures order { order_by result ≡ order }
    ensures step { result.step ≡ step_number order.step }
{
    WindowRowOrder {
        first: order.first,
        count: order.count,
        step: step_number(order.step),
    }
}

/// Returns the byte of a page with which a row of its own begins: it isn't stuck, and its memory is where it was.
#[unsafe(no_mangle)]
pub extern "C" fn pageshare_window_row_again(byte: u8) -> u8
    ensures { result ≡ byte % 4 }
{
    again(byte)
}
