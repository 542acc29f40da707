//! What is to be done with a part of a window, as a number.
ghost use Rattle.std.specs.Prelude.{◌≡◌};
ghost use Rattle.pageshare_window_c.specs.Parts.{part_number};

use page_looks::parts::PartOrder;

// Returns the number of what is to be done.
pub(crate) fn part_number(order: PartOrder) -> u8
    ensures { result ≡ part_number order }
{
    match order {
        PartOrder::Stay => 0,
        PartOrder::Split => 1,
        PartOrder::MakeWhole => 2,
    }
}
