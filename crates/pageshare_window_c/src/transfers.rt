//! Transfers that are under way: which pages a device may hold.
ghost use Rattle.std.specs.Prelude.{◌≡◌};
ghost use Rattle.window_tables.specs.Transfers.{elsewhere_begun, elsewhere_ended, first_free, with_begun, with_ended};

use window_tables::pins::{Transfer, begin, end};

/// Begins a transfer at the first free place, and returns that place. Where none is free it counts the transfer as one that is elsewhere,
/// and returns the number of places.
#[unsafe(no_mangle)]
pub extern "C" fn pageshare_window_begin_transfer(
    table: &mut [Transfer],
    elsewhere: &mut u64,
    from: u64,
    to: u64,
) -> usize
    ensures place { result ≡ first_free table.old }
    ensures table { table.new ≡ with_begun from to table.old }
    ensures elsewhere { elsewhere.new ≡ elsewhere_begun table.old elsewhere.old }
{
    begin(table, elsewhere, from, to)
}

/// Ends the transfer at a place. Beyond the places it ends one that is elsewhere.
#[unsafe(no_mangle)]
pub extern "C" fn pageshare_window_end_transfer(
    table: &mut [Transfer],
    elsewhere: &mut u64,
    place: usize,
)
    ensures table { table.new ≡ with_ended place table.old }
    ensures elsewhere { elsewhere.new ≡ elsewhere_ended place table.old elsewhere.old }
{
    end(table, elsewhere, place);
}
