//! Transfers between a file and memory: meanwhile a device may hold the pages of that memory.
ghost use Rattle.std.specs.Prelude.{◌≡◌, position};
ghost use Rattle.window_tables.specs.Transfers.{elsewhere_begun, elsewhere_ended, first_free, is_free, with_begun, with_ended};

/// A place for a transfer, which may be empty: then no transfer is there.
#[repr(C)]
#[derive(Clone, Copy, Debug, PartialEq, Eq)]
pub struct Transfer {
    /// The address of the first byte of its memory.
    pub begin: u64,
    /// The address behind the last one.
    pub end: u64,
    /// A transfer is under way there.
    pub is_there: bool,
}

/// Begins a transfer at the first free place, and returns that place. Where none is free it counts the transfer as one that is elsewhere,
/// and returns the number of places.
pub fn begin(table: &mut [Transfer], elsewhere: &mut u64, begin: u64, end: u64) -> usize
    ensures place { result ≡ first_free table.old }
    ensures table { table.new ≡ with_begun begin end table.old }
    ensures elsewhere { elsewhere.new ≡ elsewhere_begun table.old elsewhere.old }
{
    match first_free(table) {
        None => {
            *elsewhere = elsewhere.saturating_add(1);
            table.len()
        }
        Some(place) => {
            table[place] = Transfer {
                begin,
                end,
                is_there: true,
            };
            place
        }
    }
}

/// Ends the transfer at a place. Beyond the places it ends one that is elsewhere.
pub fn end(table: &mut [Transfer], elsewhere: &mut u64, place: usize)
    ensures table { table.new ≡ with_ended place table.old }
    ensures elsewhere { elsewhere.new ≡ elsewhere_ended place table.old elsewhere.old }
{
    if place < table.len() {
        table[place] = Transfer {
            is_there: false,
            ..table[place]
        };
    } else {
        *elsewhere = elsewhere.saturating_sub(1);
    }
}

// The first free place.
fn first_free(table: &[Transfer]) -> Option<usize>
    ensures { result ≡ position is_free table.now }
{
    table.iter().position(|transfer| !transfer.is_there)
}
