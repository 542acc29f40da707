//! Where a scan glances at pages.
ghost use Rattle.std.specs.Prelude.{◌≡◌, ◌+◌, ◌≤◌, ℕ, Some, length, slice_get};
ghost use Rattle.page_looks.specs.Idle.{glanced_by};
ghost use Rattle.page_looks.specs.Notes.{looks_of};
ghost use Rattle.part_scans.specs.Scans.{AreNumbers, number_of};

use crate::scan::number_of;
use page_looks::finds::looks_of;
use window_pages::WindowPage;

// Returns where a glance looks at the page at a place, if it is there.
fn number_at(pages: &[WindowPage], place: usize) -> u64
    ensures { (x : WindowPage) → slice_get pages.now place ≡ Some x → result ≡ glanced_by (looks_of x) (number_of place) }
{
    if place < pages.len() {
        looks_of(&pages[place]).glanced_by(number_of(place))
    } else {
        0
    }
}

// Returns where a glance looks at the page at a place of a list, if it is there. Places are counted from the page `first` on.
fn listed_number(pages: &[WindowPage], first: usize, places: &[u16], k: usize) -> u64
    requires { first ≤ length pages.now }
    ensures { (n : ℕ) (x : WindowPage) → slice_get places.now k ≡ Some n → slice_get pages.now (first + n) ≡ Some x → result ≡ glanced_by (looks_of x) (number_of (first + n)) }
{
    if k < places.len() {
        number_at(pages, first + places[k] as usize)
    } else {
        0
    }
}

/// Writes to `numbers` where glances look at the pages at these places, counted from the page `first` on, as far as they are there.
pub fn find_numbers(pages: &[WindowPage], first: usize, places: &[u16], numbers: &mut [u64])
    ensures { AreNumbers first pages.now places.now numbers.old numbers.new }
{
    if first > pages.len() {
        return;
    }
    for k in 0..numbers.len() {
        numbers[k] = listed_number(pages, first, places, k);
    }
}
