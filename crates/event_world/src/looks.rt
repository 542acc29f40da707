// Searches of a guest's requests and of the journal.
ghost use Rattle.std.specs.Prelude.{◌≡◌, slice_get};
ghost use Rattle.page_model.specs.Closing.{has_close};
ghost use Rattle.page_model.specs.Journal.{places};

use page_model::{Entry, Request};

// Whether one of these requests is a close.
pub(crate) fn has_close(requests: &[Request]) -> bool
    ensures { result ≡ has_close requests.now }
{
    requests.iter().any(Request::is_close)
}

// Returns the place of the guest's entry that has `after` of the guest's entries before it.
pub(crate) fn place_of(journal: &[Entry], guest: u8, after: usize) -> Option<usize>
    ensures { result ≡ slice_get (places guest journal.now) after }
{
    let mut left = after;
    for (place, entry) in journal.iter().enumerate() {
        if entry.guest == guest {
            if left == 0 {
                return Some(place);
            }
            left -= 1;
        }
    }
    None
}
