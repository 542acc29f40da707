//! What requests do to a page.
ghost use Rattle.std.specs.Prelude.{◌≡◌};
ghost use Rattle.page_forecasts.specs.Requests as requests;

use crate::proposal::Upcoming;
use page_model::{Entry, Request};

/// Returns the page that a request proposes, and whether the requests `before` it change that page; `None` if it proposes none.
pub fn upcoming(before: &[Entry], entry: &Entry) -> Option<Upcoming>
    ensures { result ≡ requests.upcoming before.now entry.now }
{
    match &entry.request {
        Request::Propose(ppn) => Some(as_left(before, entry.guest, *ppn)),
        Request::Store(_) => None,
        Request::Load(_) => None,
        Request::Release(_) => None,
        Request::Count => None,
        Request::Close => None,
    }
}

/// Returns a page that is proposed after these requests.
fn as_left(before: &[Entry], guest: u8, ppn: u32) -> Upcoming
    ensures { result ≡ requests.as_left before.now guest ppn }
{
    if is_changed(before, guest, ppn) {
        Upcoming::Changing(ppn)
    } else {
        Upcoming::AtRest(ppn)
    }
}

/// Whether one of these requests stores to the page or releases it.
fn is_changed(entries: &[Entry], guest: u8, ppn: u32) -> bool
    ensures { result ≡ requests.is_changed entries.now guest ppn }
{
    entries.iter().any(|entry| entry.guest == guest && changes(&entry.request, ppn))
}

/// Whether one of these requests proposes the page.
pub fn is_proposed(entries: &[Entry], guest: u8, ppn: u32) -> bool
    ensures { result ≡ requests.is_proposed entries.now guest ppn }
{
    entries.iter().any(|entry| entry.guest == guest && proposes(&entry.request, ppn))
}

/// Whether a request stores to a page of its guest or releases it.
fn changes(request: &Request, ppn: u32) -> bool
    ensures { result ≡ requests.changes request.now ppn }
{
    match request {
        Request::Store(store) => store.ppn() == ppn,
        Request::Release(released) => *released == ppn,
        Request::Propose(_) => false,
        Request::Load(_) => false,
        Request::Count => false,
        Request::Close => false,
    }
}

/// Whether a request proposes a page of its guest.
fn proposes(request: &Request, ppn: u32) -> bool
    ensures { result ≡ requests.proposes request.now ppn }
{
    match request {
        Request::Propose(proposed) => *proposed == ppn,
        Request::Store(_) => false,
        Request::Load(_) => false,
        Request::Release(_) => false,
        Request::Count => false,
        Request::Close => false,
    }
}
