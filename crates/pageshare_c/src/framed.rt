//! The frames that an answer names.
ghost use Rattle.std.specs.Prelude.{◌≡◌};
ghost use Rattle.merge_core.specs.Stays.{frame_at};
ghost use Rattle.pageshare_c.specs.Framed.{named_frame, own_frame, freed_at};

use crate::find::has_page;
use merge_core::Core;
use page_digest::PageHash;
use page_model::{Request, Verdict};

/// Returns a page's frame, if there is such a page and it is mapped.
#[tactic(auto, using(crate::proofs::Finds::no_frame))]
pub(crate) fn frame_of<H: PageHash>(core: &Core<H>, guest: u32, ppn: u32) -> Option<u32>
    ensures { result ≡ frame_at core.now.pmap guest ppn }
{
    if !has_page(core, guest, ppn) {
        return None;
    }
    core.frame(guest as u8, ppn)
}

/// Returns the frame of the page that a request names.
pub(crate) fn find_named<H: PageHash>(core: &Core<H>, guest: u32, request: &Request) -> Option<u32>
    ensures { result ≡ named_frame core.now.pmap guest request.now }
{
    match request {
        Request::Propose(ppn) => frame_of(core, guest, *ppn),
        Request::Store(r) => frame_of(core, guest, r.ppn()),
        Request::Load(r) => frame_of(core, guest, r.ppn()),
        Request::Release(ppn) => frame_of(core, guest, *ppn),
        Request::Count => None,
        Request::Close => None,
    }
}

/// Returns the frame that a request may free.
pub(crate) fn find_own<H: PageHash>(core: &Core<H>, guest: u32, request: &Request) -> Option<u32>
    ensures { result ≡ own_frame core.now.pmap guest request.now }
{
    match request {
        Request::Propose(ppn) => frame_of(core, guest, *ppn),
        Request::Store(_) => None,
        Request::Load(_) => None,
        Request::Release(ppn) => frame_of(core, guest, *ppn),
        Request::Count => None,
        Request::Close => None,
    }
}

/// Returns the frame that is free since this verdict, if the page's was `own`.
pub(crate) fn freed_at(verdict: &Verdict, own: Option<u32>) -> Option<u32>
    ensures { result ≡ freed_at verdict.now own }
{
    match verdict {
        Verdict::Joined(_) => own,
        Verdict::Paired => own,
        Verdict::Released(true) => own,
        _ => None,
    }
}
