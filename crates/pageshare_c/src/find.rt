//! A page of the machine behind a handle: its frame and its bytes.
ghost use Rattle.std.specs.Prelude.{◌≡◌, ◌<◌, Some, IsSome, IfOk, IfErr, IsTrue, ◌↔◌};
ghost use Rattle.page_model.specs.Pages.{page_at};
ghost use Rattle.page_model.specs.Stored.{text_at};
ghost use Rattle.machine_frames.specs.FrameMap.{frame};
ghost use Rattle.merge_core.specs.Shown.{state_of};
ghost use Rattle.pageshare_c.specs.Found.{found_in, text_in};
ghost use Rattle.pageshare_c.specs.Gets.{value_or};

use crate::answer::Refusal;
use merge_core::Core;
use page_digest::PageHash;
use page_model::Page;

/// Whether there is such a page.
pub(crate) fn has_page<H: PageHash>(core: &Core<H>, guest: u32, ppn: u32) -> bool
    ensures page { IsTrue result ↔ IsSome (page_at (state_of core.now).guests guest ppn) }
    ensures guest { IsTrue result → guest < 256 }
{
    guest < u32::from(core.guests()) && ppn < core.pages(guest as u8)
}

/// Returns the number of a page's frame.
#[tactic(auto, using(crate::proofs::Finds::found_absent, crate::proofs::Finds::found_unmapped, crate::proofs::Finds::found_mapped))]
pub(crate) fn find_frame<H: PageHash>(core: &Core<H>, guest: u32, ppn: u32) -> Result<u32, Refusal>
    ensures found { result ≡ found_in core.now guest ppn }
    ensures text { IfOk result (λ mpn. frame core.now.frames mpn ≡ text_at (state_of core.now).guests guest ppn) }
{
    if !has_page(core, guest, ppn) {
        return Err(Refusal::NoPage);
    }
    match core.frame(guest as u8, ppn) {
        None => Err(Refusal::Unmapped),
        Some(mpn) => Ok(mpn),
    }
}

/// Copies a page to `room`. The result is whether there is such a page.
#[tactic(auto, using(crate::proofs::Finds::text_absent))]
pub(crate) fn copy_page<H: PageHash>(core: &Core<H>, guest: u32, ppn: u32, room: &mut Page) -> bool
    ensures page { IsTrue result ↔ IsSome (page_at (state_of core.now).guests guest ppn) }
    ensures bytes { room.new ≡ value_or room.old (text_in (state_of core.now) guest ppn) }
{
    if !has_page(core, guest, ppn) {
        return false;
    }
    match core.frame(guest as u8, ppn) {
        None => *room = [0; 4096],
        Some(mpn) => *room = *core.frames().bytes(mpn),
    }
    true
}

/// Puts the address of a page's bytes into `at`, and returns the number of its frame. On a refusal `at` stays as it is.
pub(crate) fn put_address<H: PageHash>(
    core: &Core<H>,
    guest: u32,
    ppn: u32,
    at: &mut *const u8,
) -> Result<u32, Refusal>
    ensures found { result ≡ found_in core.now guest ppn }
    ensures room { IfErr result (λ _. at.new ≡ at.old) }
{
    let mpn = find_frame(core, guest, ppn)?;
    *at = address(core.frames().bytes(mpn));
    Ok(mpn)
}

fn address(page: &Page) -> *const u8 {
    page as *const Page as *const u8
}
