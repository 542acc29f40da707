//! Whole pages, stored, lent and taken back.
ghost use Rattle.std.specs.Prelude.{◌≡◌, None, Ok, IfSome};
ghost use Rattle.page_model.specs.Pages.{State};
ghost use Rattle.page_model.specs.declared.request.Request.TheVariants.{Release};
ghost use Rattle.merge_core.specs.Lending.{release_verdict};
ghost use Rattle.merge_core.specs.Shown.{state_of};
ghost use Rattle.merge_core.specs.Stays.{frame_at};
ghost use Rattle.pageshare_c.specs.Found.{text_in};
ghost use Rattle.pageshare_c.specs.Framed.{freed_by, freed_in, left_in, IsFree};
ghost use Rattle.pageshare_c.specs.Kept.{CoreKeeps, CoreStores, CoreLends};
ghost use Rattle.pageshare_c.specs.Outcomes.{answered, answered_state, store_steps, lend_steps, verdict_in, state_in};
ghost use Rattle.pageshare_c.specs.Gets.{answer_of, taken};

use crate::answer::{Answer, answer_of, refuse};
use crate::framed::frame_of;
use crate::serve::refusal_for;
use merge_core::{Core, Returned, SaltedHash};
use page_digest::PageHash;
use page_lending::STORES_A_PAGE;
use page_model::{Page, Verdict};

/// Stores a whole page.
#[tactic(auto, using(crate::proofs::Tellings::no_steps))]
pub(crate) fn store_page<H: PageHash>(
    core: &mut Core<H>,
    guest: u32,
    ppn: u32,
    page: &Page,
) -> Answer
    ensures answer { result ≡ answer_of (verdict_in (store_steps H.hash_of (state_of core.old) guest ppn page.now))
        (frame_at core.new.pmap guest ppn) None }
    ensures state { state_of core.new ≡ state_in (state_of core.old) (store_steps H.hash_of (state_of core.old) guest ppn page.now) }
    ensures frames { CoreStores guest ppn (verdict_in (store_steps H.hash_of (state_of core.old) guest ppn page.now)) core.old core.new }
{
    if let Some(refusal) = refusal_for(core, guest, STORES_A_PAGE) {
        return refuse(refusal);
    }
    let verdict = core.store_page(guest as u8, ppn, page);
    answer_of(&verdict, frame_of(core, guest, ppn), None)
}

/// Lends a page, whose hash under a salt may be known.
#[tactic(auto, using(crate::proofs::Tellings::no_steps))]
pub(crate) fn lend<H: PageHash>(
    core: &mut Core<H>,
    guest: u32,
    ppn: u32,
    page: &Page,
    known: Option<SaltedHash>,
) -> Answer
    requires known { IfSome known (λ k. k.hash ≡ H.hash_of k.salt page.now) }
    ensures answer { result ≡ answer_of (verdict_in (lend_steps H.hash_of (state_of core.old) guest ppn page.now))
        (frame_at core.new.pmap guest ppn) (left_in H.hash_of core.old guest ppn page.now) }
    ensures state { state_of core.new ≡ state_in (state_of core.old) (lend_steps H.hash_of (state_of core.old) guest ppn page.now) }
    ensures frames { CoreLends H.hash_of guest ppn page.now
        (verdict_in (lend_steps H.hash_of (state_of core.old) guest ppn page.now)) core.old core.new }
    ensures free { IsFree (left_in H.hash_of core.old guest ppn page.now) core.new }
{
    if let Some(refusal) = refusal_for(core, guest, STORES_A_PAGE + 1) {
        return refuse(refusal);
    }
    let lent = core.lend(guest as u8, ppn, page, known);
    answer_of(&lent.verdict, frame_of(core, guest, ppn), lent.freed)
}

/// Takes a page back, and puts its bytes into `room`.
#[tactic(auto, using(crate::proofs::Tellings::not_taken_back))]
pub(crate) fn take_back<H: PageHash>(
    core: &mut Core<H>,
    guest: u32,
    ppn: u32,
    room: &mut Page,
) -> Answer
    ensures answer { result ≡ answer_of (answered H.hash_of (state_of core.old) guest (Ok (Release ppn))) (frame_at core.new.pmap guest ppn)
        (freed_by (answered H.hash_of (state_of core.old) guest (Ok (Release ppn))) core.old.pmap guest (Ok (Release ppn))) }
    ensures state { state_of core.new ≡ answered_state H.hash_of (state_of core.old) guest (Ok (Release ppn)) }
    ensures frames { CoreKeeps guest (Ok (Release ppn))
        (answered H.hash_of (state_of core.old) guest (Ok (Release ppn))) core.old core.new }
    ensures room { room.new ≡ taken room.old (answered H.hash_of (state_of core.old) guest (Ok (Release ppn)))
        (text_in (state_of core.old) guest ppn) }
    ensures free { IsFree (freed_by (answered H.hash_of (state_of core.old) guest (Ok (Release ppn))) core.old.pmap guest
        (Ok (Release ppn))) core.new }
{
    if let Some(refusal) = refusal_for(core, guest, 1) {
        return refuse(refusal);
    }
    let returned = core.take_back(guest as u8, ppn, room);
    answer_of(
        &verdict_of(returned),
        frame_of(core, guest, ppn),
        freed_in(returned),
    )
}

/// Returns a guest's salt, 0 if there is no such guest.
pub(crate) fn salt_of<H: PageHash>(core: &Core<H>, guest: u32) -> u32 {
    if guest < u32::from(core.guests()) {
        return core.salt(guest as u8);
    }
    0
}

/// Returns the verdict of the release.
fn verdict_of(returned: Returned) -> Verdict
    ensures { result ≡ release_verdict returned }
{
    match returned {
        Returned::NoPage => Verdict::NoPage,
        Returned::Unmapped => Verdict::Unmapped,
        Returned::Released(freed) => Verdict::Released(freed.is_some()),
    }
}

/// Returns the frame that is free since.
fn freed_in(returned: Returned) -> Option<u32>
    ensures { result ≡ freed_in returned }
{
    match returned {
        Returned::NoPage => None,
        Returned::Unmapped => None,
        Returned::Released(freed) => freed,
    }
}
