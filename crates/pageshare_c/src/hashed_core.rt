//! A core, by the hash that its machine was made with.
ghost use Rattle.std.specs.Prelude.{◌≡◌, map, Some, IsSome, Ok, IfOk, IfErr, IfSome, IsTrue, ◌↔◌};
ghost use Rattle.page_digest.specs.Hashes.{four_hashes, eight_hashes};
ghost use Rattle.page_model.specs.Pages.{page_at};
ghost use Rattle.page_model.specs.Stored.{text_at};
ghost use Rattle.page_model.specs.declared.request.Request.TheVariants.{Release};
ghost use Rattle.machine_frames.specs.FrameMap.{frame};
ghost use Rattle.merge_core.specs.Shown.{state_of};
ghost use Rattle.pageshare_c.specs.Found.{found_in, text_in, text_of};
ghost use Rattle.pageshare_c.specs.Framed.{frame_freed, frame_left, LeftFree};
ghost use Rattle.pageshare_c.specs.Hashed.{shown_in, hash_in};
ghost use Rattle.pageshare_c.specs.InTurn.{LendInTurn};
ghost use Rattle.pageshare_c.specs.Kept.{FramesKept, StoreKept, LendKept, restarted_core};
ghost use Rattle.pageshare_c.specs.Outcomes.{outcome, state_after, store_outcome, state_stored, lend_outcome, state_lent, seen};
ghost use Rattle.pageshare_c.specs.Gets.{answer_to, store_answer, lend_answer, loaded, counted, counts, taken, value_or};

use crate::ahead::{PageName, note_hashes};
use crate::answer::{Answer, Refusal, Totals, totals_of};
use crate::find::{copy_page, find_frame, put_address};
use crate::group::{Lending, lend_each, lend_eight, lend_together};
use crate::serve::{answer, answer_count, answer_load};
use crate::whole::{lend, salt_of, store_page, take_back};
use merge_core::{Core, SaltedHash};
use page_digest::{FoldHash, Sha256Hash, WideSha256Hash};
use page_model::{Page, Request, RequestFault};

/// A core, by the hash that its machine was made with. A hash's stated function belongs to its type, so there is a core for each.
#[derive(Drop)]
pub enum HashedCore {
    Sha256(Core<Sha256Hash>),
    Fold(Core<FoldHash>),
    WideSha256(Core<WideSha256Hash>),
}

impl HashedCore {
    /// Serves a request whose verdict has nothing for C beyond the answer.
    pub(crate) fn answer(&mut self, guest: u32, asked: &Result<Request, RequestFault>) -> Answer
        ensures answer { result ≡ answer_to (Some self.old) (Some self.new) guest asked.now }
        ensures state { seen (Some self.new) ≡ state_after (Some self.old) guest asked.now }
        ensures frames { FramesKept guest asked.now (outcome (Some self.old) guest asked.now) (Some self.old) (Some self.new) }
    {
        match self {
            HashedCore::Sha256(core) => answer(core, guest, asked),
            HashedCore::Fold(core) => answer(core, guest, asked),
            HashedCore::WideSha256(core) => answer(core, guest, asked),
        }
    }

    /// Serves a load, and puts the bytes into `room`.
    pub(crate) fn answer_load(
        &mut self,
        guest: u32,
        asked: &Result<Request, RequestFault>,
        room: &mut [u8],
    ) -> Answer
        ensures answer { result ≡ answer_to (Some self.old) (Some self.new) guest asked.now }
        ensures state { seen (Some self.new) ≡ state_after (Some self.old) guest asked.now }
        ensures frames { FramesKept guest asked.now (outcome (Some self.old) guest asked.now) (Some self.old) (Some self.new) }
        ensures bytes { room.new ≡ loaded room.old (outcome (Some self.old) guest asked.now) }
    {
        match self {
            HashedCore::Sha256(core) => answer_load(core, guest, asked, room),
            HashedCore::Fold(core) => answer_load(core, guest, asked, room),
            HashedCore::WideSha256(core) => answer_load(core, guest, asked, room),
        }
    }

    /// Serves a count, and puts the numbers into the totals.
    pub(crate) fn answer_count(
        &mut self,
        guest: u32,
        asked: &Result<Request, RequestFault>,
        totals: &mut Totals,
    ) -> Answer
        ensures answer { result ≡ answer_to (Some self.old) (Some self.new) guest asked.now }
        ensures state { seen (Some self.new) ≡ state_after (Some self.old) guest asked.now }
        ensures frames { FramesKept guest asked.now (outcome (Some self.old) guest asked.now) (Some self.old) (Some self.new) }
        ensures totals { totals.new ≡ counted totals.old (outcome (Some self.old) guest asked.now) }
    {
        match self {
            HashedCore::Sha256(core) => answer_count(core, guest, asked, totals),
            HashedCore::Fold(core) => answer_count(core, guest, asked, totals),
            HashedCore::WideSha256(core) => answer_count(core, guest, asked, totals),
        }
    }

    /// Stores a whole page.
    pub(crate) fn store_page(&mut self, guest: u32, ppn: u32, page: &Page) -> Answer
        ensures answer { result ≡ store_answer (Some self.old) (Some self.new) guest ppn page.now }
        ensures state { seen (Some self.new) ≡ state_stored (Some self.old) guest ppn page.now }
        ensures frames { StoreKept guest ppn (store_outcome (Some self.old) guest ppn page.now) (Some self.old) (Some self.new) }
    {
        match self {
            HashedCore::Sha256(core) => store_page(core, guest, ppn, page),
            HashedCore::Fold(core) => store_page(core, guest, ppn, page),
            HashedCore::WideSha256(core) => store_page(core, guest, ppn, page),
        }
    }

    /// Lends a page, whose hash under a salt may be known.
    pub(crate) fn lend(
        &mut self,
        guest: u32,
        ppn: u32,
        page: &Page,
        known: Option<SaltedHash>,
    ) -> Answer
        requires known { IfSome known (λ k. k.hash ≡ hash_in self.old k.salt page.now) }
        ensures answer { result ≡ lend_answer (Some self.old) (Some self.new) guest ppn page.now }
        ensures state { seen (Some self.new) ≡ state_lent (Some self.old) guest ppn page.now }
        ensures frames { LendKept guest ppn page.now (lend_outcome (Some self.old) guest ppn page.now) (Some self.old) (Some self.new) }
        ensures free { LeftFree (frame_left (Some self.old) guest ppn page.now) (Some self.new) }
        ensures hash { hash_in self.new ≡ hash_in self.old }
    {
        match self {
            HashedCore::Sha256(core) => lend(core, guest, ppn, page, known),
            HashedCore::Fold(core) => lend(core, guest, ppn, page, known),
            HashedCore::WideSha256(core) => lend(core, guest, ppn, page, known),
        }
    }

    /// Lends four pages, one after the other. Their hashes are computed together if that is faster.
    pub(crate) fn lend_four(&mut self, pages: &[Lending<'_>; 4], answers: &mut [Answer; 4])
        ensures { LendInTurn pages.now answers.new (Some self.old) (Some self.new) }
    {
        if self.hashes_together() {
            lend_together(self, pages, answers);
        } else {
            lend_each(self, pages, answers);
        }
    }

    /// Lends eight pages, one after the other. Their hashes are computed first, together if that is faster.
    pub(crate) fn lend_eight(&mut self, pages: &[Lending<'_>; 8], answers: &mut [Answer; 8])
        ensures { LendInTurn pages.now answers.new (Some self.old) (Some self.new) }
    {
        lend_eight(self, pages, answers);
    }

    /// Whether four hashes together take less time than four, one by one.
    fn hashes_together(&self) -> bool {
        match self {
            HashedCore::Sha256(_) => true,
            HashedCore::Fold(_) => false,
            HashedCore::WideSha256(_) => true,
        }
    }

    /// Returns a guest's salt, 0 if there is no such guest.
    pub(crate) fn salt(&self, guest: u32) -> u32 {
        match self {
            HashedCore::Sha256(core) => salt_of(core, guest),
            HashedCore::Fold(core) => salt_of(core, guest),
            HashedCore::WideSha256(core) => salt_of(core, guest),
        }
    }

    /// Returns the hashes of four pages' bytes, each under the salt at its place.
    pub(crate) fn hash_four(
        &self,
        salts: [u32; 4],
        a: &Page,
        b: &Page,
        c: &Page,
        d: &Page,
    ) -> [u64; 4]
        ensures { result ≡ four_hashes (hash_in self.now) salts a.now b.now c.now d.now }
    {
        match self {
            HashedCore::Sha256(core) => core.hash_four(salts, a, b, c, d),
            HashedCore::Fold(core) => core.hash_four(salts, a, b, c, d),
            HashedCore::WideSha256(core) => core.hash_four(salts, a, b, c, d),
        }
    }

    /// Returns the hashes of eight pages' bytes, each under the salt at its place.
    pub(crate) fn hash_eight(&self, salts: [u32; 8], pages: [&Page; 8]) -> [u64; 8]
        ensures { result ≡ eight_hashes (hash_in self.now) salts (map (λ page. page.now) pages.entry) }
    {
        match self {
            HashedCore::Sha256(core) => core.hash_eight(salts, pages),
            HashedCore::Fold(core) => core.hash_eight(salts, pages),
            HashedCore::WideSha256(core) => core.hash_eight(salts, pages),
        }
    }

    /// Takes a page back, and puts its bytes into `room`.
    pub(crate) fn take_back(&mut self, guest: u32, ppn: u32, room: &mut Page) -> Answer
        ensures answer { result ≡ answer_to (Some self.old) (Some self.new) guest (Ok (Release ppn)) }
        ensures state { seen (Some self.new) ≡ state_after (Some self.old) guest (Ok (Release ppn)) }
        ensures frames { FramesKept guest (Ok (Release ppn)) (outcome (Some self.old) guest (Ok (Release ppn))) (Some self.old)
            (Some self.new) }
        ensures bytes { room.new ≡ taken room.old (outcome (Some self.old) guest (Ok (Release ppn)))
            (text_of (seen (Some self.old)) guest ppn) }
        ensures free { LeftFree (frame_freed (Some self.old) guest (Ok (Release ppn))) (Some self.new) }
    {
        match self {
            HashedCore::Sha256(core) => take_back(core, guest, ppn, room),
            HashedCore::Fold(core) => take_back(core, guest, ppn, room),
            HashedCore::WideSha256(core) => take_back(core, guest, ppn, room),
        }
    }

    /// Begins the count of requests anew.
    pub(crate) fn restart_count(&mut self)
        ensures { self.new ≡ restarted_core self.old }
    {
        match self {
            HashedCore::Sha256(core) => core.restart_count(),
            HashedCore::Fold(core) => core.restart_count(),
            HashedCore::WideSha256(core) => core.restart_count(),
        }
    }

    /// Notes the hashes of these pages.
    pub(crate) fn note_hashes(&mut self, pages: &[PageName])
        ensures { self.new ≡ self.old }
    {
        match self {
            HashedCore::Sha256(core) => note_hashes(core, pages),
            HashedCore::Fold(core) => note_hashes(core, pages),
            HashedCore::WideSha256(core) => note_hashes(core, pages),
        }
    }

    /// Returns what the machine counts.
    pub(crate) fn totals(&self) -> Totals
        ensures { Ok result ≡ counts (seen (Some self.now)) }
    {
        match self {
            HashedCore::Sha256(core) => totals_of(&core.report()),
            HashedCore::Fold(core) => totals_of(&core.report()),
            HashedCore::WideSha256(core) => totals_of(&core.report()),
        }
    }

    /// Copies a page to `room`. The result is whether there is such a page.
    pub(crate) fn copy_page(&self, guest: u32, ppn: u32, room: &mut Page) -> bool
        ensures page { IsTrue result ↔ IsSome (page_at (state_of (shown_in self.now)).guests guest ppn) }
        ensures bytes { room.new ≡ value_or room.old (text_in (state_of (shown_in self.now)) guest ppn) }
    {
        match self {
            HashedCore::Sha256(core) => copy_page(core, guest, ppn, room),
            HashedCore::Fold(core) => copy_page(core, guest, ppn, room),
            HashedCore::WideSha256(core) => copy_page(core, guest, ppn, room),
        }
    }

    /// Returns the number of a page's frame.
    pub(crate) fn find_frame(&self, guest: u32, ppn: u32) -> Result<u32, Refusal>
        ensures found { result ≡ found_in (shown_in self.now) guest ppn }
        ensures text { IfOk result (λ mpn. frame (shown_in self.now).frames mpn ≡ text_at (state_of (shown_in self.now)).guests guest ppn) }
    {
        match self {
            HashedCore::Sha256(core) => find_frame(core, guest, ppn),
            HashedCore::Fold(core) => find_frame(core, guest, ppn),
            HashedCore::WideSha256(core) => find_frame(core, guest, ppn),
        }
    }

    /// Puts the address of a page's bytes into `at`, and returns the number of its frame. On a refusal `at` stays as it is.
    pub(crate) fn put_address(
        &self,
        guest: u32,
        ppn: u32,
        at: &mut *const u8,
    ) -> Result<u32, Refusal>
        ensures found { result ≡ found_in (shown_in self.now) guest ppn }
        ensures room { IfErr result (λ _. at.new ≡ at.old) }
    {
        match self {
            HashedCore::Sha256(core) => put_address(core, guest, ppn, at),
            HashedCore::Fold(core) => put_address(core, guest, ppn, at),
            HashedCore::WideSha256(core) => put_address(core, guest, ppn, at),
        }
    }
}
