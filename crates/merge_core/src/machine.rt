//! The core.
ghost use Rattle.std.specs.Prelude.{◌≡◌, ◌+◌, ◌<◌, ◌≤◌, length, map, slice_get, is_some, Some, IsSome, IfOk, IfSome, MatchResult};
ghost use Rattle.std.specs.Option.{option_map};
ghost use Rattle.page_lending.specs.declared.pieces.TheConstants.{STORES_A_PAGE};
ghost use Rattle.page_digest.specs.Hashes.{four_hashes, eight_hashes};
ghost use Rattle.page_model.specs.Limits.{shapes};
ghost use Rattle.page_model.specs.Pages.{page_at, totals, is_mapped};
ghost use Rattle.page_model.specs.Replay.{empty_state};
ghost use Rattle.page_model.specs.Stored.{byte_at, text_at};
ghost use Rattle.page_model.specs.declared.limits.TheConstants.{PAGE_BYTES};
ghost use Rattle.machine_frames.specs.FrameMap.{frame, no_frames};
ghost use Rattle.share_table.specs.TableMaps.{empty_table};
ghost use Rattle.merge_core.specs.Applying.{Applies};
ghost use Rattle.merge_core.specs.Hashing.{AreWorkers, IsHashFor, page_hash, page_hashes};
ghost use Rattle.merge_core.specs.Lending.{Lends, StoresPage, TakesBack};
ghost use Rattle.merge_core.specs.Refusals.{AreLimits, NoCoreFor};
ghost use Rattle.merge_core.specs.Made.{IsNew};
ghost use Rattle.merge_core.specs.Shown.{state_of, FramesOfPages, TableOfPages};
ghost use Rattle.merge_core.specs.Stays.{frame_at};
ghost use Rattle.merge_core.specs.declared.counting.TheConstants.{MAX_REQUESTS};

use crate::ahead::note_hashes;
use crate::by_workers::{note_by_workers, note_page, push_hashes};
use crate::fault::CoreFault;
use crate::forecast::foresee;
use crate::held::{Held, PageEntry};
use crate::lending::{lend, take_back};
use crate::lent::{Lent, Returned, SaltedHash};
use crate::look::{bytes_at, find};
use crate::make::{new_frames, new_held};
use crate::offer::propose;
use crate::serve::{load, release, store, store_bytes};
use crate::tally::report;
use machine_frames::Frames;
use page_digest::{HashFault, PageHash};
use page_forecasts::Forecasts;
use page_lending::STORES_A_PAGE;
use page_model::{Entry, MachineShape, Page, Report, Request, Verdict};
use share_table::Table;
use std::alloc::{AllocError, Allocator, Global};
use std::marker::Model;
use std::sync::Wait;
use std::thread::Threads;

/// Another worker is started only if there are this many pages for each: starting a thread costs as much as hashing a few.
pub const PAGES_A_WORKER: usize = 16;

/// A machine: its guests' pages in frames, and the number of requests so far.
#[derive(Drop)]
pub struct Core<H: PageHash, A: Allocator = Global> {
    entries: u32,
    held: Held<H, A>,
    /// One, or none in a machine that never looks ahead.
    forecasts: Vec<Forecasts<H>, A>,
}

impl<H: PageHash, A: Allocator> Model for Core<H, A> {
    ghost use Rattle.merge_core.specs.Shown.{Shown, shown_code};

    ghost Value = { Shown };

    ghost coded = { shown_code };

    ghost use Rattle.merge_core.specs.View.{pmap_of, Whole};

    ghost view = { λ c. record { entries = c.entries; pmap = pmap_of c.held; frames = c.held.frames; table = c.held.table } };

    ghost invariant = { λ c. Whole H.hash_of c.held };
}

impl<H: PageHash + Drop, A: Allocator + Clone> Core<H, A> {
    /// Makes a machine before its first request: guest i has `pages[i]` pages and the salt `salts[i]`.
    ///
    /// All memory of the machine is allocated here.
    pub fn new(
        alloc: A,
        frames: u32,
        pages: &[u32],
        salts: &[u32],
        hash: H,
    ) -> Result<Core<H, A>, CoreFault>
        ensures empty { IfOk result (λ core. state_of core ≡ empty_state frames (shapes salts.now pages.now)) }
        ensures guests { IfOk result (λ core. length (state_of core).guests ≡ length pages.now) }
        ensures frames { IfOk result (λ core. core.frames ≡ no_frames frames) }
        ensures table { IfOk result (λ core. core.table ≡ empty_table frames) }
        ensures fault { MatchResult result
            (λ _. AreLimits frames pages.now salts.now)
            (λ fault. NoCoreFor frames pages.now salts.now fault) }
    {
        let shape = MachineShape::new(frames, pages, salts)?;
        Ok(Core::with_shape(alloc, &shape, hash)?)
    }

    /// Makes a machine of a shape, which is known to be within the limits. Otherwise the same as [`new`](Core::new).
    pub fn with_shape(alloc: A, shape: &MachineShape<'_>, hash: H) -> Result<Core<H, A>, AllocError>
        ensures { IfOk result (λ core. IsNew shape.now core) }
    {
        let frames = new_frames(alloc.clone()?, shape)?;
        Core::with_frames(alloc, shape, hash, frames)
    }

    /// Makes a machine of a shape with these frames, all of them free. The caller may have made them in a region of its own
    /// ([`Frames::in_region`]). All other memory of the machine is allocated here.
    pub fn with_frames(
        alloc: A,
        shape: &MachineShape<'_>,
        hash: H,
        frames: Frames<A>,
    ) -> Result<Core<H, A>, AllocError>
        requires { frames ≡ no_frames shape.now.frames }
        ensures { IfOk result (λ core. IsNew shape.now core) }
    {
        let mut forecasts = Vec::with_capacity(alloc.clone()?, 1)?;
        forecasts.push_reserved(Forecasts::new());
        Core::with_forecasts(alloc, shape, hash, frames, forecasts)
    }

    /// Makes a machine as [`with_frames`](Core::with_frames) does, but one that never looks ahead: its
    /// [`apply_ahead`](Core::apply_ahead) does what [`apply`](Core::apply) does. So it takes 28 KiB less of memory.
    pub fn without_forecasts(
        alloc: A,
        shape: &MachineShape<'_>,
        hash: H,
        frames: Frames<A>,
    ) -> Result<Core<H, A>, AllocError>
        requires { frames ≡ no_frames shape.now.frames }
        ensures { IfOk result (λ core. IsNew shape.now core) }
    {
        let forecasts = Vec::with_capacity(alloc.clone()?, 0)?;
        Core::with_forecasts(alloc, shape, hash, frames, forecasts)
    }

    /// Makes a machine with these frames and forecasts. All other memory of the machine is allocated here.
    fn with_forecasts(
        alloc: A,
        shape: &MachineShape<'_>,
        hash: H,
        frames: Frames<A>,
        forecasts: Vec<Forecasts<H>, A>,
    ) -> Result<Core<H, A>, AllocError>
        requires { frames ≡ no_frames shape.now.frames }
        ensures { IfOk result (λ core. IsNew shape.now core) }
    {
        let held = new_held(alloc, shape, hash, frames)?;
        Ok(Core {
            entries: 0,
            held,
            forecasts,
        })
    }
}

impl<H: PageHash, A: Allocator> Core<H, A> {
    /// Serves one request of a guest, and returns the verdict. It allocates no memory.
    ///
    /// Every page but the named one keeps its frame. So does the named one, except at `Mapped` and `Copied` (it gets a frame
    /// that was free), at `Joined` and `Paired` (it gets the frame of the pages it now shares with) and at `Released` (it has
    /// none).
    #[tactic(auto, unfolding(page_model::specs::Steps::step, page_model::specs::Steps::answered))]
    pub fn apply(&mut self, guest: u8, request: &Request) -> Verdict
        requires guest { guest < length (state_of self.old).guests }
        requires room { self.old.entries < MAX_REQUESTS }
        ensures { Applies H.hash_of guest request.now result self.old self.new }
    {
        self.entries += 1;
        let guest = guest as usize;
        match request {
            Request::Propose(ppn) => propose(&mut self.held, guest, *ppn),
            Request::Store(r) => store(&mut self.held, guest, r),
            Request::Load(r) => load(&self.held, guest, r),
            Request::Release(ppn) => release(&mut self.held, guest, *ppn),
            Request::Count => Verdict::Totals(report(&self.held, self.entries)),
            Request::Close => Verdict::Closed,
        }
    }

    /// Stores a whole page: what [`apply`](Core::apply) does for the 64 stores of 64 bytes each that write it, one after the
    /// other. Returns the first one's verdict. If that is `NoPage` or `NoFrame`, so are the others, and otherwise they are
    /// `Stored`. The bytes are copied once, and no memory is allocated.
    pub fn store_page(&mut self, guest: u8, ppn: u32, page: &Page) -> Verdict
        requires guest { guest < length (state_of self.old).guests }
        requires room { self.old.entries + STORES_A_PAGE ≤ MAX_REQUESTS }
        ensures { StoresPage H.hash_of guest ppn page.now result self.old self.new }
    {
        self.entries += STORES_A_PAGE;
        store_bytes(&mut self.held, guest as usize, ppn as usize, 0, page)
    }

    /// Lends a page: stores it whole as [`store_page`](Core::store_page) does, and then proposes it, unless its stores were
    /// refused. If the page has no frame and joins others, no frame is written for it. No memory is allocated.
    ///
    /// A caller may know the hash of the page's bytes under a salt (see [`hash_four`](Core::hash_four)). If that is the guest's
    /// salt, the page isn't hashed; otherwise the hash is ignored.
    pub fn lend(&mut self, guest: u8, ppn: u32, page: &Page, known: Option<SaltedHash>) -> Lent
        requires guest { guest < length (state_of self.old).guests }
        requires room { self.old.entries + STORES_A_PAGE < MAX_REQUESTS }
        requires known { IfSome known (λ k. k.hash ≡ H.hash_of k.salt page.now) }
        ensures { Lends H.hash_of guest ppn page.now result self.old self.new }
    {
        self.entries += STORES_A_PAGE; // counted even if they are refused
        match lend(&mut self.held, guest as usize, ppn, page, known) {
            Ok(lent) => {
                self.entries += 1;
                lent
            }
            Err(refused) => Lent {
                verdict: refused,
                freed: None,
            },
        }
    }

    /// Takes a page back: copies its bytes into `room` and releases it, as [`apply`](Core::apply) does for its release, which
    /// is the one request that counts. The room stays as it is unless the answer is `Released`. No memory is allocated.
    pub fn take_back(&mut self, guest: u8, ppn: u32, room: &mut Page) -> Returned
        requires guest { guest < length (state_of self.old).guests }
        requires room { self.old.entries < MAX_REQUESTS }
        ensures { TakesBack H.hash_of guest ppn result room.old room.new self.old self.new }
    {
        self.entries += 1; // the release alone
        take_back(&mut self.held, guest as usize, ppn, room)
    }

    /// Serves one request of a guest as [`apply`](Core::apply) does, for a caller who knows which requests come `next`.
    ///
    /// If the request proposes a page whose hash isn't known, that hash is computed together with those of up to seven pages
    /// that the next 128 requests propose, as they will be after the stores and releases before their proposals: eight or four
    /// at once. If other requests come instead, the answers are the same.
    pub fn apply_ahead(&mut self, guest: u8, request: &Request, next: &[Entry]) -> Verdict
        requires guest { guest < length (state_of self.old).guests }
        requires room { self.old.entries < MAX_REQUESTS }
        ensures { Applies H.hash_of guest request.now result self.old self.new }
    {
        self.foresee(guest, request, next);
        self.apply(guest, request)
    }

    /// Notes the hash of the page that a request proposes, if it pays to compute it together with those that come next.
    fn foresee(&mut self, guest: u8, request: &Request, next: &[Entry])
        ensures { self.new ≡ self.old }
    {
        if let Request::Propose(ppn) = request {
            self.foresee_page(guest, *ppn, next);
        }
    }

    /// Notes the hash of a page that a guest proposes, if it pays, in a machine that looks ahead.
    fn foresee_page(&mut self, guest: u8, ppn: u32, next: &[Entry])
        ensures { self.new ≡ self.old }
    {
        if let Some(forecasts) = self.forecasts.first_mut() {
            foresee(&mut self.held, forecasts, guest, ppn, next);
        }
    }

    /// Serves one request of a guest as [`apply`](Core::apply) does, for a caller who knows the hash of the page that it
    /// proposes (see [`hash_ahead`](Core::hash_ahead)): no page is hashed for it.
    ///
    /// If the request doesn't propose a mapped page, the hash is ignored.
    pub fn apply_hashed(&mut self, guest: u8, request: &Request, hash: u64) -> Verdict
        requires guest { guest < length (state_of self.old).guests }
        requires room { self.old.entries < MAX_REQUESTS }
        requires hash { IsHashFor H.hash_of (state_of self.old).guests guest request.now hash }
        ensures { Applies H.hash_of guest request.now result self.old self.new }
    {
        self.note_proposed(guest, request, hash);
        self.apply(guest, request)
    }

    /// Notes the hash of the page that a request proposes, if that page is mapped.
    fn note_proposed(&mut self, guest: u8, request: &Request, hash: u64)
        requires { IsHashFor H.hash_of (state_of self.old).guests guest request.now hash }
        ensures { self.new ≡ self.old }
    {
        if let Request::Propose(ppn) = request {
            self.note_hash(guest, *ppn, hash);
        }
    }

    /// Notes a page's hash, if the page is mapped.
    fn note_hash(&mut self, guest: u8, ppn: u32, hash: u64)
        requires { IfSome (page_hash H.hash_of (state_of self.old).guests guest ppn) (λ h. hash ≡ h) }
        ensures { self.new ≡ self.old }
    {
        note_page(&mut self.held, guest as usize, ppn as usize, hash);
    }

    /// Computes the hashes of these pages, each named by its guest and number, and notes them for later proposals.
    ///
    /// Only private pages whose hash isn't known are hashed, eight or four at once; pages that don't exist are skipped. Nothing
    /// that the core shows changes, and a noted hash is forgotten at the next store to its page. It allocates no memory.
    pub fn note_hashes(&mut self, pages: &[(u8, u32)])
        ensures { self.new ≡ self.old }
    {
        note_hashes(&mut self.held, pages);
    }

    /// Returns the hashes of four pages' bytes, each under the salt at its place: four at once, if the hash can. Pages that are
    /// to be lent are hashed where they are, for [`lend`](Core::lend).
    pub fn hash_four(&self, salts: [u32; 4], a: &Page, b: &Page, c: &Page, d: &Page) -> [u64; 4]
        ensures { result ≡ four_hashes H.hash_of salts a.now b.now c.now d.now }
    {
        self.held.hash.hash_four(salts, a, b, c, d)
    }

    /// Does the same for eight pages: eight at once if the hash can, and otherwise by two fours.
    pub fn hash_eight(&self, salts: [u32; 8], pages: [&Page; 8]) -> [u64; 8]
        ensures { result ≡ eight_hashes H.hash_of salts (map (λ page. page.now) pages.entry) }
    {
        self.held.hash.hash_eight(salts, pages)
    }

    /// Restarts the count of requests at 0, for a machine that serves more than the count can hold.
    ///
    /// Its pages, frames and table stay as they are.
    pub fn restart_count(&mut self)
        ensures { self.new ≡ record { entries = 0; pmap = self.old.pmap; frames = self.old.frames; table = self.old.table } }
    {
        self.entries = 0;
    }

    /// Returns what the machine counts.
    pub fn report(&self) -> Report
        ensures { result ≡ totals self.now.entries (state_of self.now).guests }
    {
        report(&self.held, self.entries)
    }

    /// Returns the byte of a page at a place, 0 if the page is unmapped.
    pub fn read(&self, guest: u8, ppn: u32, at: u32) -> u8
        requires page { IsSome (page_at (state_of self.now).guests guest ppn) }
        requires at { at < PAGE_BYTES }
        ensures { result ≡ byte_at (state_of self.now) guest ppn at }
    {
        match self.frame(guest, ppn) {
            None => 0,
            Some(mpn) => bytes_at(&self.held.frames, mpn)[at as usize],
        }
    }

    /// Returns the number of requests so far.
    pub fn entries(&self) -> u32
        ensures { result ≡ self.now.entries }
    {
        self.entries
    }

    /// Returns the number of guests.
    pub fn guests(&self) -> u8
        ensures { result ≡ length (state_of self.now).guests }
    {
        self.held.guests.len() as u8
    }

    /// Returns the salt of a guest.
    pub fn salt(&self, guest: u8) -> u32
        requires { guest < length (state_of self.now).guests }
        ensures { Some result ≡ option_map (λ g. g.salt) (slice_get (state_of self.now).guests guest) }
    {
        self.held.guests[guest as usize].salt
    }

    /// Returns how many pages a guest has.
    pub fn pages(&self, guest: u8) -> u32
        requires { guest < length (state_of self.now).guests }
        ensures { Some result ≡ option_map (λ g. length g.slots) (slice_get (state_of self.now).guests guest) }
    {
        self.held.guests[guest as usize].pages.len()
    }

    /// Returns the machine page number (MPN) of a page's frame, `None` if the page is unmapped.
    pub fn frame(&self, guest: u8, ppn: u32) -> Option<u32>
        requires { IsSome (page_at (state_of self.now).guests guest ppn) }
        ensures pmap { result ≡ frame_at self.now.pmap guest ppn }
        ensures mapped { Some (is_some result) ≡ option_map (λ x. is_mapped x.1) (page_at (state_of self.now).guests guest ppn) }
        ensures bytes { IfSome result (λ mpn. frame self.now.frames mpn ≡ text_at (state_of self.now).guests guest ppn) }
    {
        match find(&self.held, guest as usize, ppn as usize) {
            None => unreachable!(),
            Some((_, PageEntry::Unmapped)) => None,
            Some((_, PageEntry::Private(mpn, _))) => Some(mpn),
            Some((_, PageEntry::Shared(mpn))) => Some(mpn),
        }
    }

    /// Returns the frames. Each mapped page's frame is taken, and each taken frame is some page's.
    pub fn frames(&self) -> &Frames<A>
        ensures value { result.now ≡ self.now.frames }
        ensures pages { FramesOfPages self.now }
    {
        &self.held.frames
    }

    /// Returns the table of shared frames and hints.
    pub fn table(&self) -> &Table<A>
        ensures value { result.now ≡ self.now.table }
        ensures pages { TableOfPages H.hash_of self.now }
    {
        &self.held.table
    }
}

impl<H: PageHash, A: Allocator + Sync> Core<H, A> {
    /// Returns the hash of each of these pages, each named by its guest and number: the hash of its salt and present bytes,
    /// `None` if the page is unmapped or doesn't exist.
    ///
    /// Up to `workers` workers, at most [`page_model::MAX_WORKERS`], compute the hashes that aren't known; the calling thread
    /// is one of them. The hashes are noted too, and a noted hash isn't computed again as long as its page's bytes stay the
    /// same. Nothing that the core shows changes.
    ///
    /// # Errors
    ///
    /// The memory for the lists was refused, or the start of a thread.
    pub fn hash_ahead<R: Threads + Wait + Sync, B: Allocator + Clone + Send>(
        &mut self,
        rt: &R,
        alloc: B,
        workers: u32,
        pages: &[(u8, u32)],
    ) -> Result<Vec<Option<u64>, B>, HashFault>
        requires { AreWorkers workers }
        ensures same { self.new ≡ self.old }
        ensures hashes { IfOk result (λ hashes. hashes.items ≡ page_hashes H.hash_of (state_of self.old).guests pages.now) }
    {
        let mut hashes = Vec::with_capacity(alloc.clone()?, pages.len())?;
        note_by_workers(&mut self.held, rt, alloc, workers, 1, pages)?;
        push_hashes(&mut self.held, pages, &mut hashes);
        Ok(hashes)
    }

    /// Notes hashes as [`note_hashes`](Core::note_hashes) does, with up to `workers` workers, at most
    /// [`page_model::MAX_WORKERS`]. The calling thread is one of them, and another is started only if it has enough pages to
    /// be worth starting.
    ///
    /// If memory or a thread is refused, the calling thread computes the hashes alone.
    pub fn note_hashes_by<R: Threads + Wait + Sync, B: Allocator + Clone + Send>(
        &mut self,
        rt: &R,
        alloc: B,
        workers: u32,
        pages: &[(u8, u32)],
    )
        requires { AreWorkers workers }
        ensures { self.new ≡ self.old }
    {
        if pages.len() >= 2 * PAGES_A_WORKER {
            let _noted = note_by_workers(&mut self.held, rt, alloc, workers, PAGES_A_WORKER, pages);
        }
        note_hashes(&mut self.held, pages);
    }
}
