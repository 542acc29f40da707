//! Slots over a core.
ghost use Rattle.std.specs.Prelude.{◌≡◌, ◌<◌, ◌≤◌, length, None, Some, IfOk, IfSome, MatchResult, position, slice_set};
ghost use Rattle.page_model.specs.declared.limits.TheConstants.{MAX_FRAMES, MAX_PAGES};
ghost use Rattle.machine_frames.specs.FrameMap.{no_frames};
ghost use Rattle.lent_slots.specs.Totals.{held_slots, frames_in_use, shared_slots, FramesOfSlots, empty_machine};
ghost use Rattle.lent_slots.specs.Bytes.{BytesStayIn};
ghost use Rattle.lent_slots.specs.Slots.{holding, is_of, held_by, LendsPage, RefusesPage, released, freed, left_free, without};

use crate::clients::{count_at, count_of, find_from, note_less, note_more, note_start, place_of};
use crate::core_slots::{hold, holding_in, take};
use crate::count::{add_sharer, count_shared, drop_sharer};
use crate::fault::SlotFault;
use crate::holding::{ClientSlots, Holding, PageLoan};
use crate::links::{link_to, next_free};
use crate::make::{new_clients, new_core};
use lazy_list::LazyList;
use machine_frames::Frames;
use merge_core::{Core, SaltedHash};
use page_digest::PageHash;
use page_model::Page;
use std::alloc::{AllocError, Allocator, Global};
use std::marker::Model;

/// Slots and their frames: the core that has the frames, and each slot's tag. That is its client where it is held, and a link to the
/// next free slot where it is free. Then the first free slot and how many there are, how many slots have each frame, and each
/// client's slots in brief.
#[derive(Drop)]
pub struct LentSlots<H: PageHash, A: Allocator = Global> {
    core: Core<H, A>,
    tags: LazyList<u32, A>,
    first_free: u32,
    free: u32,
    counts: LazyList<u32, A>,
    clients: Vec<ClientSlots, A>,
}

impl<H: PageHash, A: Allocator> Model for LentSlots<H, A> {
    ghost use Rattle.lent_slots.specs.Slots.{MachineView};
    ghost use Rattle.lent_slots.specs.Tags.{slots_of, chain};
    ghost use Rattle.lent_slots.specs.Fits.{Sound};
    ghost use Rattle.lent_slots.specs.Noted.{AreNoted};

    ghost Value = { MachineView };

    ghost view = { λ m. record { slots = slots_of m.core.pmap m.tags; frames = m.core.frames } };

    ghost invariant = { λ m. Sound m.core (slots_of m.core.pmap m.tags) (chain m.tags m.first_free m.free) m.counts × AreNoted (slots_of m.core.pmap m.tags) m.clients.items };
}

impl<H: PageHash + Drop, A: Allocator + Clone> LentSlots<H, A> {
    /// Makes `count` slots over these frames, all of them free. Pages are hashed under the salt. There are 1 to `MAX_PAGES`
    /// slots, and 2 to `MAX_FRAMES` frames, one of which is spare. All other memory is allocated here.
    ///
    /// The slots of a client whose number is below `clients` are counted as they are lent and released, and are found without a look
    /// at those before them. That takes 8 bytes for each client. Any other client's slots are sought among all.
    pub fn new(
        alloc: A,
        count: u32,
        clients: u32,
        salt: u32,
        hash: H,
        frames: Frames<A>,
    ) -> Result<LentSlots<H, A>, AllocError>
        requires slots { (1 ≤ count) × (count ≤ MAX_PAGES) }
        requires frames { (2 ≤ length frames) × (length frames ≤ MAX_FRAMES) × (frames ≡ no_frames (length frames)) }
        ensures { IfOk result (λ slots. slots ≡ empty_machine count (length frames)) }
    {
        let counts = LazyList::new(alloc.clone()?, frames.total(), 0)?;
        let noted = new_clients(alloc.clone()?, clients)?;
        let tags = LazyList::new(alloc.clone()?, count, 0)?;
        let core = new_core(alloc, count, salt, hash, frames)?;
        Ok(LentSlots {
            core,
            tags,
            first_free: 0,
            free: count,
            counts,
            clients: noted,
        })
    }
}

impl<H: PageHash, A: Allocator> LentSlots<H, A> {
    /// Lends a client's page, whose hash under a salt is known: puts it into a free slot. There it joins the pages that are equal
    /// to it, or gets a frame of its own. If the salt isn't that of the slots, the hash is ignored. It allocates no memory.
    ///
    /// # Errors
    ///
    /// No slot is free, or the page joined no other and all frames but the spare one are in use. Then nothing changed.
    pub fn lend(
        &mut self,
        client: u32,
        page: &Page,
        known: SaltedHash,
    ) -> Result<PageLoan, SlotFault>
        requires hash { known.hash ≡ H.hash_of known.salt page.now }
        ensures lends { MatchResult result (λ loan. LendsPage client page.now loan self.old self.new)
            (λ fault. RefusesPage fault self.old × (self.new ≡ self.old)) }
        ensures bytes { IfOk result (λ _. BytesStayIn self.old self.new) }
    {
        self.frames();
        if self.free == 0 {
            return Err(SlotFault::NoSlot);
        }
        let ppn = self.first_free;
        match hold(&mut self.core, &self.tags, ppn, page, known) {
            None => Err(SlotFault::NoFrame),
            Some(frame) => {
                self.first_free = next_free(ppn, self.tags.get(ppn));
                self.tags.set(ppn, client);
                self.free -= 1;
                let sharers = add_sharer(&mut self.counts, frame);
                note_more(&mut self.clients, client, ppn);
                Ok(PageLoan {
                    ppn,
                    frame,
                    sharers,
                })
            }
        }
    }

    /// Returns what a slot holds, `None` if it is free or there is no such slot.
    pub fn holding(&self, ppn: u32) -> Option<Holding>
        ensures { result ≡ holding self.now.slots ppn }
    {
        if ppn >= self.tags.len() {
            return None;
        }
        holding_in(&self.core, &self.tags, ppn)
    }

    /// Releases a slot, and returns the frame that is free since: that of the slot, unless other slots have it, too. A slot that is
    /// free stays so. It allocates no memory.
    #[tactic(auto, using(crate::proofs::Bytes::bytes_by_release))]
    pub fn release(&mut self, ppn: u32) -> Option<u32>
        ensures freed { result ≡ freed ppn self.old }
        ensures now { self.new ≡ released ppn self.old }
        ensures bytes { BytesStayIn self.old self.new }
    {
        match self.holding(ppn) {
            None => None,
            Some(held) => self.give_up(ppn, held),
        }
    }

    /// Releases a slot that holds this.
    fn give_up(&mut self, ppn: u32, held: Holding) -> Option<u32>
        requires { holding self.old.slots ppn ≡ Some held }
        ensures freed { result ≡ left_free (slice_set self.old.slots ppn None) held.frame }
        ensures now { self.new ≡ without self.old ppn held.frame }
    {
        take(&mut self.core, &self.tags, ppn, held);
        let link = link_to(self.first_free, self.free);
        self.tags.set(ppn, link);
        self.first_free = ppn;
        self.free += 1;
        let sharers = drop_sharer(&mut self.counts, held.frame);
        note_less(&mut self.clients, held.client, ppn);
        if sharers == 0 { Some(held.frame) } else { None }
    }

    /// Returns the first slot that is this client's. It looks at no slot if the client has none. All calls between two lends to the
    /// client together pass over each slot once at most.
    pub fn first_of(&mut self, client: u32) -> Option<u32>
        ensures slot { result ≡ position (is_of client) self.old.slots }
        ensures within { IfSome result (λ ppn. ppn < length self.old.slots) }
        ensures same { self.new ≡ self.old }
    {
        match place_of(&self.clients, client) {
            None => None,
            Some(start) => match find_from(&self.core, &self.tags, client, start) {
                None => None,
                Some(ppn) => {
                    note_start(&mut self.clients, client, ppn);
                    Some(ppn)
                }
            },
        }
    }

    /// Returns how many slots are this client's.
    pub fn held_by(&self, client: u32) -> u32
        ensures count { result ≡ held_by client self.now.slots }
        ensures few { result ≤ MAX_PAGES }
    {
        if client as usize >= self.clients.len() {
            return count_of(&self.core, &self.tags, client);
        }
        count_at(&self.clients, client)
    }

    /// Returns the frames. A frame is taken exactly where slots have it.
    pub fn frames(&self) -> &Frames<A>
        ensures value { result.now ≡ self.now.frames }
        ensures slots { FramesOfSlots self.now }
    {
        self.core.frames()
    }

    /// Returns how many slots there are, free ones included.
    pub fn slot_count(&self) -> u32
        ensures count { result ≡ length self.now.slots }
        ensures few { result ≤ MAX_PAGES }
    {
        self.tags.len()
    }

    /// Returns how many slots are held.
    pub fn held(&self) -> u32
        ensures count { result ≡ held_slots self.now }
        ensures few { result ≤ MAX_PAGES }
    {
        self.slot_count() - self.free
    }

    /// Returns how many frames are in use.
    pub fn frames_in_use(&self) -> u32
        ensures count { result ≡ frames_in_use self.now }
        ensures few { result ≤ MAX_FRAMES }
    {
        self.core.frames().used()
    }

    /// Returns how many slots have a frame that another slot has, too.
    pub fn shared(&self) -> u32
        ensures count { result ≡ shared_slots self.now }
        ensures few { result ≤ MAX_PAGES }
    {
        count_shared(&self.core, &self.tags, &self.counts)
    }
}
