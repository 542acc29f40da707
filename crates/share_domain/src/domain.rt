//! The domain.
ghost use Rattle.std.specs.Prelude.{◌≡◌, ◌/◌, ◌*◌, ◌<◌, ◌≤◌, ◌++◌, drop, length, IfOk, IfSome, Some, MatchOption, MatchResult, slice_get};
ghost use Rattle.share_domain.specs.Open.{first_open};
ghost use Rattle.share_domain.specs.Bytes.{BytesStay};
ghost use Rattle.share_domain.specs.Domains.{next_client, entered, page_machine, LendsIn, RefusesIn, release_answer, after_release};
ghost use Rattle.share_domain.specs.Domains.{IsIn, held_in, machine_at, with_client, with_machines, with_released, freed_in};
ghost use Rattle.share_domain.specs.Leaving.{Leaves, StaysOut, first_slot, is_here, left_by, slot_from};
ghost use Rattle.share_domain.specs.Made.{AreLimits, AreFree, NoDomainFor, empty_domain};
ghost use Rattle.share_domain.specs.Totals.{domain_totals, slots_of};
ghost use Rattle.share_domain.specs.declared.config.TheConstants.{MAX_MACHINES};
ghost use Rattle.page_model.specs.declared.limits.TheConstants.{MAX_PAGES};
ghost use Rattle.lent_slots.specs.Totals.{FramesOfSlots};

use crate::client::Presence;
use crate::clients::{find_out, is_here, is_in};
use crate::config::{DomainConfig, limit_fault};
use crate::fault::{DomainFault, LendFault, NoSuchSlot};
use crate::holding::{Loan, Slot};
use crate::leave::find_slot;
use crate::lend::{first_open, holding_at, lend_to, machine_of, release_at};
use crate::make::{new_clients, new_frames, new_machines};
use crate::number::frame_number;
use crate::report::{DomainReport, count_slots, report};
use lent_slots::{Holding, LentSlots, SlotFault, is_of};
use machine_frames::Frames;
use merge_core::SaltedHash;
use page_digest::PageHash;
use page_model::Page;
use std::alloc::{AllocError, Allocator, Global};
use std::marker::Model;

/// A domain: one to `MAX_MACHINES` machines, whose slots belong to clients.
#[derive(Drop)]
pub struct Domain<H: PageHash, A: Allocator = Global> {
    hash: H,
    salt: u32,
    frames: u32,
    machines: Vec<LentSlots<H, A>, A>,
    clients: Vec<Presence, A>,
}

impl<H: PageHash, A: Allocator> Model for Domain<H, A> {
    ghost use Rattle.share_domain.specs.Domains.{DomainView};
    ghost use Rattle.share_domain.specs.Sound.{SoundDomain};

    ghost Value = { DomainView };

    ghost view = { λ d. record { salt = d.salt; frames = d.frames; machines = d.machines.items; clients = d.clients.items } };

    ghost invariant = { λ d. SoundDomain d.frames d.machines.items d.clients.items };
}

impl<H: PageHash + Drop + Copy, A: Allocator + Clone> Domain<H, A> {
    /// Makes a domain with no client in. All its memory is allocated here.
    pub fn new(alloc: A, config: &DomainConfig, hash: H) -> Result<Domain<H, A>, DomainFault>
        ensures empty { IfOk result (λ domain. domain ≡ empty_domain config.now) }
        ensures fault { MatchResult result (λ _. AreLimits config.now) (λ fault. NoDomainFor config.now fault) }
    {
        match limit_fault(config) {
            Some(fault) => Err(fault),
            None => {
                let frames = new_frames(alloc.clone()?, config)?;
                Ok(Domain::with_frames(alloc, config, hash, frames)?)
            }
        }
    }

    /// Makes a domain with these frames, all of them free: those of machine 0 first. The caller may have made them in a region of
    /// its own ([`Frames::in_region`]), of which each machine has a part. All other memory of the domain is allocated here.
    pub fn with_frames(
        alloc: A,
        config: &DomainConfig,
        hash: H,
        frames: Vec<Frames<A>, A>,
    ) -> Result<Domain<H, A>, AllocError>
        requires limits { AreLimits config.now }
        requires frames { AreFree config.now frames.items }
        ensures { IfOk result (λ domain. domain ≡ empty_domain config.now) }
    {
        let machines = new_machines(alloc.clone()?, config, hash, frames)?;
        let clients = new_clients(alloc, config.clients)?;
        Ok(Domain {
            hash,
            salt: config.salt,
            frames: config.frames,
            machines,
            clients,
        })
    }
}

impl<H: PageHash, A: Allocator> Domain<H, A> {
    /// Lets a client in, and returns its number: the first that no client has. Returns `None` if as many clients are in as there
    /// may be.
    pub fn enter(&mut self) -> Option<u32>
        ensures client { result ≡ next_client self.old }
        ensures now { self.new ≡ entered self.old result }
    {
        match find_out(&self.clients) {
            None => None,
            Some(client) => {
                self.note(client, Presence::In);
                Some(client)
            }
        }
    }

    /// Lends a client's page: puts it into a free slot of the machine that its hash names. There it joins the pages that are
    /// equal to it or gets a frame of its own.
    ///
    /// # Errors
    ///
    /// The client isn't in or has begun to leave; the machine has no free slot; or the page joined no other, and all frames of the
    /// machine but the spare one are in use. Then nothing changed.
    pub fn lend(&mut self, client: u32, page: &Page) -> Result<Loan, LendFault>
        ensures lends { MatchResult result
            (λ loan. LendsIn (page_machine H.hash_of self.old page.now) client page.now loan self.old self.new)
            (λ fault. RefusesIn (page_machine H.hash_of self.old page.now) client fault self.old × (self.new ≡ self.old)) }
        ensures bytes { IfOk result (λ _. BytesStay self.old self.new) }
    {
        if !is_in(&self.clients, client) {
            return Err(LendFault::NoClient);
        }
        let known = self.hash_of(page);
        let m = machine_of(self.machines.len(), known.hash);
        self.lend_known(m, client, page, known)
    }

    /// Lends a client's page at this machine. So a caller that knows which machine has a frame with the page's bytes lets equal pages meet,
    /// as [`lend`](Domain::lend) does. Lend all pages of a domain by that call, or all by this one and [`lend_at_open`](Domain::lend_at_open).
    ///
    /// # Errors
    ///
    /// Those of [`lend`](Domain::lend). Then nothing changed.
    pub fn lend_at(&mut self, machine: u32, client: u32, page: &Page) -> Result<Loan, LendFault>
        requires within { machine < length self.old.machines }
        ensures lends { MatchResult result
            (λ loan. LendsIn machine client page.now loan self.old self.new)
            (λ fault. RefusesIn machine client fault self.old × (self.new ≡ self.old)) }
        ensures bytes { IfOk result (λ _. BytesStay self.old self.new) }
    {
        if !is_in(&self.clients, client) {
            return Err(LendFault::NoClient);
        }
        let known = self.hash_of(page);
        self.lend_known(machine as usize, client, page, known)
    }

    /// Lends a client's page at the first machine with a free slot and a free frame besides the spare one. Pages that are lent one after
    /// the other then get frames of one machine.
    ///
    /// # Errors
    ///
    /// The client isn't in or has begun to leave, or no machine is open, and machine 0 refuses the page. Then nothing changed.
    pub fn lend_at_open(&mut self, client: u32, page: &Page) -> Result<Loan, LendFault>
        ensures lends { MatchResult result
            (λ loan. LendsIn (first_open self.old.machines) client page.now loan self.old self.new)
            (λ fault. RefusesIn (first_open self.old.machines) client fault self.old × (self.new ≡ self.old)) }
        ensures bytes { IfOk result (λ _. BytesStay self.old self.new) }
    {
        let machine = first_open(&self.machines);
        self.lend_at(machine as u32, client, page)
    }

    /// Releases a client's slot, and returns the frame that is free since: that of the slot, unless other slots have it, too.
    ///
    /// # Errors
    ///
    /// The slot isn't the client's. Then nothing changed.
    #[tactic(auto, using(crate::proofs::Bytes::bytes_by_release))]
    pub fn release(&mut self, client: u32, slot: Slot) -> Result<Option<u32>, NoSuchSlot>
        ensures answer { result ≡ release_answer client slot self.old }
        ensures now { self.new ≡ after_release client slot self.old }
        ensures bytes { BytesStay self.old self.new }
    {
        if !is_of(client, &holding_at(&self.machines, slot)) {
            return Err(NoSuchSlot);
        }
        Ok(self.give_up(slot))
    }

    /// Releases as many of a client's slots as `freed` has places, or all that are left, and returns how many. For each of
    /// them `freed` then holds the frame that is free since, or [`NO_FRAME`](crate::NO_FRAME).
    ///
    /// From the first call on the client lends no more pages. Call it until it returns 0: in that call the client had no slot left,
    /// and is out, and its number may be given to another. Returns `None` if there is no such client. Give room for one frame
    /// at least: with none, 0 could mean either.
    ///
    /// A client without slots costs a look at each machine, and at no slot. All calls of one leave together pass over each slot once
    /// at most, and stop in each machine at the client's last slot there.
    pub fn leave(&mut self, client: u32, freed: &mut [u32]) -> Option<usize>
        requires room { 1 ≤ length freed.old }
        ensures { MatchOption result (StaysOut client freed.old freed.new self.old self.new)
            (λ count. Leaves client count freed.old freed.new self.old self.new) }
    {
        if !self.is_present(client) {
            return None;
        }
        match self.first_slot(client, 0) {
            None => {
                self.note(client, Presence::Out);
                Some(0)
            }
            Some(first) => {
                self.note(client, Presence::Leaving);
                Some(self.release_from(client, first, freed))
            }
        }
    }

    /// Returns what the domain counts. It looks at each slot.
    pub fn report(&self) -> DomainReport
        ensures { result ≡ domain_totals self.now }
    {
        report(&self.machines, &self.clients)
    }

    /// Returns how many slots a client has. It looks at no slot.
    pub fn held_by(&self, client: u32) -> u32
        ensures count { result ≡ slots_of client self.now.machines }
        ensures few { result ≤ MAX_PAGES * MAX_MACHINES }
    {
        count_slots(&self.machines, client)
    }

    /// Returns what a slot holds, `None` if it is free or there is no such slot. The frame's number is that in its machine.
    pub fn holding(&self, slot: Slot) -> Option<Holding>
        ensures { result ≡ held_in self.now.machines slot }
    {
        holding_at(&self.machines, slot)
    }

    /// Returns the number of machines.
    pub fn machines(&self) -> u32
        ensures { result ≡ length self.now.machines }
    {
        self.machines.len() as u32
    }

    /// Returns how many frames each machine has.
    pub fn frames_each(&self) -> u32
        ensures value { result ≡ self.now.frames }
        ensures some { 1 ≤ result }
    {
        self.frames
    }

    /// Returns which machine has a frame, whose number is that among the frames of all machines.
    pub fn machine_of(&self, frame: u32) -> u32
        requires { frame < length self.now.machines * self.now.frames }
        ensures machine { result ≡ frame / self.now.frames }
        ensures within { result < length self.now.machines }
        ensures most { result < MAX_MACHINES }
    {
        frame / self.frames
    }

    /// Returns the frames of a machine. A frame is taken exactly where slots have it.
    pub fn frames(&self, machine: u32) -> &Frames<A>
        requires { machine < length self.now.machines }
        ensures value { result.now ≡ (machine_at self.now.machines machine).frames }
        ensures slots { FramesOfSlots (machine_at self.now.machines machine) }
    {
        self.machines[machine as usize].frames()
    }

    /// Returns a page's hash, and the salt that it is under.
    fn hash_of(&self, page: &Page) -> SaltedHash
        ensures salt { result.salt ≡ self.now.salt }
        ensures hash { result.hash ≡ H.hash_of self.now.salt page.now }
    {
        SaltedHash {
            salt: self.salt,
            hash: self.hash.hash(self.salt, page),
        }
    }

    /// Lends the page of a client that is in at a machine.
    #[tactic(auto, using(crate::proofs::Bytes::bytes_by_lend))]
    fn lend_known(
        &mut self,
        m: usize,
        client: u32,
        page: &Page,
        known: SaltedHash,
    ) -> Result<Loan, LendFault>
        requires here { IsIn self.old client }
        requires within { m < length self.old.machines }
        requires hash { known.hash ≡ H.hash_of known.salt page.now }
        ensures lends { MatchResult result
            (λ loan. LendsIn m client page.now loan self.old self.new)
            (λ fault. RefusesIn m client fault self.old × (self.new ≡ self.old)) }
        ensures bytes { IfOk result (λ _. BytesStay self.old self.new) }
    {
        match lend_to(&mut self.machines, m, client, page, known) {
            Err(SlotFault::NoSlot) => Err(LendFault::NoSlot),
            Err(SlotFault::NoFrame) => Err(LendFault::NoFrame),
            Ok(lent) => Ok(Loan {
                slot: Slot {
                    machine: m as u32,
                    ppn: lent.ppn,
                },
                frame: m as u32 * self.frames + lent.frame,
                sharers: lent.sharers,
            }),
        }
    }

    /// Whether a client has entered, and isn't out yet.
    fn is_present(&self, client: u32) -> bool
        ensures { result ≡ is_here (slice_get self.now.clients client) }
    {
        is_here(&self.clients, client)
    }

    /// Returns a client's first slot, from a machine on.
    fn first_slot(&mut self, client: u32, machine: u32) -> Option<Slot>
        requires { machine ≤ length self.old.machines }
        ensures slot { result ≡ slot_from client machine (drop machine self.old.machines) }
        ensures within { IfSome result (λ slot. slot.machine < length self.old.machines) }
        ensures same { self.new ≡ self.old }
    {
        find_slot(&mut self.machines, client, machine as usize)
    }

    /// Notes a client's presence.
    fn note(&mut self, client: u32, presence: Presence)
        requires { client < length self.old.clients }
        ensures { self.new ≡ with_client self.old client presence }
    {
        self.clients[client as usize] = presence;
    }

    /// Releases a slot.
    fn give_up(&mut self, slot: Slot) -> Option<u32>
        requires { slot.machine < length self.old.machines }
        ensures freed { result ≡ freed_in self.old.frames slot self.old.machines }
        ensures now { self.new ≡ with_machines self.old (with_released slot self.old.machines) }
    {
        match release_at(&mut self.machines, slot) {
            None => None,
            Some(mpn) => Some(slot.machine * self.frames + mpn),
        }
    }

    /// Releases slots of a client, from its first one on, as many as `freed` has places, and returns how many.
    fn release_from(&mut self, client: u32, first: Slot, freed: &mut [u32]) -> usize
        requires first { first_slot client self.old.machines ≡ Some first }
        requires within { first.machine < length self.old.machines }
        ensures count { result ≡ length (left_by self.old.frames client (length freed.old) self.old.machines).numbers }
        ensures written { freed.new ≡ (left_by self.old.frames client (length freed.old) self.old.machines).numbers ++ drop result freed.old }
        ensures now { self.new ≡ with_machines self.old (left_by self.old.frames client (length freed.old) self.old.machines).machines }
    {
        let mut found = Some(first);
        for i in 0..freed.len() {
            match found {
                None => return i,
                Some(slot) => {
                    freed[i] = frame_number(self.give_up(slot));
                    found = self.first_slot(client, slot.machine);
                }
            }
        }
        freed.len()
    }
}
