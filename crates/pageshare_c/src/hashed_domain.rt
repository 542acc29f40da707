//! A domain, by the hash that it was made with.
ghost use Rattle.std.specs.Prelude.{◌≡◌, ◌≤◌, length, IfOk, MatchOption, MatchResult};
ghost use Rattle.share_domain.specs.Domains.{next_client, entered, page_machine, LendsIn, RefusesIn, release_answer, after_release};
ghost use Rattle.share_domain.specs.Leaving.{Leaves, StaysOut};
ghost use Rattle.share_domain.specs.Made.{AreFree, AreLimits, empty_domain};
ghost use Rattle.share_domain.specs.Totals.{domain_totals};
ghost use Rattle.pageshare_c.specs.Domains.{hash_of, number_of, view_of, with_view};

use crate::make::{FOLD, SHA256, WIDE_SHA256};
use machine_frames::Frames;
use page_digest::{FoldHash, Sha256Hash, WideSha256Hash};
use page_model::Page;
use share_domain::{Domain, DomainConfig, DomainReport, LendFault, Loan, NoSuchSlot, Slot};
use std::alloc::{AllocError, Global};

/// A domain, by the hash that it was made with. A hash's stated function belongs to its type, so there is a domain for each.
#[derive(Drop)]
pub enum HashedDomain {
    Sha256(Domain<Sha256Hash>),
    Fold(Domain<FoldHash>),
    WideSha256(Domain<WideSha256Hash>),
}

impl HashedDomain {
    /// Makes a domain of the hash with this number, with these frames.
    pub(crate) fn new(
        alloc: Global,
        config: &DomainConfig,
        hash: u32,
        frames: Vec<Frames>,
    ) -> Result<HashedDomain, AllocError>
        requires hash { hash ≤ WIDE_SHA256 }
        requires limits { AreLimits config.now }
        requires frames { AreFree config.now frames.items }
        ensures view { IfOk result (λ domain. view_of domain ≡ empty_domain config.now) }
        ensures hash { IfOk result (λ domain. number_of domain ≡ hash) }
    {
        if hash == SHA256 {
            let domain = Domain::with_frames(alloc, config, Sha256Hash, frames)?;
            return Ok(HashedDomain::Sha256(domain));
        }
        if hash == FOLD {
            let domain = Domain::with_frames(alloc, config, FoldHash, frames)?;
            return Ok(HashedDomain::Fold(domain));
        }
        let domain = Domain::with_frames(alloc, config, WideSha256Hash, frames)?;
        Ok(HashedDomain::WideSha256(domain))
    }

    /// Lets a client in, and returns its number.
    pub(crate) fn enter(&mut self) -> Option<u32>
        ensures client { result ≡ next_client (view_of self.old) }
        ensures now { self.new ≡ with_view (entered (view_of self.old) result) self.old }
    {
        match self {
            HashedDomain::Sha256(domain) => domain.enter(),
            HashedDomain::Fold(domain) => domain.enter(),
            HashedDomain::WideSha256(domain) => domain.enter(),
        }
    }

    /// Lends a client's page.
    pub(crate) fn lend(&mut self, client: u32, page: &Page) -> Result<Loan, LendFault>
        ensures lends { MatchResult result
            (λ loan. LendsIn (page_machine (hash_of self.old) (view_of self.old) page.now) client page.now loan (view_of self.old) (view_of self.new))
            (λ fault. RefusesIn (page_machine (hash_of self.old) (view_of self.old) page.now) client fault (view_of self.old)
            × (self.new ≡ self.old)) }
        ensures hash { self.new ≡ with_view (view_of self.new) self.old }
    {
        match self {
            HashedDomain::Sha256(domain) => domain.lend(client, page),
            HashedDomain::Fold(domain) => domain.lend(client, page),
            HashedDomain::WideSha256(domain) => domain.lend(client, page),
        }
    }

    /// Releases a client's slot, and returns the frame that is free since.
    pub(crate) fn release(&mut self, client: u32, slot: Slot) -> Result<Option<u32>, NoSuchSlot>
        ensures answer { result ≡ release_answer client slot (view_of self.old) }
        ensures now { self.new ≡ with_view (after_release client slot (view_of self.old)) self.old }
    {
        match self {
            HashedDomain::Sha256(domain) => domain.release(client, slot),
            HashedDomain::Fold(domain) => domain.release(client, slot),
            HashedDomain::WideSha256(domain) => domain.release(client, slot),
        }
    }

    /// Releases slots of a client that leaves, as many as `freed` has places, and returns how many.
    pub(crate) fn leave(&mut self, client: u32, freed: &mut [u32]) -> Option<usize>
        requires room { 1 ≤ length freed.old }
        ensures leaves { MatchOption result (StaysOut client freed.old freed.new (view_of self.old) (view_of self.new))
            (λ count. Leaves client count freed.old freed.new (view_of self.old) (view_of self.new)) }
        ensures hash { self.new ≡ with_view (view_of self.new) self.old }
    {
        match self {
            HashedDomain::Sha256(domain) => domain.leave(client, freed),
            HashedDomain::Fold(domain) => domain.leave(client, freed),
            HashedDomain::WideSha256(domain) => domain.leave(client, freed),
        }
    }

    /// Returns what the domain counts.
    pub(crate) fn report(&self) -> DomainReport
        ensures { result ≡ domain_totals (view_of self.now) }
    {
        match self {
            HashedDomain::Sha256(domain) => domain.report(),
            HashedDomain::Fold(domain) => domain.report(),
            HashedDomain::WideSha256(domain) => domain.report(),
        }
    }
}
