//! The domain.
ghost use Rattle.std.specs.Prelude.{◌≡◌, ◌≤◌, ◌*◌, length, IfOk, MatchOption, MatchResult};
ghost use Rattle.share_domain.specs.Bytes.{BytesStay};
ghost use Rattle.share_domain.specs.Domains.{next_client, entered, release_answer, after_release};
ghost use Rattle.share_domain.specs.Leaving.{Leaves, StaysOut};
ghost use Rattle.share_domain.specs.Made.{AreLimits, AreFree, empty_domain};
ghost use Rattle.share_domain.specs.Totals.{domain_totals, slots_of};
ghost use Rattle.share_domain.specs.declared.config.TheConstants.{MAX_MACHINES};
ghost use Rattle.page_model.specs.declared.limits.TheConstants.{MAX_FRAMES};
ghost use Rattle.frame_fingerprints.specs.Held.{is_held};
ghost use Rattle.fingerprint_domain.specs.Known.{fingerprints_in, with_domain, LendsFound, RefusesFound};

use crate::beside::lend_by;
use crate::frames::forget_each;
use frame_fingerprints::FrameFingerprints;
use machine_frames::Frames;
use page_digest::{FoldHash, PageHash};
use page_model::Page;
use share_domain::{
    Domain, DomainConfig, DomainReport, LendFault, Loan, NoSuchSlot, Slot, frame_number,
};
use std::alloc::{AllocError, Allocator, Global};
use std::marker::Model;

/// A domain that knows the fingerprints of its frames in use.
#[derive(Drop)]
pub struct FingerprintDomain<H: PageHash, A: Allocator = Global> {
    salt: u32,
    domain: Domain<H, A>,
    fingerprints: FrameFingerprints<A>,
}

impl<H: PageHash, A: Allocator> Model for FingerprintDomain<H, A> {
    ghost use Rattle.fingerprint_domain.specs.Known.{KnownDomain};
    ghost use Rattle.fingerprint_domain.specs.Fits.{Reflects};

    ghost Value = { KnownDomain };

    ghost view = { λ d. record { salt = d.salt; domain = d.domain } };

    ghost invariant = { λ d. Reflects d.salt d.domain d.fingerprints };
}

impl<H: PageHash + Drop + Copy, A: Allocator + Clone> FingerprintDomain<H, A> {
    /// Makes a domain with these frames, all of them free, as [`Domain::with_frames`] does. The salt is that of the fingerprints. The
    /// seed spreads them; it is drawn at random and kept secret.
    pub fn with_frames(
        alloc: A,
        config: &DomainConfig,
        hash: H,
        frames: Vec<Frames<A>, A>,
        salt: u32,
        seed: u64,
    ) -> Result<FingerprintDomain<H, A>, AllocError>
        requires limits { AreLimits config.now }
        requires frames { AreFree config.now frames.items }
        ensures { IfOk result (λ known. known ≡ record { salt = salt; domain = empty_domain config.now }) }
    {
        let total = total_frames(config.machines, config.frames);
        let fingerprints = FrameFingerprints::new(alloc.clone()?, total, seed)?;
        let domain = Domain::with_frames(alloc, config, hash, frames)?;
        Ok(FingerprintDomain {
            salt,
            domain,
            fingerprints,
        })
    }
}

/// Returns how many frames `machines` machines of `each` frames have.
fn total_frames(machines: u32, each: u32) -> u32
    requires machines { machines ≤ MAX_MACHINES }
    requires each { each ≤ MAX_FRAMES }
    ensures { result ≡ machines * each }
{
    machines * each
}

impl<H: PageHash, A: Allocator> FingerprintDomain<H, A> {
    /// Returns the salt of the fingerprints.
    pub fn salt(&self) -> u32
        ensures { result ≡ self.now.salt }
    {
        self.salt
    }

    /// Whether the bytes of a frame in use have this fingerprint.
    pub fn has(&self, fingerprint: u64) -> bool
        ensures { result ≡ is_held fingerprint (fingerprints_in self.now.salt self.now.domain.machines) }
    {
        self.fingerprints.has(fingerprint)
    }

    /// Lets a client in, as [`Domain::enter`] does.
    pub fn enter(&mut self) -> Option<u32>
        ensures client { result ≡ next_client self.old.domain }
        ensures now { self.new ≡ with_domain (entered self.old.domain result) self.old }
    {
        self.domain.enter()
    }

    /// Lends a client's page at a machine with a frame in use whose bytes have the page's fingerprint. If there is none, or each refuses
    /// the page, it is lent at the first open machine, as [`Domain::lend_at_open`] does.
    ///
    /// # Errors
    ///
    /// Those of [`Domain::lend_at_open`]. Then nothing changed.
    pub fn lend(&mut self, client: u32, page: &Page) -> Result<Loan, LendFault>
        ensures lends { MatchResult result
            (λ loan. LendsFound self.old.salt client page.now loan self.old.domain self.new.domain)
            (λ fault. RefusesFound self.old.salt client page.now fault self.old.domain × (self.new.domain ≡ self.old.domain)) }
        ensures salt { self.new.salt ≡ self.old.salt }
        ensures bytes { IfOk result (λ _. BytesStay self.old.domain self.new.domain) }
    {
        let fingerprint = FoldHash.hash(self.salt, page);
        let answer = lend_by(
            &mut self.domain,
            &self.fingerprints,
            fingerprint,
            client,
            page,
        );
        match answer {
            Err(fault) => Err(fault),
            Ok(loan) => {
                if !self.fingerprints.is_kept(loan.frame) {
                    self.fingerprints.put(loan.frame, fingerprint);
                }
                Ok(loan)
            }
        }
    }

    /// Releases a client's slot, as [`Domain::release`] does.
    ///
    /// # Errors
    ///
    /// The slot isn't the client's. Then nothing changed.
    pub fn release(&mut self, client: u32, slot: Slot) -> Result<Option<u32>, NoSuchSlot>
        ensures answer { result ≡ release_answer client slot self.old.domain }
        ensures now { self.new ≡ with_domain (after_release client slot self.old.domain) self.old }
    {
        match self.domain.release(client, slot) {
            Err(fault) => Err(fault),
            Ok(freed) => {
                self.fingerprints.remove(frame_number(freed));
                Ok(freed)
            }
        }
    }

    /// Releases as many of a client's slots as `freed` has places, as [`Domain::leave`] does.
    pub fn leave(&mut self, client: u32, freed: &mut [u32]) -> Option<usize>
        requires room { 1 ≤ length freed.old }
        ensures leaves { MatchOption result (StaysOut client freed.old freed.new self.old.domain self.new.domain)
            (λ count. Leaves client count freed.old freed.new self.old.domain self.new.domain) }
        ensures salt { self.new.salt ≡ self.old.salt }
    {
        match self.domain.leave(client, freed) {
            None => None,
            Some(count) => {
                forget_each(&mut self.fingerprints, &freed[..count]);
                Some(count)
            }
        }
    }

    /// Returns how many slots a client has. It looks at no slot.
    pub fn held_by(&self, client: u32) -> u32
        ensures { result ≡ slots_of client self.now.domain.machines }
    {
        self.domain.held_by(client)
    }

    /// Returns what the domain counts. It looks at each slot.
    pub fn report(&self) -> DomainReport
        ensures { result ≡ domain_totals self.now.domain }
    {
        self.domain.report()
    }
}
