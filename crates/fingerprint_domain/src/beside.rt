//! Where a page is lent: beside frames with its fingerprint, and at the first open machine.
ghost use Rattle.std.specs.Prelude.{◌≡◌, ◌*◌, length, IfOk, IfSome, MatchOption, MatchResult};
ghost use Rattle.share_domain.specs.Bytes.{BytesStay};
ghost use Rattle.share_domain.specs.Domains.{LendsIn, RefusesIn};
ghost use Rattle.share_domain.specs.Open.{first_open};
ghost use Rattle.fingerprint_domain.specs.Beside.{AllRefuseKept, GoesKept, LendsKept};

use frame_fingerprints::FrameFingerprints;
use page_digest::PageHash;
use page_model::Page;
use share_domain::{Domain, LendFault, Loan, MAX_MACHINES};
use std::alloc::Allocator;

// Lends a client's page at a machine that has a frame with this fingerprint. If there is none, or each refuses the page, it is lent at the
// first open machine.
pub(crate) fn lend_by<H: PageHash, A: Allocator>(
    domain: &mut Domain<H, A>,
    fingerprints: &FrameFingerprints<A>,
    fingerprint: u64,
    client: u32,
    page: &Page,
) -> Result<Loan, LendFault>
    requires { length fingerprints.now.held ≡ length domain.old.machines * domain.old.frames }
    ensures lends { MatchResult result
        (λ loan. GoesKept fingerprint fingerprints.now.held client loan domain.old
        × LendsIn loan.slot.machine client page.now loan domain.old domain.new)
        (λ fault. AllRefuseKept fingerprint fingerprints.now.held client domain.old
        × RefusesIn (first_open domain.old.machines) client fault domain.old × (domain.new ≡ domain.old)) }
    ensures bytes { IfOk result (λ _. BytesStay domain.old domain.new) }
{
    match lend_beside(domain, fingerprints, fingerprint, client, page) {
        Some(loan) => Ok(loan),
        None => domain.lend_at_open(client, page),
    }
}

// Lends a client's page at the first machine that takes it, of those that have a frame with this fingerprint. Returns `None` if all of
// them refuse it, or there is none; then nothing changed.
fn lend_beside<H: PageHash, A: Allocator>(
    domain: &mut Domain<H, A>,
    fingerprints: &FrameFingerprints<A>,
    fingerprint: u64,
    client: u32,
    page: &Page,
) -> Option<Loan>
    requires { length fingerprints.now.held ≡ length domain.old.machines * domain.old.frames }
    ensures lends { MatchOption result
        (AllRefuseKept fingerprint fingerprints.now.held client domain.old × (domain.new ≡ domain.old))
        (λ loan. LendsKept fingerprint fingerprints.now.held client page.now loan domain.old domain.new) }
    ensures bytes { IfSome result (λ _. BytesStay domain.old domain.new) }
{
    let each = domain.frames_each();
    let mut tried = [false; MAX_MACHINES as usize];
    while let Some(frame) = fingerprints.find(fingerprint, each, &tried) {
        let machine = domain.machine_of(frame);
        match domain.lend_at(machine, client, page) {
            Ok(loan) => return Some(loan),
            Err(_) => tried[machine as usize] = true,
        }
    }
    None
}
