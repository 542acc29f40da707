//! Pages that are lent one after the other.
ghost use Rattle.std.specs.Prelude.{◌≡◌, ◌≤◌, ◌+◌, ◌++◌, ◌∷◌, [], length, replicate};
ghost use Rattle.arrayvec.specs.ArrayVec.{array_vec_len};
ghost use Rattle.share_domain.specs.Bytes.{BytesStay};
ghost use Rattle.host_sessions.specs.Turns.{LendsInTurn, LendsOne, LendsSome, Lends, lent_by, slots_in, not_lent, offered};
ghost use Rattle.host_messages.specs.declared.limits.TheConstants.{MAX_IN_MESSAGE};

use arrayvec::ArrayVec;
use fingerprint_domain::FingerprintDomain;
use host_messages::{Lent, MAX_IN_MESSAGE};
use page_digest::PageHash;
use page_model::Page;
use share_domain::{LendFault, Loan, NO_FRAME, slot_number};
use std::alloc::Allocator;

/// Lends pages of a client, one after the other. `others` pages after them aren't lent.
pub(crate) fn lend_some<H: PageHash, A: Allocator>(
    domain: &mut FingerprintDomain<H, A>,
    client: u32,
    quota: u32,
    pages: &[Page],
    others: usize,
) -> ArrayVec<Lent, MAX_IN_MESSAGE>
    requires { length pages.now + others ≤ MAX_IN_MESSAGE }
    ensures lends { LendsSome domain.old.salt client quota pages.now others result.items domain.old.domain domain.new.domain }
    ensures salt { domain.new.salt ≡ domain.old.salt }
    ensures bytes { BytesStay domain.old.domain domain.new.domain }
{
    let lent = lend_each(domain, client, quota, pages);
    with_refused(lent.as_slice(), others)
}

/// Returns these loans, and behind them so many pages that aren't lent.
fn with_refused(loans: &[Lent], others: usize) -> ArrayVec<Lent, MAX_IN_MESSAGE>
    requires { length loans.now + others ≤ MAX_IN_MESSAGE }
    ensures { result.items ≡ loans.now ++ replicate others not_lent }
{
    let mut all = copy_of(loans);
    let refused = refused(others);
    let _appended = all.try_extend_from_slice(refused.as_slice());
    all
}

/// Returns so many pages that aren't lent.
fn refused(count: usize) -> ArrayVec<Lent, MAX_IN_MESSAGE>
    requires { count ≤ MAX_IN_MESSAGE }
    ensures items { result.items ≡ replicate count not_lent }
    ensures len { array_vec_len result ≡ count }
{
    let mut pages = ArrayVec::new();
    for _ in 0..count {
        pages.push(not_lent());
    }
    pages
}

/// Returns how many pages of a message may be lent.
pub(crate) fn offered(count: u32, most: u32) -> u32
    ensures offered { result ≡ offered count most }
    ensures within { result ≤ count }
{
    if most < count {
        return most;
    }
    count
}

/// Lends pages of a client, one after the other.
fn lend_each<H: PageHash, A: Allocator>(
    domain: &mut FingerprintDomain<H, A>,
    client: u32,
    quota: u32,
    pages: &[Page],
) -> ArrayVec<Lent, MAX_IN_MESSAGE>
    requires { length pages.now ≤ MAX_IN_MESSAGE }
    ensures lends { LendsInTurn domain.old.salt client quota pages.now result.items domain.old.domain domain.new.domain }
    ensures len { array_vec_len result ≡ length pages.now }
    ensures salt { domain.new.salt ≡ domain.old.salt }
    ensures bytes { BytesStay domain.old.domain domain.new.domain }
{
    let mut loans = ArrayVec::new();
    for page in pages {
        loans.push(lend_one(domain, client, quota, page));
    }
    loans
}

/// Lends a page of a client, if it may have more slots.
fn lend_one<H: PageHash, A: Allocator>(
    domain: &mut FingerprintDomain<H, A>,
    client: u32,
    quota: u32,
    page: &Page,
) -> Lent
    ensures lends { LendsOne domain.old.salt client quota page.now result domain.old.domain domain.new.domain }
    ensures salt { domain.new.salt ≡ domain.old.salt }
    ensures bytes { BytesStay domain.old.domain domain.new.domain }
{
    if domain.held_by(client) < quota {
        return lend_within(domain, client, page);
    }
    not_lent()
}

/// Lends a page of a client.
fn lend_within<H: PageHash, A: Allocator>(
    domain: &mut FingerprintDomain<H, A>,
    client: u32,
    page: &Page,
) -> Lent
    ensures lends { Lends domain.old.salt client page.now result domain.old.domain domain.new.domain }
    ensures salt { domain.new.salt ≡ domain.old.salt }
    ensures bytes { BytesStay domain.old.domain domain.new.domain }
{
    let answer = domain.lend(client, page);
    lent_by(&answer)
}

/// Returns what a client learns of a page.
fn lent_by(answer: &Result<Loan, LendFault>) -> Lent
    ensures { result ≡ lent_by answer.now }
{
    match answer {
        Err(_) => not_lent(),
        Ok(loan) => Lent {
            slot: slot_number(loan.slot),
            frame: loan.frame,
            sharers: loan.sharers,
        },
    }
}

/// Returns these loans once more.
pub(crate) fn copy_of(loans: &[Lent]) -> ArrayVec<Lent, MAX_IN_MESSAGE>
    requires { length loans.now ≤ MAX_IN_MESSAGE }
    ensures items { result.items ≡ loans.now }
    ensures len { array_vec_len result ≡ length loans.now }
{
    let mut copy = ArrayVec::new();
    let _appended = copy.try_extend_from_slice(loans);
    copy
}

/// Returns the slots of the pages that were lent.
pub(crate) fn slots_in(loans: &[Lent]) -> ArrayVec<u64, MAX_IN_MESSAGE>
    requires { length loans.now ≤ MAX_IN_MESSAGE }
    ensures { result.items ≡ slots_in loans.now }
{
    let mut slots = ArrayVec::new();
    for lent in loans {
        push_lent(&mut slots, lent);
    }
    slots
}

/// Puts a page's slot behind others, if the page was lent.
#[tactic(auto, unfolding(crate::specs::Turns::slots_in))]
fn push_lent(slots: &mut ArrayVec<u64, MAX_IN_MESSAGE>, lent: &Lent)
    requires { array_vec_len slots.old + 1 ≤ MAX_IN_MESSAGE }
    ensures items { slots.new.items ≡ slots.old.items ++ slots_in (lent.now ∷ []) }
    ensures len { array_vec_len slots.new ≤ array_vec_len slots.old + 1 }
{
    if lent.frame != NO_FRAME {
        slots.push(lent.slot);
    }
}

/// Returns what a client learns of a page that isn't lent.
pub(crate) fn not_lent() -> Lent
    ensures { result ≡ not_lent }
{
    Lent {
        slot: 0,
        frame: NO_FRAME,
        sharers: 0,
    }
}
