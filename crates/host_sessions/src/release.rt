//! Slots that are released one after the other.
ghost use Rattle.std.specs.Prelude.{◌≡◌, ◌≤◌, length};
ghost use Rattle.host_sessions.specs.Turns.{freed_by, after_releases, number_freed};
ghost use Rattle.share_domain.specs.Numbers.{slot_by};
ghost use Rattle.share_domain.specs.Domains.{release_answer, after_release};
ghost use Rattle.host_messages.specs.declared.limits.TheConstants.{MAX_IN_MESSAGE};

use arrayvec::ArrayVec;
use fingerprint_domain::FingerprintDomain;
use host_messages::MAX_IN_MESSAGE;
use page_digest::PageHash;
use share_domain::{NO_FRAME, NoSuchSlot, frame_number, slot_by};
use std::alloc::Allocator;

/// Releases slots of a client, one after the other. For each of them, the frame that is free since, or [`NO_FRAME`].
pub(crate) fn release_each<H: PageHash, A: Allocator>(
    domain: &mut FingerprintDomain<H, A>,
    client: u32,
    numbers: &[u64],
) -> ArrayVec<u32, MAX_IN_MESSAGE>
    requires { length numbers.now ≤ MAX_IN_MESSAGE }
    ensures freed { result.items ≡ freed_by client numbers.now domain.old.domain }
    ensures domain { domain.new.domain ≡ after_releases client numbers.now domain.old.domain }
    ensures salt { domain.new.salt ≡ domain.old.salt }
{
    let mut freed = ArrayVec::new();
    for number in numbers {
        freed.push(release_one(domain, client, number));
    }
    freed
}

/// Releases a slot of a client.
fn release_one<H: PageHash, A: Allocator>(
    domain: &mut FingerprintDomain<H, A>,
    client: u32,
    number: &u64,
) -> u32
    ensures freed { result ≡ number_freed (release_answer client (slot_by number.now) domain.old.domain) }
    ensures domain { domain.new.domain ≡ after_release client (slot_by number.now) domain.old.domain }
    ensures salt { domain.new.salt ≡ domain.old.salt }
{
    let answer = domain.release(client, slot_by(*number));
    number_freed(&answer)
}

/// Returns the number of the frame that a release freed. A slot that isn't the client's frees none.
fn number_freed(answer: &Result<Option<u32>, NoSuchSlot>) -> u32
    ensures { result ≡ number_freed answer.now }
{
    match answer {
        Err(_) => NO_FRAME,
        Ok(frame) => frame_number(*frame),
    }
}
