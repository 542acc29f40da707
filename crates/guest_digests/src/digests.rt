//! The digests of a guest.
ghost use Rattle.std.specs.Prelude.{◌≡◌, ◌≤◌, IfOk, length};
ghost use Rattle.guest_digests.specs.Counted.{AreDigests};

use crate::count::count_digests;
use crate::{DigestLine, Sampling};
use memory_pages::{PageSource, Progress, ReadFault, Workers, push_all};
use std::alloc::Allocator;
use std::thread::Threads;

/// The digests of a guest's pages, counted.
#[derive(Drop)]
pub struct GuestDigests<A: Allocator> {
    /// The guest's salt, and which digests are kept.
    pub sampling: Sampling,
    /// How many pages the guest has.
    pub pages: u64,
    /// The digests that are kept, rising, each with how many pages have it.
    pub lines: Vec<DigestLine, A>,
}

/// Digests the pages of a guest. Each page is read once, by one of `workers` workers.
///
/// A source that isn't steady returns other bytes at another read: then the digests are those of what was read.
pub fn digest_pages<
    R: Threads + Sync,
    S: PageSource,
    P: Progress,
    A: Allocator + Clone + Send + Sync,
>(
    rt: &R,
    alloc: A,
    workers: u32,
    sampling: Sampling,
    source: &S,
    progress: &P,
) -> Result<GuestDigests<A>, ReadFault<S::Fault>>
    requires { 1 ≤ workers }
    ensures sampling { IfOk result (λ digests. digests.sampling ≡ sampling) }
    ensures pages { IfOk result (λ digests. digests.pages ≡ length (S.pages source.now)) }
    ensures lines { IfOk result (λ digests. AreDigests (S.is_steady source.now) (S.pages source.now) sampling digests.lines.items) }
{
    let workers = Workers {
        rt,
        alloc: &alloc,
        count: workers,
    };
    let mut digests = Vec::new(alloc.clone()?);
    push_all(&workers, source, &sampling, progress, &mut digests)?;
    digests.sort_unstable();
    let lines = count_digests(alloc.clone()?, &digests)?;
    Ok(GuestDigests {
        sampling,
        pages: u64::from(source.count()),
        lines,
    })
}
