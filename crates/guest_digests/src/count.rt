//! How often each digest occurs.
ghost use Rattle.std.specs.Prelude.{◌≡◌, ◌<◌, ◌≤◌, IfOk, length, replicate, slice_index, take};
ghost use Rattle.std.specs.List.Sorted.{IsNonDecreasing};
ghost use Rattle.guest_digests.specs.Counted.{AreCounted};

use crate::DigestLine;
use std::alloc::{AllocError, Allocator};

/// Returns how many of the digests at the front are the same.
fn count_front(digests: &[u128]) -> usize
    requires { 0 < length digests.now }
    ensures some { 1 ≤ result }
    ensures within { result ≤ length digests.now }
    ensures same { take result digests.now ≡ replicate result (slice_index digests.now 0) }
    ensures other { result < length digests.now → ¬ (slice_index digests.now result ≡ slice_index digests.now 0) }
{
    for count in 1..digests.len() {
        if digests[count] != digests[0] {
            return count;
        }
    }
    digests.len()
}

/// Counts how often each digest occurs. The digests don't fall.
pub(crate) fn count_digests<A: Allocator>(
    alloc: A,
    digests: &[u128],
) -> Result<Vec<DigestLine, A>, AllocError>
    requires { IsNonDecreasing digests.now }
    ensures { IfOk result (λ lines. AreCounted digests.now lines.items) }
{
    let mut lines = Vec::new(alloc);
    let mut done = 0;
    while done < digests.len() {
        let copies = count_front(&digests[done..]);
        lines.push(DigestLine {
            digest: digests[done],
            copies: copies as u64,
        })?;
        done += copies;
    }
    Ok(lines)
}
