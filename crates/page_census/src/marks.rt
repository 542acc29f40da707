//! The marks of all pages, found by several workers.
ghost use Rattle.std.specs.Prelude.{◌≡◌, ◌+◌, ◌^◌, ◌≤◌, ◌++◌, OnOk, IfOk, MatchOption};
ghost use Rattle.std.specs.Prelude.{length, map, vec_len, vec_capacity};
ghost use Rattle.page_census.specs.Contents.{AreSteady, contents};
ghost use Rattle.page_census.specs.Marks.{mark_at, marks_of};

use crate::Guest;
use crate::fault::LookFault;
use crate::mark::Marking;
use memory_pages::{PageSource, Progress, ReadFault, Workers, push_all};
use page_digest::PageHash;
use std::alloc::Allocator;
use std::thread::Threads;

/// Appends the marks of all pages of a guest.
pub(crate) fn push_guest<
    R: Threads + Sync,
    H: PageHash,
    S: PageSource,
    P: Progress,
    A: Allocator + Clone + Send + Sync,
>(
    workers: &Workers<'_, R, A>,
    hash: &H,
    number: usize,
    guest: &Guest<S>,
    progress: &P,
    marks: &mut Vec<u64, A>,
) -> Result<(), LookFault<S::Fault>>
    requires { 1 ≤ workers.now.count }
    ensures len { OnOk result (vec_len marks.new ≡ vec_len marks.old + length (S.pages guest.now.source)) }
    ensures right { OnOk result (S.is_steady guest.now.source
        → marks.new.items ≡ marks.old.items ++ marks_of H.hash_of guest.now.salt (S.pages guest.now.source)) }
    ensures capacity { vec_capacity marks.old ≤ vec_capacity marks.new }
{
    let marking = Marking {
        hash,
        salt: guest.salt,
    };
    match push_all(workers, &guest.source, &marking, progress, marks) {
        Ok(()) => Ok(()),
        Err(ReadFault::OutOfMemory) => Err(LookFault::OutOfMemory),
        Err(ReadFault::Read(fault)) => Err(LookFault::Read(number, fault)),
    }
}

/// Returns the number of pages of all guests, or `None` if it is more than 4,294,967,295.
pub(crate) fn count_pages<S: PageSource>(guests: &[Guest<S>]) -> Option<u32>
    ensures { MatchOption result (2 ^ 32 ≤ length (contents S.pages guests.now)) (λ count. count ≡ length (contents S.pages guests.now)) }
{
    let mut total = 0u32;
    for guest in 0..guests.len() {
        match total.checked_add(guests[guest].source.count()) {
            Some(more) => total = more,
            None => return None,
        }
    }
    Some(total)
}

/// Returns the marks of all pages, guest 0 first.
pub(crate) fn marks_of_all<
    R: Threads + Sync,
    H: PageHash,
    S: PageSource,
    P: Progress,
    A: Allocator + Clone + Send + Sync,
>(
    workers: &Workers<'_, R, A>,
    hash: &H,
    guests: &[Guest<S>],
    progress: &P,
    count: u32,
) -> Result<Vec<u64, A>, LookFault<S::Fault>>
    requires workers { 1 ≤ workers.now.count }
    requires count { count ≡ length (contents S.pages guests.now) }
    ensures len { IfOk result (λ marks. vec_len marks ≡ count) }
    ensures right { IfOk result (λ marks. AreSteady S.is_steady guests.now
        → marks.items ≡ map (mark_at H.hash_of) (contents S.pages guests.now)) }
{
    let mut marks = Vec::with_capacity(workers.alloc.clone()?, count as usize)?;
    for number in 0..guests.len() {
        push_guest(workers, hash, number, &guests[number], progress, &mut marks)?;
    }
    Ok(marks)
}
