//! What several workers make of all pages of a source.
ghost use Rattle.std.specs.Prelude.{◌≡◌, ◌*◌, ◌<◌, ◌≤◌, ◌++◌, [], IfOk, OnOk, length, vec_capacity};
ghost use Rattle.memory_pages.specs.Made.{AreMade, part_of};

use crate::part::read_items;
use crate::{PageSource, PageWork, Progress, ReadFault, Workers, split_among};
use std::alloc::{AllocError, Allocator};
use std::thread;
use std::thread::Threads;

/// Appends the items that all pages give. Each page is read once, by one of the workers; each of these reads a part.
///
/// A source that isn't steady returns other bytes at another read: then the items are those of what was read.
pub fn push_all<
    R: Threads + Sync,
    S: PageSource,
    W: PageWork,
    P: Progress,
    A: Allocator + Clone + Send + Sync,
>(
    workers: &Workers<'_, R, A>,
    source: &S,
    work: &W,
    progress: &P,
    items: &mut Vec<W::Item, A>,
) -> Result<(), ReadFault<S::Fault>>
    requires { 1 ≤ workers.now.count }
    ensures made { OnOk result (AreMade (S.is_steady source.now) (S.pages source.now) (W.gives work.now) items.old.items items.new.items) }
    ensures capacity { vec_capacity items.old ≤ vec_capacity items.new }
{
    let count = source.count();
    let split = split_among(workers.count, count);
    let size = split.size;
    let alloc = workers.alloc;
    let part = move |n: usize| -> Result<Vec<W::Item, A>, ReadFault<S::Fault>>
        requires { size * n < length (S.pages source.now) }
        ensures { IfOk result (λ items. AreMade (S.is_steady source.entry.now) (part_of (S.pages source.entry.now) size n) (W.gives work.entry.now) [] items.items) }
    { read_part(alloc, source, work, progress, size, n) };
    let lists = thread::map_indices(workers.rt, alloc.clone()?, split.parts, &part)?;
    for list in lists {
        append(items, &list?)?;
    }
    Ok(())
}

/// Returns the items that the part with this number gives, where each part but the last has `size` pages.
fn read_part<S: PageSource, W: PageWork, P: Progress, A: Allocator + Clone>(
    alloc: &A,
    source: &S,
    work: &W,
    progress: &P,
    size: u32,
    part: usize,
) -> Result<Vec<W::Item, A>, ReadFault<S::Fault>>
    requires { size * part < length (S.pages source.now) }
    ensures { IfOk result (λ items.
        AreMade (S.is_steady source.now) (part_of (S.pages source.now) size part) (W.gives work.now) [] items.items) }
{
    let count = source.count();
    let from = (size as usize * part) as u32;
    let run = size.min(count - from);
    read_items(alloc, source, work, progress, from, run)
}

fn append<T: Copy, A: Allocator>(items: &mut Vec<T, A>, more: &[T]) -> Result<(), AllocError>
    ensures items { OnOk result (items.new.items ≡ items.old.items ++ more.now) }
    ensures capacity { vec_capacity items.old ≤ vec_capacity items.new }
{
    items.extend_from_slice(more)
}
