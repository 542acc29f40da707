//! What one worker makes of pages that follow one another.
ghost use Rattle.std.specs.Prelude.{◌≡◌, ◌+◌, ◌^◌, ◌<◌, ◌≤◌, [], IfOk, OnOk, length, take, drop};
ghost use Rattle.memory_pages.specs.Made.{AreMade};

use crate::{PageSource, PageWork, Progress, RUN, ReadFault, new_pages};
use page_model::Page;
use std::alloc::Allocator;

/// Reads pages into the list until it is full, from page `first` on.
fn read_run<S: PageSource>(
    source: &S,
    first: u32,
    into: &mut [Page],
) -> Result<(), ReadFault<S::Fault>>
    requires { first + length into.old ≤ length (S.pages source.now) }
    ensures { OnOk result (S.is_steady source.now → into.new ≡ take (length into.old) (drop first (S.pages source.now))) }
{
    match source.read(first, into) {
        Ok(()) => Ok(()),
        Err(fault) => Err(ReadFault::Read(fault)),
    }
}

/// Reads `count` pages, from page `from` on, and returns the items that they give.
pub(crate) fn read_items<S: PageSource, W: PageWork, P: Progress, A: Allocator + Clone>(
    alloc: &A,
    source: &S,
    work: &W,
    progress: &P,
    from: u32,
    count: u32,
) -> Result<Vec<W::Item, A>, ReadFault<S::Fault>>
    requires within { from + count ≤ length (S.pages source.now) }
    requires fits { from + count < 2 ^ 32 }
    ensures { IfOk result (λ items.
        AreMade (S.is_steady source.now) (take count (drop from (S.pages source.now))) (W.gives work.now) [] items.items) }
{
    let mut pages = new_pages(alloc.clone()?, RUN as usize)?;
    let mut items = Vec::with_capacity(alloc.clone()?, work.room(count))?;
    let mut done = 0;
    while done < count {
        let run = (count - done).min(RUN);
        let into = &mut pages[..run as usize];
        read_run(source, from + done, into)?;
        work.push(into, &mut items)?;
        progress.advance(run as usize);
        done += run;
    }
    Ok(items)
}
