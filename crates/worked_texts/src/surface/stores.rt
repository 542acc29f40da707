//! `machine_frames`, `page_digest` and `share_table`: frames, their hashes, and the table.
ghost use Rattle.std.specs.Prelude.{◌≡◌};

use crate::checks::{equal, holds};
use machine_frames::Frames;
use page_digest::{FirstByteHash, PageHash, Sha256Hash, TwoByteHash, hash_many};
use share_table::{Packed, Table};
use std::alloc::Global;
use std::process::Abort;
use std::sync::Wait;
use std::thread::Threads;

/// Takes two frames, hashes one of them by two workers, and gives it back. Returns its hashes: the list's, SHA-256's and the
/// weak ones'.
fn hashes_of_a_frame<R: Threads + Wait + Sync + Abort>(
    rt: &R,
    alloc: Global,
) -> (u64, u64, u64, u64) {
    let mut frames = Frames::new(alloc, 2).expect(rt, "memory");
    let mpn = frames.take_zeroed().expect(rt, "full");
    frames.write(mpn, 0, &[0x41]);
    let copy = frames.take_copy(mpn).expect(rt, "full");
    let hashes = hash_many(rt, alloc, 2, &Sha256Hash, &frames, &[(0, copy)]).expect(rt, "memory");
    let page = frames.bytes(copy);
    let alone = Sha256Hash.hash(0, page);
    let (first, two) = (FirstByteHash.hash(0, page), TwoByteHash.hash(0, page));
    let hash = hashes.first().copied().expect(rt, "no hash");
    frames.give_back(copy);
    (hash, alone, first, two)
}

// From sha256sum: of the page that begins with 0x41.
#[test]
fn frames_and_hashes(rt: HostRuntime) {
    let (hash, alone, first, two) = hashes_of_a_frame(&rt, rt.alloc());
    equal(&rt, hash, 0x9aab_2ec0_0da3_0c5d);
    equal(&rt, (alone, first), (hash, 0x41));
    holds(&rt, two != 0);
}

/// Adds a shared frame to a table with room for two entries.
fn add_shared(rt: &impl Abort, table: &mut Table)
    requires { table.old.capacity ≡ 2 }
    ensures { table.new.capacity ≡ 2 }
{
    holds(rt, table.find_shared(7).is_none());
    holds(rt, table.len() < 2);
    holds(rt, table.references() < 1_048_575);
    table.add_shared(7, 1);
}

/// Lets a page join the frame, and one leave it. Returns the counts.
fn join_and_leave(rt: &impl Abort, table: &mut Table) -> (u32, u32)
    ensures { table.new.capacity ≡ table.old.capacity }
{
    holds(rt, table.find_shared(7).is_some());
    holds(rt, table.references() < 1_048_576);
    let joined = table.join(7);
    holds(rt, table.find_shared(7).is_some());
    (joined, table.leave(7))
}

/// Puts a hint into a table with room for two entries, and drops it. Returns its page.
fn put_and_drop_hint(rt: &impl Abort, table: &mut Table) -> Option<u32>
    requires { table.old.capacity ≡ 2 }
{
    holds(rt, table.find_hint(9).is_none());
    holds(rt, table.len() < 2);
    table.put_hint(9, 0, 5, 1);
    let hint = table.find_hint(9)?;
    table.drop_hint(9);
    Some(hint.ppn)
}

#[test]
fn tables_and_packed_entries(rt: HostRuntime) {
    let mut table = Table::new(rt.alloc(), 2).expect(&rt, "memory");
    add_shared(&rt, &mut table);
    equal(&rt, join_and_leave(&rt, &mut table), (3, 2));
    equal(&rt, put_and_drop_hint(&rt, &mut table), Some(5));
    equal(
        &rt,
        (table.count(7), table.field(7), table.extended()),
        (2, Some(2), 0),
    );
    let shared = Packed::shared(7, 1, 2, 0).expect(&rt, "a shared frame");
    let hint = Packed::hint(9, 0, 5, 1, 0).expect(&rt, "a hint");
    holds(&rt, Packed::read(&shared.write()) == Some(shared));
    holds(&rt, Packed::read(&hint.write()) == Some(hint));
}
