//! Page sharing for C: each function that a program in C, C++ or Rust calls.
//!
//! C provides a [`Machine`], a handle that contains no machine while its bytes are 0, and passes its address to each call. No
//! call has a condition on its arguments except that its references are valid: a wrong argument is answered by a status above 0,
//! and then nothing has changed. A status above 0 is the first cause that holds, in the order of the numbers; only
//! [`pageshare_make`] first checks whether the handle holds a machine already.
//!
//! `lib/include/pageshare.h` declares the same functions in C, and says what the caller owes.
#![tactic(auto)]

ghost use Rattle.std.specs.Prelude.{◌≡◌, ◌≢◌, length, None, Some, Ok};
ghost use Rattle.std.specs.Option.{option_map};
ghost use Rattle.page_model.specs.Limits.{shapes};
ghost use Rattle.page_model.specs.Replay.{empty_state};
ghost use Rattle.c_surface.specs.Statuses.{held_status};
ghost use Rattle.c_surface.specs.declared.status.TheConstants as status;
ghost use Rattle.pageshare_c.specs.Access.{store_of, load_of};
ghost use Rattle.page_digest.specs.Hashes.{fold_hash};
ghost use Rattle.pageshare_c.specs.Asked.{asked, seen_after};
ghost use Rattle.pageshare_c.specs.Codes.{status_in};
ghost use Rattle.pageshare_c.specs.Found.{text_of, frame_found, HoldsText};
ghost use Rattle.pageshare_c.specs.Framed.{frame_freed, frame_left, LeftFree};
ghost use Rattle.pageshare_c.specs.Hashed.{hash_number};
ghost use Rattle.pageshare_c.specs.Hosts.{made_status, AddsFrames, BeginsDomain, MakesDomain};
ghost use Rattle.pageshare_c.specs.InTurn.{LendsGroup};
ghost use Rattle.pageshare_c.specs.Kept.{FramesKept, StoreKept, LendKept, restarted_core};
ghost use Rattle.pageshare_c.specs.Leases.{after_enter, after_release_at, client_after, enter_status, freed_after, release_status, totals_after, LeavesAt, LendsAt};
ghost use Rattle.pageshare_c.specs.Made.{Makes};
ghost use Rattle.share_domain.specs.Numbers.{slot_by};
ghost use Rattle.pageshare_c.specs.declared.make.TheConstants.{SHA256};
ghost use Rattle.pageshare_c.specs.Outcomes.{outcome, state_after, store_outcome, state_stored, lend_outcome, state_lent, seen};
ghost use Rattle.pageshare_c.specs.Gets.{answer_to, store_answer, lend_answer, counted, loaded, taken, counts, value_or};

mod ahead;
mod answer;
mod ask;
mod begin;
mod begun;
mod domain_handle;
mod domain_slot;
mod domain_totals;
mod find;
mod framed;
mod group;
mod hashed_core;
mod hashed_domain;
mod hosted;
mod laws;
mod lease;
mod limits;
mod loan;
mod machine;
mod make;
mod serve;
mod shape;
mod slot;
mod whole;

pub use ahead::PageName;
pub use answer::{Answer, Refusal, Totals};
use answer::{refuse, status_of};
use ask::ask;
use begin::{add_frames, begin, make_domain};
pub use begun::Begun;
pub use c_surface::DomainTotals;
use c_surface::{Handle, free, status};
pub use domain_handle::DomainHandle;
pub use domain_slot::DomainSlot;
use domain_totals::report as report_domain;
pub use group::Lending;
pub use hashed_core::HashedCore;
pub use hashed_domain::HashedDomain;
pub use hosted::{Hosted, MadeDomain};
pub use laws::numbers_law;
use lease::{enter, leave, release};
pub use loan::DomainLoan;
use loan::{lend as lend_page, not_lent};
pub use machine::Machine;
pub use machine_frames::Region;
use make::{SHA256, make};
use page_digest::{FoldHash, PageHash};
use page_model::Request;
use recent_fingerprints::PageName as AskedPage;
use serve::{load_request, serve, serve_count, serve_load, store_request};
pub use shape::DomainShape;
use share_domain::slot_by;
pub use share_domain::{NO_FRAME, SLOTS_APART};
pub use slot::Slot;
use std::alloc::Global;

/// Makes a machine with `frames` frames. Guest i has `pages[i]` pages and the salt `salts[i]`.
///
/// The status is `OK` if it is made, and `IN_USE` if the handle holds a machine already. Else it is `FRAMES` (0 frames, or more
/// than `MAX_FRAMES`), `GUESTS` (no guest, more than `MAX_GUESTS`, or not as many salts as guests), `PAGES` (a guest with no
/// page, or more than `MAX_PAGES` in total) or `MEMORY` (memory was refused). This takes all memory that the machine needs; no
/// other call asks for any.
#[unsafe(no_mangle)]
pub extern "C" fn pageshare_make(
    alloc: Global,
    machine: &mut Machine,
    frames: u32,
    pages: &[u32],
    salts: &[u32],
) -> u32
    ensures { Makes frames pages.now salts.now SHA256 None machine.old.slot.core machine.new.slot.core result }
{
    make(alloc, machine, frames, pages, salts, SHA256, None)
}

/// Does the same with a hash of the caller's choice: 0 is SHA-256, as `pageshare_make` has it, and 1 is the fast one. The
/// status is `HASH` if the handle holds no machine and there is no such hash.
#[unsafe(no_mangle)]
pub extern "C" fn pageshare_make_hashed(
    alloc: Global,
    machine: &mut Machine,
    frames: u32,
    pages: &[u32],
    salts: &[u32],
    hash: u32,
) -> u32
    ensures { Makes frames pages.now salts.now hash None machine.old.slot.core machine.new.slot.core result }
{
    make(alloc, machine, frames, pages, salts, hash, None)
}

/// Does the same with frames in the caller's region, which has room for exactly as many pages: frame n is the n-th page of it.
/// The status is `REGION`, checked after `PAGES`, if it has room for another number.
///
/// The region is the library's for good, unless the status is above 0. A machine that was freed doesn't use it again.
#[unsafe(no_mangle)]
pub extern "C" fn pageshare_make_in(
    alloc: Global,
    machine: &mut Machine,
    frames: u32,
    pages: &[u32],
    salts: &[u32],
    hash: u32,
    region: Region,
) -> u32
    ensures { Makes frames pages.now salts.now hash (Some region.pages) machine.old.slot.core machine.new.slot.core result }
{
    make(alloc, machine, frames, pages, salts, hash, Some(region))
}

/// Frees the machine. The status is `NO_MACHINE` if the handle holds none.
#[unsafe(no_mangle)]
pub extern "C" fn pageshare_free(alloc: Global, machine: &mut Machine) -> u32
    ensures none { machine.new.slot.core ≡ None }
    ensures status { result ≡ held_status machine.old.slot.core }
{
    free(machine, alloc)
}

/// Proposes a page for sharing.
#[unsafe(no_mangle)]
pub extern "C" fn pageshare_propose(
    alloc: Global,
    machine: &mut Machine,
    guest: u32,
    ppn: u32,
) -> Answer
    ensures answer { result ≡ answer_to machine.old.slot.core machine.new.slot.core guest (Ok (Request.Propose ppn)) }
    ensures state { seen machine.new.slot.core ≡ state_after machine.old.slot.core guest (Ok (Request.Propose ppn)) }
    ensures frames { FramesKept guest (Ok (Request.Propose ppn))
        (outcome machine.old.slot.core guest (Ok (Request.Propose ppn))) machine.old.slot.core machine.new.slot.core }
{
    serve(alloc, machine, guest, &Ok(Request::Propose(ppn)))
}

/// Stores 1 to `MAX_ACCESS_BYTES` bytes in a page, from place `at` on.
#[unsafe(no_mangle)]
pub extern "C" fn pageshare_store(
    alloc: Global,
    machine: &mut Machine,
    guest: u32,
    ppn: u32,
    at: u32,
    bytes: &[u8],
) -> Answer
    ensures answer { result ≡ answer_to machine.old.slot.core machine.new.slot.core guest (store_of ppn at bytes.now) }
    ensures state { seen machine.new.slot.core ≡ state_after machine.old.slot.core guest (store_of ppn at bytes.now) }
    ensures frames { FramesKept guest (store_of ppn at bytes.now)
        (outcome machine.old.slot.core guest (store_of ppn at bytes.now)) machine.old.slot.core machine.new.slot.core }
{
    serve(alloc, machine, guest, &store_request(ppn, at, bytes))
}

/// Loads 1 to `MAX_ACCESS_BYTES` bytes of a page into all of `room`, from place `at` on. `room` stays as it is unless the verdict
/// is `Bytes`.
#[unsafe(no_mangle)]
pub extern "C" fn pageshare_load(
    alloc: Global,
    machine: &mut Machine,
    guest: u32,
    ppn: u32,
    at: u32,
    room: &mut [u8],
) -> Answer
    ensures answer { result ≡ answer_to machine.old.slot.core machine.new.slot.core guest (load_of ppn at (length room.old)) }
    ensures state { seen machine.new.slot.core ≡ state_after machine.old.slot.core guest (load_of ppn at (length room.old)) }
    ensures frames { FramesKept guest (load_of ppn at (length room.old))
        (outcome machine.old.slot.core guest (load_of ppn at (length room.old))) machine.old.slot.core machine.new.slot.core }
    ensures bytes { room.new ≡ loaded room.old (outcome machine.old.slot.core guest (load_of ppn at (length room.old))) }
{
    let asked = load_request(ppn, at, room.len());
    serve_load(alloc, machine, guest, &asked, room)
}

/// Releases a page: it has no frame then, and reads as zeros.
#[unsafe(no_mangle)]
pub extern "C" fn pageshare_release(
    alloc: Global,
    machine: &mut Machine,
    guest: u32,
    ppn: u32,
) -> Answer
    ensures answer { result ≡ answer_to machine.old.slot.core machine.new.slot.core guest (Ok (Request.Release ppn)) }
    ensures state { seen machine.new.slot.core ≡ state_after machine.old.slot.core guest (Ok (Request.Release ppn)) }
    ensures frames { FramesKept guest (Ok (Request.Release ppn))
        (outcome machine.old.slot.core guest (Ok (Request.Release ppn))) machine.old.slot.core machine.new.slot.core }
{
    serve(alloc, machine, guest, &Ok(Request::Release(ppn)))
}

/// Stores a whole page, which counts as the 64 stores of 64 bytes each that write it. The verdict is the first one's: if that is
/// `NoPage` or `NoFrame`, so are the others, and otherwise they are `Stored`.
///
/// The status is `FULL` if fewer than 64 requests are left to count.
#[unsafe(no_mangle)]
pub extern "C" fn pageshare_store_page(
    alloc: Global,
    machine: &mut Machine,
    guest: u32,
    ppn: u32,
    page: &[u8; 4096],
) -> Answer
    ensures answer { result ≡ store_answer machine.old.slot.core machine.new.slot.core guest ppn page.now }
    ensures state { seen machine.new.slot.core ≡ state_stored machine.old.slot.core guest ppn page.now }
    ensures frames { StoreKept guest ppn (store_outcome machine.old.slot.core guest ppn page.now)
        machine.old.slot.core machine.new.slot.core }
{
    match machine.take(alloc) {
        None => refuse(Refusal::NoMachine),
        Some(mut core) => {
            let answer = core.store_page(guest, ppn, page);
            machine.put(core);
            answer
        }
    }
}

/// Lends a page: stores it whole, and proposes it unless its stores were refused. The verdict is the proposal's, or `NoPage` or
/// `NoFrame`. A frame is freed if the page had one for itself and now shares another's.
///
/// The status is `FULL` if fewer than 65 requests are left to count.
#[unsafe(no_mangle)]
pub extern "C" fn pageshare_lend(
    alloc: Global,
    machine: &mut Machine,
    guest: u32,
    ppn: u32,
    page: &[u8; 4096],
) -> Answer
    ensures answer { result ≡ lend_answer machine.old.slot.core machine.new.slot.core guest ppn page.now }
    ensures state { seen machine.new.slot.core ≡ state_lent machine.old.slot.core guest ppn page.now }
    ensures frames { LendKept guest ppn page.now
        (lend_outcome machine.old.slot.core guest ppn page.now) machine.old.slot.core machine.new.slot.core }
    ensures free { LeftFree (frame_left machine.old.slot.core guest ppn page.now) machine.new.slot.core }
{
    match machine.take(alloc) {
        None => refuse(Refusal::NoMachine),
        Some(mut core) => {
            let answer = core.lend(guest, ppn, page, None);
            machine.put(core);
            answer
        }
    }
}

/// Lends four pages, one after the other in this order, as by four calls of [`pageshare_lend`]: each answer is that of the page at
/// its place. With SHA-256 their hashes are computed together, from the bytes where they are. One page may be named twice.
///
/// The status is `NO_MACHINE` if the handle holds no machine, and then the answers stay as they are. Else it is `OK`, and each
/// answer has its own.
#[unsafe(no_mangle)]
pub extern "C" fn pageshare_lend_four(
    alloc: Global,
    machine: &mut Machine,
    pages: &[Lending<'_>; 4],
    answers: &mut [Answer; 4],
) -> u32
    ensures lends { LendsGroup pages.now answers.old answers.new machine.old.slot.core machine.new.slot.core }
    ensures status { result ≡ held_status machine.old.slot.core }
{
    match machine.take(alloc) {
        None => status::NO_MACHINE,
        Some(mut core) => {
            core.lend_four(pages, answers);
            machine.put(core);
            status::OK
        }
    }
}

/// Lends eight pages as [`pageshare_lend_four`] lends four. With the wide SHA-256 eight hashes are computed together, and with
/// SHA-256 four and four.
#[unsafe(no_mangle)]
pub extern "C" fn pageshare_lend_eight(
    alloc: Global,
    machine: &mut Machine,
    pages: &[Lending<'_>; 8],
    answers: &mut [Answer; 8],
) -> u32
    ensures lends { LendsGroup pages.now answers.old answers.new machine.old.slot.core machine.new.slot.core }
    ensures status { result ≡ held_status machine.old.slot.core }
{
    match machine.take(alloc) {
        None => status::NO_MACHINE,
        Some(mut core) => {
            core.lend_eight(pages, answers);
            machine.put(core);
            status::OK
        }
    }
}

/// Takes a page back: copies it to `room` and releases it, which counts as the release alone. `room` stays as it is unless the
/// verdict is `Released`.
#[unsafe(no_mangle)]
pub extern "C" fn pageshare_take_back(
    alloc: Global,
    machine: &mut Machine,
    guest: u32,
    ppn: u32,
    room: &mut [u8; 4096],
) -> Answer
    ensures answer { result ≡ answer_to machine.old.slot.core machine.new.slot.core guest (Ok (Request.Release ppn)) }
    ensures state { seen machine.new.slot.core ≡ state_after machine.old.slot.core guest (Ok (Request.Release ppn)) }
    ensures frames { FramesKept guest (Ok (Request.Release ppn))
        (outcome machine.old.slot.core guest (Ok (Request.Release ppn))) machine.old.slot.core machine.new.slot.core }
    ensures bytes { room.new ≡ taken room.old (outcome machine.old.slot.core guest (Ok (Request.Release ppn)))
        (text_of (seen machine.old.slot.core) guest ppn) }
    ensures free { LeftFree (frame_freed machine.old.slot.core guest (Ok (Request.Release ppn))) machine.new.slot.core }
{
    match machine.take(alloc) {
        None => refuse(Refusal::NoMachine),
        Some(mut core) => {
            let answer = core.take_back(guest, ppn, room);
            machine.put(core);
            answer
        }
    }
}

/// Gets the machine's totals, this request of the guest among the entries. `totals` stays as it is unless the verdict is
/// `Totals`.
#[unsafe(no_mangle)]
pub extern "C" fn pageshare_count(
    alloc: Global,
    machine: &mut Machine,
    guest: u32,
    totals: &mut Totals,
) -> Answer
    ensures answer { result ≡ answer_to machine.old.slot.core machine.new.slot.core guest (Ok Request.Count) }
    ensures state { seen machine.new.slot.core ≡ state_after machine.old.slot.core guest (Ok Request.Count) }
    ensures frames { FramesKept guest (Ok Request.Count)
        (outcome machine.old.slot.core guest (Ok Request.Count)) machine.old.slot.core machine.new.slot.core }
    ensures totals { totals.new ≡ counted totals.old (outcome machine.old.slot.core guest (Ok Request.Count)) }
{
    serve_count(alloc, machine, guest, &Ok(Request::Count), totals)
}

/// Begins the count of requests anew, so that a machine that has counted 4,294,967,295 of them serves again. All else
/// stays. The status is `NO_MACHINE` if the handle holds no machine.
#[unsafe(no_mangle)]
pub extern "C" fn pageshare_restart_count(alloc: Global, machine: &mut Machine) -> u32
    ensures count { machine.new.slot.core ≡ option_map restarted_core machine.old.slot.core }
    ensures status { result ≡ held_status machine.old.slot.core }
{
    match machine.take(alloc) {
        None => status::NO_MACHINE,
        Some(mut core) => {
            core.restart_count();
            machine.put(core);
            status::OK
        }
    }
}

/// Computes the hashes of these pages ahead of their proposals, four at a time. It skips pages that don't exist, aren't
/// private, or whose hash is known. It is no request and changes no answer. The status is `NO_MACHINE` if the handle
/// holds no machine.
#[unsafe(no_mangle)]
pub extern "C" fn pageshare_hash(alloc: Global, machine: &mut Machine, pages: &[PageName]) -> u32
    ensures same { machine.new.slot.core ≡ machine.old.slot.core }
    ensures status { result ≡ held_status machine.old.slot.core }
{
    match machine.take(alloc) {
        None => status::NO_MACHINE,
        Some(mut core) => {
            core.note_hashes(pages);
            machine.put(core);
            status::OK
        }
    }
}

/// Gets the machine's totals, and is no request. The status is `NO_MACHINE` if the handle holds no machine.
#[unsafe(no_mangle)]
pub extern "C" fn pageshare_report(alloc: Global, machine: &mut Machine, totals: &mut Totals) -> u32
    ensures same { machine.new.slot.core ≡ machine.old.slot.core }
    ensures status { result ≡ status_in (counts (seen machine.old.slot.core)) }
    ensures totals { totals.new ≡ value_or totals.old (counts (seen machine.old.slot.core)) }
{
    match machine.take(alloc) {
        None => status::NO_MACHINE,
        Some(core) => {
            *totals = core.totals();
            machine.put(core);
            status::OK
        }
    }
}

/// Copies a page to `room`; an unmapped page reads as zeros. The status is `NO_MACHINE` if the handle holds no machine, and
/// `NO_PAGE` if there is no such page.
#[unsafe(no_mangle)]
pub extern "C" fn pageshare_read(
    alloc: Global,
    machine: &mut Machine,
    guest: u32,
    ppn: u32,
    room: &mut [u8; 4096],
) -> u32
    ensures same { machine.new.slot.core ≡ machine.old.slot.core }
    ensures status { result ≡ status_in (text_of (seen machine.old.slot.core) guest ppn) }
    ensures bytes { room.new ≡ value_or room.old (text_of (seen machine.old.slot.core) guest ppn) }
{
    match machine.take(alloc) {
        None => status::NO_MACHINE,
        Some(core) => {
            let copied = core.copy_page(guest, ppn, room);
            machine.put(core);
            if copied { status::OK } else { status::NO_PAGE }
        }
    }
}

/// Gets the number of a page's frame. The status is `NO_MACHINE` if the handle holds no machine, `NO_PAGE` if there is
/// no such page, and `UNMAPPED` if it is unmapped.
#[unsafe(no_mangle)]
pub extern "C" fn pageshare_frame(
    alloc: Global,
    machine: &mut Machine,
    guest: u32,
    ppn: u32,
    mpn: &mut u32,
) -> u32
    ensures same { machine.new.slot.core ≡ machine.old.slot.core }
    ensures status { result ≡ status_in (frame_found machine.old.slot.core guest ppn) }
    ensures frame { mpn.new ≡ value_or mpn.old (frame_found machine.old.slot.core guest ppn) }
    ensures bytes { result ≡ status.OK → HoldsText machine.old.slot.core guest ppn mpn.new }
{
    match machine.take(alloc) {
        None => status::NO_MACHINE,
        Some(core) => {
            let found = core.find_frame(guest, ppn);
            machine.put(core);
            match found {
                Err(refusal) => status_of(refusal),
                Ok(frame) => {
                    *mpn = frame;
                    status::OK
                }
            }
        }
    }
}

/// Gets the address of a page's 4,096 bytes, which may be read, never written, and only until the next call with this
/// handle. The status is `NO_MACHINE` if the handle holds no machine, `NO_PAGE` if there is no such page, and
/// `UNMAPPED` if it is unmapped.
///
/// If the status is above 0, `at` stays as it is. No contract says what is at the address; [`pageshare_read`] copies
/// the bytes.
#[unsafe(no_mangle)]
pub extern "C" fn pageshare_page(
    alloc: Global,
    machine: &mut Machine,
    guest: u32,
    ppn: u32,
    at: &mut *const u8,
) -> u32
    ensures same { machine.new.slot.core ≡ machine.old.slot.core }
    ensures status { result ≡ status_in (frame_found machine.old.slot.core guest ppn) }
    ensures room { result ≢ status.OK → at.new ≡ at.old }
{
    match machine.take(alloc) {
        None => status::NO_MACHINE,
        Some(core) => {
            let found = core.put_address(guest, ppn, at);
            machine.put(core);
            match found {
                Err(refusal) => status_of(refusal),
                Ok(_) => status::OK,
            }
        }
    }
}

/// Makes a domain with frames of its own.
///
/// The status is `OK` if it is made, `IN_USE` if the handle holds a domain already, and else `HASH`, `MACHINES`, `SLOTS`, `FRAMES`,
/// `CLIENTS`, `RECENT` or `MEMORY`.
#[unsafe(no_mangle)]
pub extern "C" fn pageshare_domain_make_shaped(
    alloc: Global,
    domain: &mut DomainHandle,
    shape: &DomainShape,
    hash: u32,
) -> u32
    ensures { MakesDomain shape.now hash domain.old.slot.domain domain.new.slot.domain result }
{
    make_domain(alloc, domain, shape, hash)
}

/// Begins a domain, whose machines' frames come in regions: `pages` is how many pages these have room for.
///
/// The status is as for [`pageshare_domain_make_shaped`], with `REGION` before `MEMORY` if that isn't as many pages as all machines
/// have frames.
#[unsafe(no_mangle)]
pub extern "C" fn pageshare_domain_begin(
    alloc: Global,
    domain: &mut DomainHandle,
    shape: &DomainShape,
    hash: u32,
    pages: usize,
) -> u32
    ensures { BeginsDomain shape.now hash pages domain.old.slot.domain domain.new.slot.domain result }
{
    begin(alloc, domain, shape, hash, pages)
}

/// Gives a domain that was begun the frames of its next machine. With those of the last one the domain is made.
///
/// The status is `OK`, `NO_MACHINE` if no domain was begun or it is made, or `REGION` if the region is for another number of
/// frames. It is `MEMORY` if memory was refused: then the handle holds nothing.
#[unsafe(no_mangle)]
pub extern "C" fn pageshare_domain_add(
    alloc: Global,
    domain: &mut DomainHandle,
    region: Region,
) -> u32
    ensures { AddsFrames region.pages domain.old.slot.domain domain.new.slot.domain result }
{
    add_frames(alloc, domain, region)
}

/// Frees the domain. The status is `NO_MACHINE` if the handle holds none.
#[unsafe(no_mangle)]
pub extern "C" fn pageshare_domain_free(alloc: Global, domain: &mut DomainHandle) -> u32
    ensures none { domain.new.slot.domain ≡ None }
    ensures status { result ≡ held_status domain.old.slot.domain }
{
    free(domain, alloc)
}

/// Lets a client in: `client` is then its number, the least that no client has.
///
/// The status is `NO_MACHINE` without a domain, and `NO_ROOM` if as many clients are in as there may be; then `client`
/// stays as it is.
#[unsafe(no_mangle)]
pub extern "C" fn pageshare_domain_enter(
    alloc: Global,
    domain: &mut DomainHandle,
    client: &mut u32,
) -> u32
    ensures status { result ≡ enter_status domain.old.slot.domain }
    ensures client { client.new ≡ client_after client.old domain.old.slot.domain }
    ensures now { domain.new.slot.domain ≡ after_enter domain.old.slot.domain }
{
    match domain.take(alloc) {
        None => status::NO_MACHINE,
        Some(mut hosted) => {
            let status = enter(&mut hosted, client);
            domain.put(hosted);
            status
        }
    }
}

/// Lends a client's page. It gets a free slot of the machine that its hash names, and the frame of the pages that are equal to it
/// or one of its own.
///
/// The status is `NO_MACHINE` without a domain, `NO_CLIENT` if no such client is in, and `NO_SLOT` if that machine has no free
/// slot. It is `NO_FRAME` if the page joins no other and all frames of the machine but the spare one are in use.
#[unsafe(no_mangle)]
pub extern "C" fn pageshare_domain_lend(
    alloc: Global,
    domain: &mut DomainHandle,
    client: u32,
    page: &[u8; 4096],
) -> DomainLoan
    ensures { LendsAt client page.now result domain.old.slot.domain domain.new.slot.domain }
{
    match domain.take(alloc) {
        None => not_lent(status::NO_MACHINE),
        Some(mut hosted) => {
            let loan = lend_page(&mut hosted, client, page);
            domain.put(hosted);
            loan
        }
    }
}

/// Releases a client's slot: `freed` is then its frame, or [`NO_FRAME`] if other slots have the frame, too.
///
/// The status is `NO_MACHINE` without a domain, and `NOT_ITS_SLOT` if the slot isn't the client's; then `freed` stays
/// as it is.
#[unsafe(no_mangle)]
pub extern "C" fn pageshare_domain_release(
    alloc: Global,
    domain: &mut DomainHandle,
    client: u32,
    slot: u64,
    freed: &mut u32,
) -> u32
    ensures status { result ≡ release_status client (slot_by slot) domain.old.slot.domain }
    ensures freed { freed.new ≡ freed_after client (slot_by slot) freed.old domain.old.slot.domain }
    ensures now { domain.new.slot.domain ≡ after_release_at client (slot_by slot) domain.old.slot.domain }
{
    match domain.take(alloc) {
        None => status::NO_MACHINE,
        Some(mut hosted) => {
            let status = release(&mut hosted, client, slot_by(slot), freed);
            domain.put(hosted);
            status
        }
    }
}

/// Releases slots of a client that leaves, in the order of their numbers, as many as `freed` has places. `count` is then how
/// many, and each of the first places of `freed` contains the freed frame, or [`NO_FRAME`]. With 0 the client is out.
///
/// The status is `NO_MACHINE` without a domain, `LENGTH` if `freed` has no place, and `NO_CLIENT` if there is no such
/// client; then nothing is written.
#[unsafe(no_mangle)]
pub extern "C" fn pageshare_domain_leave(
    alloc: Global,
    domain: &mut DomainHandle,
    client: u32,
    freed: &mut [u32],
    count: &mut usize,
) -> u32
    ensures { LeavesAt client result freed.old freed.new count.old count.new domain.old.slot.domain domain.new.slot.domain }
{
    match domain.take(alloc) {
        None => status::NO_MACHINE,
        Some(mut hosted) => {
            let status = leave(&mut hosted, client, freed, count);
            domain.put(hosted);
            status
        }
    }
}

/// Returns a page's fingerprint under a salt: its fast hash, whatever hash a domain has.
#[unsafe(no_mangle)]
pub extern "C" fn pageshare_domain_fingerprint(salt: u32, page: &[u8; 4096]) -> u64
    ensures { result ≡ fold_hash salt page.now }
{
    FoldHash.hash(salt, page)
}

/// Asks about a page of a client. `seen` is then 1 if another page was asked about with this fingerprint, within the last
/// questions that the domain remembers, and else 0.
///
/// The status is `NO_MACHINE` without a domain, and then `seen` stays as it is.
#[unsafe(no_mangle)]
pub extern "C" fn pageshare_domain_ask(
    alloc: Global,
    domain: &mut DomainHandle,
    client: u32,
    page: u64,
    fingerprint: u64,
    seen: &mut u8,
) -> u32
    ensures status { result ≡ made_status (λ m. status.OK) domain.old.slot.domain }
    ensures seen { seen.new ≡ seen_after (record { client = client; number = page }) fingerprint seen.old domain.old.slot.domain }
    ensures noted { domain.new.slot.domain ≡ asked (record { client = client; number = page }) fingerprint domain.old.slot.domain }
{
    match domain.take(alloc) {
        None => status::NO_MACHINE,
        Some(mut hosted) => {
            let page = AskedPage {
                client,
                number: page,
            };
            let status = ask(&mut hosted, page, fingerprint, seen);
            domain.put(hosted);
            status
        }
    }
}

/// Gets what the domain counts. It looks at each slot. The status is `NO_MACHINE` without a domain, and then `totals`
/// stays as it is.
#[unsafe(no_mangle)]
pub extern "C" fn pageshare_domain_report(
    alloc: Global,
    domain: &mut DomainHandle,
    totals: &mut DomainTotals,
) -> u32
    ensures same { domain.new.slot.domain ≡ domain.old.slot.domain }
    ensures status { result ≡ made_status (λ m. status.OK) domain.old.slot.domain }
    ensures totals { totals.new ≡ totals_after totals.old domain.old.slot.domain }
{
    match domain.take(alloc) {
        None => status::NO_MACHINE,
        Some(hosted) => {
            let status = report_domain(&hosted, totals);
            domain.put(hosted);
            status
        }
    }
}
