//! A host of VMM processes for C: each function that a program in C or C++ calls.
//!
//! C provides a [`HostHandle`], which contains no host while its bytes are 0, and passes its address to each call. No call has a
//! condition on its arguments except that its references are valid. `lib/include/pageshare_host.h` declares the same functions in
//! C, and says what the caller owes.
#![tactic(auto)]

ghost use Rattle.std.specs.Prelude.{◌≡◌, None};
ghost use Rattle.c_surface.specs.Statuses.{held_status};
ghost use Rattle.c_surface.specs.declared.status.TheConstants as status;
ghost use Rattle.page_digest.specs.Hashes.{fold_hash};
ghost use Rattle.pageshare_host_c.specs.Calls.{ConnectsAt, DisconnectsAt, EndsAt, EndsEmptyAt, session_status, session_after, totals_after};
ghost use Rattle.pageshare_host_c.specs.Hosts.{made_status, AddsFrames, BeginsHost};
ghost use Rattle.pageshare_host_c.specs.Packets.{ReceivesAt};
ghost use Rattle.pageshare_host_c.specs.Serving.{ServesAt, WithdrawsAt};
ghost use Rattle.pageshare_host_c.specs.Heads.{head_of};
ghost use Rattle.host_messages.specs.Reading.{client_at};

mod begin;
mod calls;
mod handle;
mod hosted;
mod laws;
mod read;
mod receive;
mod serve;
mod shape;
mod slot;
mod waiting;

use begin::{add_frames, begin};
pub use c_surface::DomainTotals;
use c_surface::{Handle, free, status};
pub use calls::KnownSession;
use calls::{connect, disconnect, end, end_empty, report, write_session};
pub use handle::HostHandle;
pub use hosted::Hosted;
pub use laws::numbers_law;
pub use machine_frames::Region;
use page_digest::{FoldHash, PageHash};
pub use read::PacketHead;
use read::read;
pub use receive::ReceivedPacket;
use receive::{receive, refused};
use serve::{serve, take_back, unserved};
pub use serve::{PacketAllowance, ServedPacket};
pub use shape::HostShape;
pub use slot::HostSlot;
use std::alloc::Global;
pub use waiting::Waiting;

/// Begins a host, whose machines' frames come in regions.
///
/// The status is `OK`, `IN_USE` if the handle holds a host already, and else `MACHINES`, `SLOTS`, `FRAMES`, `CLIENTS` (of sessions),
/// `RECENT` or `MEMORY`.
#[unsafe(no_mangle)]
pub extern "C" fn pageshare_host_begin(
    alloc: Global,
    host: &mut HostHandle,
    shape: &HostShape,
) -> u32
    ensures { BeginsHost shape.now host.old.slot.host host.new.slot.host result }
{
    begin(alloc, host, shape)
}

/// Gives a host that was begun the frames of its next machine. With those of the last one the host is made.
///
/// The status is `OK`, `NO_MACHINE` if no host was begun or it is made, or `REGION` if the region is for another number of
/// frames. It is `MEMORY` if memory was refused: then the handle holds nothing.
#[unsafe(no_mangle)]
pub extern "C" fn pageshare_host_add(alloc: Global, host: &mut HostHandle, region: Region) -> u32
    ensures { AddsFrames region.pages host.old.slot.host host.new.slot.host result }
{
    add_frames(alloc, host, region)
}

/// Frees the host. The status is `NO_MACHINE` if the handle holds none.
#[unsafe(no_mangle)]
pub extern "C" fn pageshare_host_free(alloc: Global, host: &mut HostHandle) -> u32
    ensures none { host.new.slot.host ≡ None }
    ensures status { result ≡ held_status host.old.slot.host }
{
    free(host, alloc)
}

/// A peer has connected: `session` is then its session's number.
///
/// The status is `NO_MACHINE` without a host, and `NO_ROOM` if there are as many sessions as there may be; then
/// `session` stays as it is.
#[unsafe(no_mangle)]
pub extern "C" fn pageshare_host_connect(
    alloc: Global,
    host: &mut HostHandle,
    name: &[u8; 16],
    session: &mut u32,
) -> u32
    ensures { ConnectsAt name.now result session.old session.new host.old.slot.host host.new.slot.host }
{
    match host.take(alloc) {
        None => status::NO_MACHINE,
        Some(mut hosted) => {
            let status = connect(&mut hosted, *name, session);
            host.put(hosted);
            status
        }
    }
}

/// Receives a packet of a session.
///
/// The status is `NO_MACHINE` without a host, `SHORT` if a buffer is too short, and `NO_SESSION` if no session with this number
/// takes messages. If the packet has a fault, it is that of the fault (`FAULT_HEAD` and on).
#[unsafe(no_mangle)]
pub extern "C" fn pageshare_host_receive(
    alloc: Global,
    host: &mut HostHandle,
    session: u32,
    bytes: &[u8],
    pages: &[[u8; 4096]],
    reply: &mut [u8],
    freed: &mut [u32],
) -> ReceivedPacket
    ensures { ReceivesAt session bytes.now pages.now result reply.old reply.new freed.old freed.new host.old.slot.host host.new.slot.host }
{
    match host.take(alloc) {
        None => refused(status::NO_MACHINE),
        Some(mut hosted) => {
            let got = receive(&mut hosted, session, bytes, pages, reply, freed);
            host.put(hosted);
            got
        }
    }
}

/// Receives a packet of a session, as [`pageshare_host_receive`] does, but within what `may` allows, and returns what the reply says, too.
/// `frames` then begins with the frames that are free since, or after a lend with those of its pages.
///
/// The status is that of [`pageshare_host_receive`].
#[unsafe(no_mangle)]
pub extern "C" fn pageshare_host_serve(
    alloc: Global,
    host: &mut HostHandle,
    session: u32,
    bytes: &[u8],
    pages: &[[u8; 4096]],
    may: &PacketAllowance,
    reply: &mut [u8],
    frames: &mut [u32],
) -> ServedPacket
    ensures { ServesAt session bytes.now pages.now may.now result reply.old reply.new frames.old frames.new host.old.slot.host host.new.slot.host }
{
    match host.take(alloc) {
        None => unserved(status::NO_MACHINE),
        Some(mut hosted) => {
            let served = serve(&mut hosted, session, bytes, pages, may, reply, frames);
            host.put(hosted);
            served
        }
    }
}

/// Takes back those loans of a session's last reply to a lend that are in the frames of `missing`, before the reply is sent. The reply then
/// says that their pages aren't lent, and `frames` begins with the frames of all its pages.
///
/// The status is `NO_MACHINE` without a host, `SHORT` if a buffer is too short, and `NO_SESSION` if the session hasn't begun.
#[unsafe(no_mangle)]
pub extern "C" fn pageshare_host_take_back(
    alloc: Global,
    host: &mut HostHandle,
    session: u32,
    missing: &[u32],
    reply: &mut [u8],
    frames: &mut [u32],
) -> ServedPacket
    ensures { WithdrawsAt session missing.now result reply.old reply.new frames.old frames.new host.old.slot.host host.new.slot.host }
{
    match host.take(alloc) {
        None => unserved(status::NO_MACHINE),
        Some(mut hosted) => {
            let served = take_back(&mut hosted, session, missing, reply, frames);
            host.put(hosted);
            served
        }
    }
}

/// Returns what a packet says, before a session receives it.
#[unsafe(no_mangle)]
pub extern "C" fn pageshare_host_read(bytes: &[u8]) -> PacketHead
    ensures { result ≡ head_of (client_at bytes.now) }
{
    read(bytes)
}

/// A session's connection has ended. The status is `NO_MACHINE` without a host, and `NO_SESSION` if there is no such
/// session.
#[unsafe(no_mangle)]
pub extern "C" fn pageshare_host_disconnect(
    alloc: Global,
    host: &mut HostHandle,
    session: u32,
) -> u32
    ensures { DisconnectsAt session result host.old.slot.host host.new.slot.host }
{
    match host.take(alloc) {
        None => status::NO_MACHINE,
        Some(mut hosted) => {
            let status = disconnect(&mut hosted, session);
            host.put(hosted);
            status
        }
    }
}

/// Ends a session if it has no slots. Call it when its connection has ended.
///
/// The status is `NO_MACHINE` without a host, `OK` if the session has slots and stays, and `NO_SESSION` if no session has the number
/// afterwards.
#[unsafe(no_mangle)]
pub extern "C" fn pageshare_host_end_empty(
    alloc: Global,
    host: &mut HostHandle,
    session: u32,
) -> u32
    ensures { EndsEmptyAt session result host.old.slot.host host.new.slot.host }
{
    match host.take(alloc) {
        None => status::NO_MACHINE,
        Some(mut hosted) => {
            let status = end_empty(&mut hosted, session);
            host.put(hosted);
            status
        }
    }
}

/// A session's process has ended: releases as many of its slots as `freed` has places. `count` is then how many.
///
/// The status is `NO_MACHINE` without a host, `SHORT` if `freed` has no place, and `NO_SESSION` if there is no such
/// session; then nothing is written.
#[unsafe(no_mangle)]
pub extern "C" fn pageshare_host_end(
    alloc: Global,
    host: &mut HostHandle,
    session: u32,
    freed: &mut [u32],
    count: &mut usize,
) -> u32
    ensures { EndsAt session result freed.old freed.new count.old count.new host.old.slot.host host.new.slot.host }
{
    match host.take(alloc) {
        None => status::NO_MACHINE,
        Some(mut hosted) => {
            let status = end(&mut hosted, session, freed, count);
            host.put(hosted);
            status
        }
    }
}

/// Gets what is known of a session. The status is `NO_MACHINE` without a host, and `NO_SESSION` if there is no such session; then
/// `known` stays as it is.
#[unsafe(no_mangle)]
pub extern "C" fn pageshare_host_session(
    alloc: Global,
    host: &mut HostHandle,
    session: u32,
    known: &mut KnownSession,
) -> u32
    ensures same { host.new.slot.host ≡ host.old.slot.host }
    ensures status { result ≡ session_status session host.old.slot.host }
    ensures known { known.new ≡ session_after session known.old host.old.slot.host }
{
    match host.take(alloc) {
        None => status::NO_MACHINE,
        Some(hosted) => {
            let status = write_session(&hosted, session, known);
            host.put(hosted);
            status
        }
    }
}

/// Gets what the host counts. It looks at each slot. The status is `NO_MACHINE` without a host, and then `totals` stays
/// as it is.
#[unsafe(no_mangle)]
pub extern "C" fn pageshare_host_report(
    alloc: Global,
    host: &mut HostHandle,
    totals: &mut DomainTotals,
) -> u32
    ensures same { host.new.slot.host ≡ host.old.slot.host }
    ensures status { result ≡ made_status (λ h. status.OK) host.old.slot.host }
    ensures totals { totals.new ≡ totals_after totals.old host.old.slot.host }
{
    match host.take(alloc) {
        None => status::NO_MACHINE,
        Some(hosted) => {
            let status = report(&hosted, totals);
            host.put(hosted);
            status
        }
    }
}

/// Returns a page's fingerprint under a salt, as a client computes it.
#[unsafe(no_mangle)]
pub extern "C" fn pageshare_host_fingerprint(salt: u32, page: &[u8; 4096]) -> u64
    ensures { result ≡ fold_hash salt page.now }
{
    FoldHash.hash(salt, page)
}
