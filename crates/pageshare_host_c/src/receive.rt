//! Packets of sessions, as C hands them in.
ghost use Rattle.std.specs.Prelude.{◌≡◌, ◌≤◌, length, Some};
ghost use Rattle.host_messages.specs.declared.limits.TheConstants.{MAX_IN_MESSAGE, MAX_MESSAGE_BYTES};
ghost use Rattle.pageshare_host_c.specs.Packets.{ReceivesAt, Gives, status_of, fault_status, message_status, resumed_of, frees_of, put_front, refused};

use crate::hosted::Hosted;
use c_surface::status;
use host_messages::{MAX_IN_MESSAGE, MAX_MESSAGE_BYTES, MessageFault};
use host_sessions::{Allowance, Received, SessionFault};
use page_model::Page;
use share_domain::NO_FRAME;

/// What C gets of a packet.
#[repr(C)]
#[derive(Clone, Copy)]
pub struct ReceivedPacket {
    pub status: u32,
    /// The bytes of the reply.
    pub reply_bytes: u32,
    /// How many frames stand in `freed`.
    pub freed: u32,
    /// The number of the session that was resumed, or [`NO_FRAME`].
    pub resumed: u32,
}

/// Receives a packet, and writes the reply and the frames that are free since.
pub(crate) fn receive(
    hosted: &mut Hosted,
    session: u32,
    bytes: &[u8],
    pages: &[Page],
    reply: &mut [u8],
    freed: &mut [u32],
) -> ReceivedPacket
    ensures { ReceivesAt session bytes.now pages.now result reply.old reply.new freed.old freed.new (Some hosted.old) (Some hosted.new) }
{
    match hosted {
        Hosted::Waiting(_) => refused(status::NO_MACHINE),
        Hosted::Made(host) => {
            if reply.len() < MAX_MESSAGE_BYTES {
                return refused(status::SHORT);
            }
            if freed.len() < MAX_IN_MESSAGE {
                return refused(status::SHORT);
            }
            let received = host.receive(session, bytes, pages, Allowance::all());
            give(received, reply, freed)
        }
    }
}

/// Returns what C gets of a call that did nothing.
pub(crate) fn refused(status: u32) -> ReceivedPacket
    ensures { result ≡ refused status }
{
    ReceivedPacket {
        status,
        reply_bytes: 0,
        freed: 0,
        resumed: NO_FRAME,
    }
}

/// Writes the reply and the frames that are free since.
pub(crate) fn give(received: Received, reply: &mut [u8], freed: &mut [u32]) -> ReceivedPacket
    requires reply { MAX_MESSAGE_BYTES ≤ length reply.old }
    requires freed { MAX_IN_MESSAGE ≤ length freed.old }
    ensures { Gives received result reply.old reply.new freed.old freed.new }
{
    let status = status_of(&received);
    let resumed = resumed_of(&received);
    let count = put_freed(&received, freed);
    let packet = received.into_reply();
    put_bytes(packet.as_slice(), reply);
    ReceivedPacket {
        status,
        reply_bytes: packet.len() as u32,
        freed: count,
        resumed,
    }
}

/// Writes bytes to the front of a buffer.
fn put_bytes(bytes: &[u8], room: &mut [u8])
    requires { length bytes.now ≤ length room.old }
    ensures { room.new ≡ put_front bytes.now room.old }
{
    room[..bytes.len()].copy_from_slice(bytes);
}

/// Writes frames to the front of a buffer, and returns how many they are.
pub(crate) fn put_frames(frames: &[u32], room: &mut [u32]) -> u32
    requires few { length frames.now ≤ MAX_IN_MESSAGE }
    requires room { length frames.now ≤ length room.old }
    ensures count { result ≡ length frames.now }
    ensures room { room.new ≡ put_front frames.now room.old }
{
    room[..frames.len()].copy_from_slice(frames);
    frames.len() as u32
}

/// Writes the frames that are free since a release, and returns how many numbers that are.
fn put_freed(received: &Received, room: &mut [u32]) -> u32
    requires { MAX_IN_MESSAGE ≤ length room.old }
    ensures count { result ≡ length (frees_of received.now) }
    ensures room { room.new ≡ put_front (frees_of received.now) room.old }
{
    match received {
        Received::NoSession => 0,
        Received::Fault(_) => 0,
        Received::Welcome(_) => 0,
        Received::Resumed(_, _, frames) => put_frames(frames.as_slice(), room),
        Received::Seen(_) => 0,
        Received::Loans(_) => 0,
        Received::Released(frames) => put_frames(frames.as_slice(), room),
    }
}

/// Returns the status of what came of a packet.
fn status_of(received: &Received) -> u32
    ensures { result ≡ status_of received.now }
{
    match received {
        Received::NoSession => status::NO_SESSION,
        Received::Fault(fault) => fault_status(fault),
        Received::Welcome(_) => status::OK,
        Received::Resumed(_, _, _) => status::OK,
        Received::Seen(_) => status::OK,
        Received::Loans(_) => status::OK,
        Received::Released(_) => status::OK,
    }
}

/// Returns the status of a fault.
pub(crate) fn fault_status(fault: &SessionFault) -> u32
    ensures { result ≡ fault_status fault.now }
{
    match fault {
        SessionFault::Message(fault) => message_status(fault),
        SessionFault::Early => status::FAULT_EARLY,
        SessionFault::Again => status::FAULT_AGAIN,
        SessionFault::Pages => status::FAULT_PAGES,
        SessionFault::Clients => status::FAULT_CLIENTS,
    }
}

/// Returns the status of bytes that are no message.
fn message_status(fault: &MessageFault) -> u32
    ensures { result ≡ message_status fault.now }
{
    match fault {
        MessageFault::Head => status::FAULT_HEAD,
        MessageFault::Kind => status::FAULT_KIND,
        MessageFault::Version => status::FAULT_VERSION,
        MessageFault::Count => status::FAULT_COUNT,
        MessageFault::Length => status::FAULT_LENGTH,
        MessageFault::Answer => status::FAULT_ANSWER,
    }
}

/// Returns the number of the session that was resumed, or [`NO_FRAME`].
fn resumed_of(received: &Received) -> u32
    ensures { result ≡ resumed_of received.now }
{
    match received {
        Received::NoSession => NO_FRAME,
        Received::Fault(_) => NO_FRAME,
        Received::Welcome(_) => NO_FRAME,
        Received::Resumed(_, before, _) => *before,
        Received::Seen(_) => NO_FRAME,
        Received::Loans(_) => NO_FRAME,
        Received::Released(_) => NO_FRAME,
    }
}
