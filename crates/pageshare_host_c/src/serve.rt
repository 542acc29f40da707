//! Packets of sessions, of which C learns what the reply says, too.
ghost use Rattle.std.specs.Prelude.{◌≡◌, ◌≤◌, length, Some};
ghost use Rattle.host_messages.specs.declared.limits.TheConstants.{MAX_IN_MESSAGE, MAX_MESSAGE_BYTES};
ghost use Rattle.pageshare_host_c.specs.Packets.{put_front};
ghost use Rattle.pageshare_host_c.specs.Serving.{ServesAt, WithdrawsAt, Shows, allowance_of, process_of, kind_of, answers_in, loaned_in, frames_of, with_received, unserved};

use crate::hosted::Hosted;
use crate::receive::{ReceivedPacket, give, put_frames};
use arrayvec::ArrayVec;
use c_surface::status;
use host_messages::{LOANS, Lent, MAX_IN_MESSAGE, MAX_MESSAGE_BYTES, SEEN, WELCOME};
use host_sessions::{Allowance, Process, Received};
use page_model::Page;
use share_domain::NO_FRAME;

/// What C allows a packet.
#[repr(C)]
#[derive(Clone, Copy)]
pub struct PacketAllowance {
    /// How many pages of a `Lend` may be lent now.
    pub most: u32,
    /// The number of the other session of the same process, or [`NO_FRAME`]: it has no other.
    pub beside: u32,
}

/// What C gets of a packet, with what the reply to it says.
#[repr(C)]
#[derive(Clone, Copy)]
pub struct ServedPacket {
    pub status: u32,
    /// The bytes of the reply.
    pub reply_bytes: u32,
    /// How many freed frames are in the buffer of frames.
    pub freed: u32,
    /// The number of the session that was resumed, or [`NO_FRAME`].
    pub resumed: u32,
    /// The kind of the reply, or 0.
    pub kind: u32,
    /// How many questions the reply answers.
    pub answers: u32,
    /// How many pages the reply has loans of. The buffer of frames contains the frame of each, [`NO_FRAME`] if it isn't lent.
    pub loans: u32,
}

/// Receives a packet, and writes the reply, and the frames that are free since or those of the loans.
pub(crate) fn serve(
    hosted: &mut Hosted,
    session: u32,
    bytes: &[u8],
    pages: &[Page],
    may: &PacketAllowance,
    reply: &mut [u8],
    frames: &mut [u32],
) -> ServedPacket
    ensures { ServesAt session bytes.now pages.now may.now result reply.old reply.new frames.old frames.new (Some hosted.old) (Some hosted.new) }
{
    match hosted {
        Hosted::Waiting(_) => unserved(status::NO_MACHINE),
        Hosted::Made(host) => {
            if reply.len() < MAX_MESSAGE_BYTES {
                return unserved(status::SHORT);
            }
            if frames.len() < MAX_IN_MESSAGE {
                return unserved(status::SHORT);
            }
            let received = host.receive(session, bytes, pages, allowance_of(may));
            show(received, reply, frames)
        }
    }
}

/// Takes back those loans of a session's last reply that are in these frames, and writes the reply and the frames of its pages then.
pub(crate) fn take_back(
    hosted: &mut Hosted,
    session: u32,
    missing: &[u32],
    reply: &mut [u8],
    frames: &mut [u32],
) -> ServedPacket
    ensures { WithdrawsAt session missing.now result reply.old reply.new frames.old frames.new (Some hosted.old) (Some hosted.new) }
{
    match hosted {
        Hosted::Waiting(_) => unserved(status::NO_MACHINE),
        Hosted::Made(host) => {
            if reply.len() < MAX_MESSAGE_BYTES {
                return unserved(status::SHORT);
            }
            if frames.len() < MAX_IN_MESSAGE {
                return unserved(status::SHORT);
            }
            show(host.take_back(session, missing), reply, frames)
        }
    }
}

/// Returns what C allows a packet.
fn allowance_of(may: &PacketAllowance) -> Allowance
    ensures { result ≡ allowance_of may.now }
{
    Allowance {
        most: may.most,
        process: process_of(may.beside),
    }
}

/// Returns which other session is of the process.
fn process_of(beside: u32) -> Process
    ensures { result ≡ process_of beside }
{
    if beside == NO_FRAME {
        return Process::Alone;
    }
    Process::Beside(beside)
}

/// Returns what C gets of a call that did nothing.
pub(crate) fn unserved(status: u32) -> ServedPacket
    ensures { result ≡ unserved status }
{
    ServedPacket {
        status,
        reply_bytes: 0,
        freed: 0,
        resumed: NO_FRAME,
        kind: 0,
        answers: 0,
        loans: 0,
    }
}

/// Writes the reply, and the frames that are free since or those of the loans.
fn show(received: Received, reply: &mut [u8], frames: &mut [u32]) -> ServedPacket
    requires reply { MAX_MESSAGE_BYTES ≤ length reply.old }
    requires frames { MAX_IN_MESSAGE ≤ length frames.old }
    ensures { Shows received result reply.old reply.new frames.old frames.new }
{
    let kind = kind_of(&received);
    let answers = answers_in(&received);
    let loans = put_loans(&received, frames);
    with_received(&give(received, reply, frames), kind, answers, loans)
}

/// Returns what C gets of a packet, with what the reply says.
fn with_received(got: &ReceivedPacket, kind: u32, answers: u32, loans: u32) -> ServedPacket
    ensures { result ≡ with_received got.now kind answers loans }
{
    ServedPacket {
        status: got.status,
        reply_bytes: got.reply_bytes,
        freed: got.freed,
        resumed: got.resumed,
        kind,
        answers,
        loans,
    }
}

/// Returns the kind of the reply, or 0 if there is none.
fn kind_of(received: &Received) -> u32
    ensures { result ≡ kind_of received.now }
{
    match received {
        Received::NoSession => 0,
        Received::Fault(_) => 0,
        Received::Welcome(_) => WELCOME,
        Received::Resumed(_, _, _) => WELCOME,
        Received::Seen(_) => SEEN,
        Received::Loans(_) => LOANS,
        Received::Released(_) => 0,
    }
}

/// Returns how many questions the reply answers.
fn answers_in(received: &Received) -> u32
    ensures { result ≡ answers_in received.now }
{
    match received {
        Received::NoSession => 0,
        Received::Fault(_) => 0,
        Received::Welcome(_) => 0,
        Received::Resumed(_, _, _) => 0,
        Received::Seen(answers) => answers.len() as u32,
        Received::Loans(_) => 0,
        Received::Released(_) => 0,
    }
}

/// Writes the frames of the loans, and returns how many pages they are of.
#[tactic(auto, using(crate::proofs::Loaned::front_length))]
fn put_loans(received: &Received, room: &mut [u32]) -> u32
    requires { MAX_IN_MESSAGE ≤ length room.old }
    ensures count { result ≡ length (loaned_in received.now) }
    ensures room { room.new ≡ put_front (loaned_in received.now) room.old }
    ensures size { MAX_IN_MESSAGE ≤ length room.new }
{
    match received {
        Received::NoSession => 0,
        Received::Fault(_) => 0,
        Received::Welcome(_) => 0,
        Received::Resumed(_, _, _) => 0,
        Received::Seen(_) => 0,
        Received::Loans(loans) => put_frames(frames_of(loans.as_slice()).as_slice(), room),
        Received::Released(_) => 0,
    }
}

/// Returns the frames of loans.
fn frames_of(loans: &[Lent]) -> ArrayVec<u32, MAX_IN_MESSAGE>
    requires { length loans.now ≤ MAX_IN_MESSAGE }
    ensures { result.items ≡ frames_of loans.now }
{
    let mut frames = ArrayVec::new();
    for lent in loans {
        frames.push(lent.frame);
    }
    frames
}
