//! The session with a host: what is said next, and what a reply or its loss means.
ghost use Rattle.std.specs.Prelude.{◌≡◌, ◌≤◌, is_some, length};
ghost use Rattle.client_session.specs.Kept.{session_of};
ghost use Rattle.client_session.specs.Sessions.{wanted_of, connected, welcomed, welcomed_as, may_ask, may_lend, asked, lending, is_answer, answered, are_loans, counted, may_give_up, given_up, due, said_more, parted};
ghost use Rattle.pageshare_window_c.specs.Sessions.{name_after, loans_after, welcomed_number, put_front};

use client_session::{ClientSession, KeptSession, Welcomed};
use host_messages::{Lent, MAX_IN_MESSAGE};

/// A new connection takes the place of the one before. Returns whether its `Hello` takes a session up, and writes that session's name and how
/// many replies to `Lend` were counted in it; else leaves both as they are.
#[unsafe(no_mangle)]
pub extern "C" fn pageshare_window_connect(
    session: &mut KeptSession,
    name: &mut [u8; 16],
    loans: &mut u64,
) -> bool
    ensures wants { result ≡ is_some (wanted_of (session_of session.old)) }
    ensures name { name.new ≡ name_after name.old (wanted_of (session_of session.old)) }
    ensures loans { loans.new ≡ loans_after loans.old (wanted_of (session_of session.old)) }
    ensures now { session_of session.new ≡ connected (session_of session.old) }
{
    let mut client = ClientSession::resume(session);
    let wanted = client.connect();
    client.keep(session);
    match wanted {
        None => false,
        Some(wanted) => {
            let own = wanted.name;
            *name = own;
            *loans = wanted.loans;
            true
        }
    }
}

/// Hears `Welcome` to a session with this name. Returns 0 if no `Hello` is open: nothing changed; 1 if the session was taken up, with its slots;
/// 2 if another one has begun: no slot of before is the client's.
#[unsafe(no_mangle)]
pub extern "C" fn pageshare_window_welcome(session: &mut KeptSession, name: &[u8; 16]) -> u8
    ensures came { result ≡ welcomed_number (welcomed_as name.now (session_of session.old)) }
    ensures now { session_of session.new ≡ welcomed name.now (session_of session.old) }
{
    let mut client = ClientSession::resume(session);
    let came = client.welcome(*name);
    client.keep(session);
    welcomed_number(came)
}

// Returns the number of what came of a welcome.
fn welcomed_number(came: Welcomed) -> u8
    ensures { result ≡ welcomed_number came }
{
    match came {
        Welcomed::Unasked => 0,
        Welcomed::TakenUp => 1,
        Welcomed::Begun => 2,
    }
}

/// So many questions are to be asked. Returns whether they may be: nothing is open, and all releases were said.
#[unsafe(no_mangle)]
pub extern "C" fn pageshare_window_ask(session: &mut KeptSession, count: u32) -> bool
    ensures may { result ≡ may_ask (session_of session.old) }
    ensures now { session_of session.new ≡ asked count (session_of session.old) }
{
    let mut client = ClientSession::resume(session);
    let may = client.ask(count);
    client.keep(session);
    may
}

/// So many pages are to be lent. Returns whether they may be: nothing is open, all releases were said, and a message has room.
#[unsafe(no_mangle)]
pub extern "C" fn pageshare_window_lend(session: &mut KeptSession, count: u32) -> bool
    ensures may { result ≡ may_lend count (session_of session.old) }
    ensures now { session_of session.new ≡ lending count (session_of session.old) }
{
    let mut client = ClientSession::resume(session);
    let may = client.lend(count);
    client.keep(session);
    may
}

/// Hears so many answers. Returns whether they are those to what was asked; else the host isn't to be trusted.
#[unsafe(no_mangle)]
pub extern "C" fn pageshare_window_hear_answers(session: &mut KeptSession, count: u32) -> bool
    ensures are { result ≡ is_answer count (session_of session.old) }
    ensures now { session_of session.new ≡ answered count (session_of session.old) }
{
    let mut client = ClientSession::resume(session);
    let are = client.hear_answers(count);
    client.keep(session);
    are
}

/// Hears loans, of a host with so many frames. Returns whether they are a reply to what was to be lent; else the host isn't to be trusted, and
/// they aren't counted.
#[unsafe(no_mangle)]
pub extern "C" fn pageshare_window_hear_loans(
    session: &mut KeptSession,
    frames: u32,
    loans: &[Lent],
) -> bool
    ensures are { result ≡ are_loans frames loans.now (session_of session.old) }
    ensures now { session_of session.new ≡ counted frames loans.now (session_of session.old) }
{
    let mut client = ClientSession::resume(session);
    let are = client.hear_loans(frames, loans);
    client.keep(session);
    are
}

/// Gives slots up, whose frames no page shows. Returns whether they are: no lend is open, and there is room for them. If there isn't, ask
/// first, if about nothing.
#[unsafe(no_mangle)]
pub extern "C" fn pageshare_window_give_slots_up(session: &mut KeptSession, slots: &[u64]) -> bool
    ensures may { result ≡ may_give_up slots.now (session_of session.old) }
    ensures now { session_of session.new ≡ given_up slots.now (session_of session.old) }
{
    let mut client = ClientSession::resume(session);
    let may = client.give_up(slots);
    client.keep(session);
    may
}

/// Writes the slots of the release to be said next to the first places, and returns how many they are, 0 if nothing is to be released now. They
/// count as said on this connection.
#[unsafe(no_mangle)]
pub extern "C" fn pageshare_window_next_release(
    session: &mut KeptSession,
    slots: &mut [u64; 128],
) -> usize
    ensures count { result ≡ length (due (session_of session.old)) }
    ensures slots { slots.new ≡ put_front (due (session_of session.old)) slots.old }
    ensures now { session_of session.new ≡ said_more (session_of session.old) }
{
    let mut client = ClientSession::resume(session);
    let release = client.next_release();
    client.keep(session);
    put_front(slots, release.as_slice());
    release.len()
}

// Writes slots to the first places.
fn put_front(places: &mut [u64; MAX_IN_MESSAGE], slots: &[u64])
    requires { length slots.now ≤ 128 }
    ensures { places.new ≡ put_front slots.now places.old }
{
    places[..slots.len()].copy_from_slice(slots);
}

/// The connection has ended. What was said on it may be lost, and the reply to what is open is.
#[unsafe(no_mangle)]
pub extern "C" fn pageshare_window_disconnect(session: &mut KeptSession)
    ensures { session_of session.new ≡ parted (session_of session.old) }
{
    let mut client = ClientSession::resume(session);
    client.part();
    client.keep(session);
}
