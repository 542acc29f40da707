//! Connections that begin and end, and what is known of sessions.
ghost use Rattle.std.specs.Prelude.{◌≡◌, Some};
ghost use Rattle.c_surface.specs.declared.status.TheConstants as status;
ghost use Rattle.pageshare_host_c.specs.Hosts.{made_status};
ghost use Rattle.pageshare_host_c.specs.Calls.{ConnectsAt, DisconnectsAt, EndsAt, EndsEmptyAt, session_status, session_after, known_session, state_of, fault_known, messages_of, link_fault, totals_after};

use crate::hosted::Hosted;
use crate::receive::fault_status;
use c_surface::{DomainTotals, status, totals_of};
use host_messages::Name;
use host_sessions::{Link, Session};

/// What is known of a session.
#[repr(C)]
#[derive(Clone, Copy)]
pub struct KnownSession {
    /// 1: silent, 2: talking, 3: gone, 4: broken, 5: ended.
    pub state: u32,
    pub slots: u32,
    /// The status of the fault that broke it, or 0.
    pub fault: u32,
    pub reserved: u32,
    pub messages: u64,
}

/// Notes a connection, writes its session's number, and returns the status.
pub(crate) fn connect(hosted: &mut Hosted, name: Name, session: &mut u32) -> u32
    ensures { ConnectsAt name result session.old session.new (Some hosted.old) (Some hosted.new) }
{
    match hosted {
        Hosted::Waiting(_) => status::NO_MACHINE,
        Hosted::Made(host) => match host.connect(name) {
            None => status::NO_ROOM,
            Some(number) => {
                *session = number;
                status::OK
            }
        },
    }
}

/// Notes a connection's end, and returns the status.
pub(crate) fn disconnect(hosted: &mut Hosted, session: u32) -> u32
    ensures { DisconnectsAt session result (Some hosted.old) (Some hosted.new) }
{
    match hosted {
        Hosted::Waiting(_) => status::NO_MACHINE,
        Hosted::Made(host) => {
            if host.disconnect(session) {
                return status::OK;
            }
            status::NO_SESSION
        }
    }
}

/// Releases slots of a session whose process has ended, and returns the status.
pub(crate) fn end(hosted: &mut Hosted, session: u32, freed: &mut [u32], count: &mut usize) -> u32
    ensures { EndsAt session result freed.old freed.new count.old count.new (Some hosted.old) (Some hosted.new) }
{
    match hosted {
        Hosted::Waiting(_) => status::NO_MACHINE,
        Hosted::Made(host) => {
            if freed.is_empty() {
                return status::SHORT;
            }
            match host.end(session, freed) {
                None => status::NO_SESSION,
                Some(released) => {
                    *count = released;
                    status::OK
                }
            }
        }
    }
}

/// Ends a session if it has no slots, and returns the status.
pub(crate) fn end_empty(hosted: &mut Hosted, session: u32) -> u32
    ensures { EndsEmptyAt session result (Some hosted.old) (Some hosted.new) }
{
    match hosted {
        Hosted::Waiting(_) => status::NO_MACHINE,
        Hosted::Made(host) => {
            if host.end_empty(session) {
                return status::NO_SESSION;
            }
            status::OK
        }
    }
}

/// Writes what is known of a session, and returns the status.
pub(crate) fn write_session(hosted: &Hosted, session: u32, known: &mut KnownSession) -> u32
    ensures status { result ≡ session_status session (Some hosted.now) }
    ensures known { known.new ≡ session_after session known.old (Some hosted.now) }
{
    match hosted {
        Hosted::Waiting(_) => status::NO_MACHINE,
        Hosted::Made(host) => {
            let found = host.session(session);
            if found.is_free() {
                return status::NO_SESSION;
            }
            *known = known_session(host.slots_of(session), &found);
            status::OK
        }
    }
}

/// Returns C's view of a session that has `slots` slots.
fn known_session(slots: u32, session: &Session) -> KnownSession
    ensures { result ≡ known_session slots session.now }
{
    KnownSession {
        state: state_of(session),
        slots,
        fault: fault_of(session),
        reserved: 0,
        messages: messages_of(session),
    }
}

/// Returns the number of a session's state.
fn state_of(session: &Session) -> u32
    ensures { result ≡ state_of session.now }
{
    match session {
        Session::Free => 0,
        Session::Silent(_) => 1,
        Session::Refused(_) => 4,
        Session::Begun(begun) => match begun.link {
            Link::Talking => 2,
            Link::Gone => 3,
            Link::Broken(_) => 4,
            Link::Ended => 5,
        },
    }
}

/// Returns how many messages a session sent.
fn messages_of(session: &Session) -> u64
    ensures { result ≡ messages_of session.now }
{
    match session {
        Session::Free => 0,
        Session::Silent(_) => 0,
        Session::Refused(_) => 0,
        Session::Begun(begun) => begun.messages,
    }
}

/// Returns the status of the fault that broke a session, or `OK`.
fn fault_of(session: &Session) -> u32
    ensures { result ≡ fault_known session.now }
{
    match session {
        Session::Free => status::OK,
        Session::Silent(_) => status::OK,
        Session::Refused(fault) => fault_status(fault),
        Session::Begun(begun) => link_fault(&begun.link),
    }
}

/// Returns the status of the fault that broke a link, or `OK`.
fn link_fault(link: &Link) -> u32
    ensures { result ≡ link_fault link.now }
{
    match link {
        Link::Talking => status::OK,
        Link::Gone => status::OK,
        Link::Broken(fault) => fault_status(fault),
        Link::Ended => status::OK,
    }
}

/// Writes what the host counts, and returns the status.
pub(crate) fn report(hosted: &Hosted, totals: &mut DomainTotals) -> u32
    ensures status { result ≡ made_status (λ h. status.OK) (Some hosted.now) }
    ensures totals { totals.new ≡ totals_after totals.old (Some hosted.now) }
{
    match hosted {
        Hosted::Waiting(_) => status::NO_MACHINE,
        Hosted::Made(host) => {
            *totals = totals_of(&host.report());
            status::OK
        }
    }
}
