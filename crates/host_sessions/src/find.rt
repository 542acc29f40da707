//! Sessions by what they are.
ghost use Rattle.std.specs.Prelude.{◌≡◌, ◌≤◌, ◌<◌, length, position, IfSome};
ghost use Rattle.host_sessions.specs.Table.{is_free, is_gone_as, named_at, named_in, next_number, session_at, wanted_in};
ghost use Rattle.share_domain.specs.declared.config.TheConstants.{MAX_CLIENTS};

use crate::allowance::Process;
use crate::session::Session;
use host_messages::{Name, Wanted};

fn first_free(sessions: &[Session]) -> Option<usize>
    ensures { result ≡ position is_free sessions.now }
{
    sessions.iter().position(|session| session.is_free())
}

/// Returns the first number that no session has.
pub(crate) fn find_free(sessions: &[Session]) -> Option<u32>
    requires { length sessions.now ≤ MAX_CLIENTS }
    ensures number { result ≡ next_number sessions.now }
    ensures within { IfSome result (λ n. n < length sessions.now) }
{
    match first_free(sessions) {
        None => None,
        Some(number) => Some(number as u32),
    }
}

fn first_gone(sessions: &[Session], name: &Name) -> Option<usize>
    ensures { result ≡ position (is_gone_as name.now) sessions.now }
{
    sessions.iter().position(|session| session.is_gone_as(name))
}

/// Returns the number of the session with this name that can be resumed.
fn find_gone(sessions: &[Session], name: &Name) -> Option<u32>
    requires { length sessions.now ≤ MAX_CLIENTS }
    ensures number { result ≡ position (is_gone_as name.now) sessions.now }
    ensures within { IfSome result (λ n. n < length sessions.now) }
{
    match first_gone(sessions, name) {
        None => None,
        Some(number) => Some(number as u32),
    }
}

/// Returns the session with a number, `Free` if there is no such number.
fn at(sessions: &[Session], number: u32) -> Session
    ensures { result ≡ session_at sessions.now number }
{
    if number as usize >= sessions.len() {
        return Session::Free;
    }
    sessions[number as usize]
}

/// Returns this number, if it is that of a session with this name.
fn find_at(sessions: &[Session], name: &Name, number: u32) -> Option<u32>
    ensures number { result ≡ named_at sessions.now name.now number }
    ensures within { IfSome result (λ n. n < length sessions.now) }
{
    if at(sessions, number).is_named(name) {
        return Some(number);
    }
    None
}

/// Returns the number of the session with this name that a packet can take up, of those that may be of its process.
fn find_named(sessions: &[Session], process: Process, name: &Name) -> Option<u32>
    requires { length sessions.now ≤ MAX_CLIENTS }
    ensures number { result ≡ named_in sessions.now process name.now }
    ensures within { IfSome result (λ n. n < length sessions.now) }
{
    match process {
        Process::Unknown => find_gone(sessions, name),
        Process::Alone => None,
        Process::Beside(number) => find_at(sessions, name, number),
    }
}

/// Returns the number of the session that a client asks to resume, if there is one that it may.
pub(crate) fn find_wanted(
    sessions: &[Session],
    process: Process,
    wanted: &Option<Wanted>,
) -> Option<u32>
    requires { length sessions.now ≤ MAX_CLIENTS }
    ensures number { result ≡ wanted_in sessions.now process wanted.now }
    ensures within { IfSome result (λ n. n < length sessions.now) }
{
    match wanted {
        None => None,
        Some(wanted) => find_named(sessions, process, &wanted.name),
    }
}
