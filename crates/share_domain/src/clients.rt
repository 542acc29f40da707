//! Which numbers clients have.
ghost use Rattle.std.specs.Prelude.{◌≡◌, ◌<◌, ◌≤◌, ◌↔◌, IfSome, IsTrue, length, slice_get, position};
ghost use Rattle.share_domain.specs.Domains.{is_out};
ghost use Rattle.share_domain.specs.Leaving.{is_here};
ghost use Rattle.share_domain.specs.declared.config.TheConstants.{MAX_CLIENTS};

use crate::client::Presence;

/// Whether no client has the number.
fn is_out(presence: &Presence) -> bool
    ensures { result ≡ is_out presence.now }
{
    match presence {
        Presence::Out => true,
        Presence::In => false,
        Presence::Leaving => false,
    }
}

fn first_out(clients: &[Presence]) -> Option<usize>
    ensures { result ≡ position is_out clients.now }
{
    clients.iter().position(|presence| is_out(presence))
}

/// Returns the first number that no client has.
pub(crate) fn find_out(clients: &[Presence]) -> Option<u32>
    requires { length clients.now ≤ MAX_CLIENTS }
    ensures client { result ≡ position is_out clients.now }
    ensures within { IfSome result (λ client. client < length clients.now) }
{
    match first_out(clients) {
        None => None,
        Some(client) => Some(client as u32),
    }
}

/// Whether the client is in, and hasn't begun to leave.
pub(crate) fn is_in(clients: &[Presence], client: u32) -> bool
    ensures { IsTrue result ↔ (slice_get clients.now client ≡ Some Presence.In) }
{
    match clients.get(client as usize) {
        None => false,
        Some(Presence::Out) => false,
        Some(Presence::In) => true,
        Some(Presence::Leaving) => false,
    }
}

/// Whether the client has entered, and isn't out yet.
pub(crate) fn is_here(clients: &[Presence], client: u32) -> bool
    ensures { result ≡ is_here (slice_get clients.now client) }
{
    match clients.get(client as usize) {
        None => false,
        Some(Presence::Out) => false,
        Some(Presence::In) => true,
        Some(Presence::Leaving) => true,
    }
}
