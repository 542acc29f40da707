//! Sessions and their numbers.
ghost use Rattle.std.specs.Prelude.{◌≡◌, ◌≤◌, length, take};
ghost use Rattle.client_session.specs.Kept.{link_by, link_number, name_by, open_of, said_within, session_of, unheard_of};

use crate::kept::KeptSession;
use crate::link::Link;
use crate::session::{ClientSession, MAX_UNHEARD};
use arrayvec::ArrayVec;
use host_messages::Name;

impl ClientSession {
    /// Makes the session whose numbers these are.
    pub fn resume(kept: &KeptSession) -> ClientSession
        ensures { result ≡ session_of kept.now }
    {
        let unheard = unheard_of(kept);
        let said = said_within(kept.said as usize, unheard.len());
        ClientSession {
            name: name_by(kept.has_name, kept.name),
            loans: kept.loans,
            unheard,
            said,
            link: link_by(kept.link, kept.open),
            unknown: kept.unknown,
        }
    }

    /// Writes the session's numbers.
    pub fn keep(&self, kept: &mut KeptSession)
        ensures { session_of kept.new ≡ self.now }
    {
        kept.loans = self.loans;
        kept.unknown = self.unknown;
        kept.link = link_number(self.link);
        kept.open = open_of(self.link);
        kept.has_name = self.name.is_some();
        kept.name = self.name.unwrap_or(kept.name);
        put_front(&mut kept.unheard, self.unheard.as_slice());
        kept.count = self.unheard.len() as u32;
        kept.said = self.said as u32;
    }
}

// Returns the name, if there is one.
fn name_by(has_name: bool, name: Name) -> Option<Name>
    ensures { result ≡ name_by has_name name }
{
    if has_name { Some(name) } else { None }
}

// Returns the slots at the places that are used.
fn unheard_of(kept: &KeptSession) -> ArrayVec<u64, MAX_UNHEARD>
    ensures { result.items ≡ unheard_of kept.now }
{
    let mut unheard = ArrayVec::new();
    let _appended = unheard.try_extend_from_slice(first(&kept.unheard, kept.count as usize));
    unheard
}

// Returns the first slots, as many as there are.
fn first(slots: &[u64], count: usize) -> &[u64]
    ensures { result.now ≡ take count slots.now }
{
    if count >= slots.len() {
        return slots;
    }
    &slots[..count]
}

// Writes slots to the first places.
fn put_front(places: &mut [u64], slots: &[u64])
    requires { length slots.now ≤ length places.old }
    ensures { take (length slots.now) places.new ≡ slots.now }
{
    places[..slots.len()].copy_from_slice(slots);
}

// Returns how many of so many slots were said.
fn said_within(said: usize, count: usize) -> usize
    ensures said { result ≡ said_within said count }
    ensures few { result ≤ count }
{
    if said <= count { said } else { count }
}

// Returns how a session is connected, by its number, and how many questions or pages are open. Any other number is that of no connection.
fn link_by(number: u8, count: u32) -> Link
    ensures { result ≡ link_by number count }
{
    match number {
        1 => Link::Greeting,
        2 => Link::Talking,
        3 => Link::Asked(count),
        4 => Link::Lending(count),
        _ => Link::Apart,
    }
}

fn link_number(link: Link) -> u8
    ensures { result ≡ link_number link }
{
    match link {
        Link::Apart => 0,
        Link::Greeting => 1,
        Link::Talking => 2,
        Link::Asked(_) => 3,
        Link::Lending(_) => 4,
    }
}

fn open_of(link: Link) -> u32
    ensures { result ≡ open_of link }
{
    match link {
        Link::Apart => 0,
        Link::Greeting => 0,
        Link::Talking => 0,
        Link::Asked(open) => open,
        Link::Lending(open) => open,
    }
}
