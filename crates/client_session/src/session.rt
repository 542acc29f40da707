//! The client's half of a session.
ghost use Rattle.std.specs.Prelude.{◌≡◌, ◌≤◌, ◌+◌, ◌++◌, nat_le, if◌then◌else◌, length, take, drop};
ghost use Rattle.arrayvec.specs.ArrayVec.{array_vec_len};
ghost use Rattle.host_messages.specs.declared.limits.TheConstants.{MAX_IN_MESSAGE};
ghost use Rattle.client_session.specs.Sessions.{nobody, wanted_of, connected, welcomed, welcomed_as, may_ask, may_lend, asked, lending, is_answer, answered, are_loans, counted, may_give_up, given_up, due, said_more, parted};

use crate::link::{Link, Welcomed};
use crate::reply::are_right;
use arrayvec::ArrayVec;
use host_messages::{Lent, MAX_IN_MESSAGE, Name, Wanted};
use std::marker::Model;

/// The most slots that were given up and that the host may not have heard of.
pub const MAX_UNHEARD: usize = 1024;

/// The client's half of a session: what it keeps while connections come and go.
#[derive(Drop)]
pub struct ClientSession {
    pub(crate) name: Option<Name>,
    pub(crate) loans: u64,
    pub(crate) unheard: ArrayVec<u64, MAX_UNHEARD>,
    pub(crate) said: usize,
    pub(crate) link: Link,
    pub(crate) unknown: bool,
}

impl Model for ClientSession {
    ghost use Rattle.std.specs.Prelude.{◌≤◌, length};
    ghost use Rattle.client_session.specs.Sessions.{SessionView};

    ghost Value = { SessionView };

    ghost view = { λ s. record { name = s.name; loans = s.loans; unheard = s.unheard.items; said = s.said; link = s.link; unknown = s.unknown } };

    ghost invariant = { λ s. s.said ≤ length s.unheard.items };
}

impl ClientSession {
    /// Returns a client that has no session.
    pub fn new() -> ClientSession
        ensures { result ≡ nobody }
    {
        ClientSession {
            name: None,
            loans: 0,
            unheard: ArrayVec::new(),
            said: 0,
            link: Link::Apart,
            unknown: false,
        }
    }

    /// A new connection takes the place of the one before. Returns what it says first, in `Hello`: the session to take up, if any.
    pub fn connect(&mut self) -> Option<Wanted>
        ensures wanted { result ≡ wanted_of self.old }
        ensures now { self.new ≡ connected self.old }
    {
        self.part();
        self.link = Link::Greeting;
        self.wanted()
    }

    /// Hears `Welcome` to a session with this name.
    pub fn welcome(&mut self, name: Name) -> Welcomed
        ensures came { result ≡ welcomed_as name self.old }
        ensures now { self.new ≡ welcomed name self.old }
    {
        if !self.link.is_greeting() {
            return Welcomed::Unasked;
        }
        if self.is_named(&name) {
            self.take_up();
            return Welcomed::TakenUp;
        }
        self.begin(name);
        Welcomed::Begun
    }

    /// So many questions are to be asked. Returns whether they may be: nothing is open, and all releases were said.
    pub fn ask(&mut self, count: u32) -> bool
        ensures may { result ≡ may_ask self.old }
        ensures now { self.new ≡ asked count self.old }
    {
        if !self.may_ask() {
            return false;
        }
        self.link = Link::Asked(count);
        true
    }

    /// So many pages are to be lent. Returns whether they may be: nothing is open, all releases were said, and a message has room.
    pub fn lend(&mut self, count: u32) -> bool
        ensures may { result ≡ may_lend count self.old }
        ensures now { self.new ≡ lending count self.old }
    {
        if !self.may_ask() || count as usize > MAX_IN_MESSAGE {
            return false;
        }
        self.link = Link::Lending(count);
        true
    }

    /// Hears so many answers. Returns whether they are those to what was asked; else the host isn't to be trusted.
    pub fn hear_answers(&mut self, count: u32) -> bool
        ensures are { result ≡ is_answer count self.old }
        ensures now { self.new ≡ answered count self.old }
    {
        if !self.link.is_asked(count) {
            return false;
        }
        self.confirm();
        true
    }

    /// Hears loans, of a host with so many frames. Returns whether they are a reply to what was to be lent; else the host isn't to be
    /// trusted, and they aren't counted.
    pub fn hear_loans(&mut self, frames: u32, loans: &[Lent]) -> bool
        ensures are { result ≡ are_loans frames loans.now self.old }
        ensures now { self.new ≡ counted frames loans.now self.old }
    {
        if !self.link.is_lent(loans.len()) || !are_right(frames, loans) {
            return false;
        }
        self.confirm();
        self.loans = self.loans.wrapping_add(1);
        true
    }

    /// Gives slots up, whose frames no page shows. Returns whether they are: no lend is open, and there is room for them. If there
    /// isn't, ask first, if about nothing.
    pub fn give_up(&mut self, slots: &[u64]) -> bool
        ensures may { result ≡ may_give_up slots.now self.old }
        ensures now { self.new ≡ given_up slots.now self.old }
    {
        if self.link.is_lending() {
            return false;
        }
        append(&mut self.unheard, slots)
    }

    /// Returns the slots of the release to be said next, none if nothing is to be released now. They count as said on this connection.
    pub fn next_release(&mut self) -> ArrayVec<u64, MAX_IN_MESSAGE>
        ensures due { result.items ≡ due self.old }
        ensures now { self.new ≡ said_more self.old }
    {
        if !self.link.is_talking() {
            return ArrayVec::new();
        }
        let slots = first_of(self.unheard.as_slice(), self.said);
        self.said += slots.len();
        slots
    }

    /// The connection has ended. What was said on it may be lost, and the reply to what is open is.
    pub fn part(&mut self)
        ensures { self.new ≡ parted self.old }
    {
        self.unknown = self.unknown || self.link.is_lending();
        self.link = Link::Apart;
        self.said = 0;
    }
}

impl ClientSession {
    ghost use Rattle.client_session.specs.Sessions.{begun, confirmed, is_named, taken_up};

    /// Returns the session that the next connection wants to take up.
    fn wanted(&self) -> Option<Wanted>
        ensures { result ≡ wanted_of self.now }
    {
        match self.name {
            None => None,
            Some(name) => Some(Wanted {
                name,
                loans: self.loans,
            }),
        }
    }

    /// Whether the session has this name.
    fn is_named(&self, name: &Name) -> bool
        ensures { result ≡ is_named name.now self.now.name }
    {
        match self.name {
            None => false,
            Some(own) => own == *name,
        }
    }

    /// Takes the session up on this connection.
    fn take_up(&mut self)
        ensures { self.new ≡ taken_up self.old }
    {
        self.link = Link::Talking;
        self.said = 0;
        self.unknown = false;
    }

    /// Begins a session with this name.
    fn begin(&mut self, name: Name)
        ensures { self.new ≡ begun name }
    {
        self.name = Some(name);
        self.loans = 0;
        self.said = 0;
        self.unheard.clear();
        self.link = Link::Talking;
        self.unknown = false;
    }

    /// Whether something may be asked for.
    fn may_ask(&self) -> bool
        ensures { result ≡ may_ask self.now }
    {
        self.link.is_talking() && self.said == self.unheard.len()
    }

    /// A reply came: the host has heard of all releases that were said.
    fn confirm(&mut self)
        ensures { self.new ≡ confirmed self.old }
    {
        let said = self.said;
        self.said = 0;
        self.unheard = rest_of(self.unheard.as_slice(), said);
        self.link = Link::Talking;
    }
}

/// Appends slots if there is room for all. Returns whether there is.
fn append(unheard: &mut ArrayVec<u64, MAX_UNHEARD>, slots: &[u64]) -> bool
    ensures fits { result ≡ nat_le (length unheard.old.items + length slots.now) MAX_UNHEARD }
    ensures now { unheard.new.items ≡ (if nat_le (length unheard.old.items + length slots.now) MAX_UNHEARD then unheard.old.items ++ slots.now else unheard.old.items) }
{
    if slots.len() > MAX_UNHEARD - unheard.len() {
        return false;
    }
    let _appended = unheard.try_extend_from_slice(slots);
    true
}

/// Returns what follows the first `said` slots.
fn rest_of(slots: &[u64], said: usize) -> ArrayVec<u64, MAX_UNHEARD>
    requires said { said ≤ length slots.now }
    requires few { length slots.now ≤ MAX_UNHEARD }
    ensures { result.items ≡ drop said slots.now }
{
    let mut rest = ArrayVec::new();
    let _appended = rest.try_extend_from_slice(&slots[said..]);
    rest
}

/// Returns the slots that follow the first `said` ones, as many as a message has room for.
fn first_of(slots: &[u64], said: usize) -> ArrayVec<u64, MAX_IN_MESSAGE>
    requires { said ≤ length slots.now }
    ensures first { result.items ≡ take MAX_IN_MESSAGE (drop said slots.now) }
    ensures fits { said + array_vec_len result ≤ length slots.now }
{
    first_in(&slots[said..])
}

/// Returns the first slots, as many as a message has room for.
fn first_in(slots: &[u64]) -> ArrayVec<u64, MAX_IN_MESSAGE>
    ensures first { result.items ≡ take MAX_IN_MESSAGE slots.now }
    ensures fits { array_vec_len result ≤ length slots.now }
{
    if slots.len() <= MAX_IN_MESSAGE {
        return copy_of(slots);
    }
    copy_of(&slots[..MAX_IN_MESSAGE])
}

/// Returns slots that a message has room for.
fn copy_of(slots: &[u64]) -> ArrayVec<u64, MAX_IN_MESSAGE>
    requires { length slots.now ≤ MAX_IN_MESSAGE }
    ensures items { result.items ≡ slots.now }
    ensures len { array_vec_len result ≡ length slots.now }
{
    let mut copy = ArrayVec::new();
    let _appended = copy.try_extend_from_slice(slots);
    copy
}
