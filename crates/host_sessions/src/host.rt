//! The host.
ghost use Rattle.std.specs.Prelude.{◌≡◌, ◌≤◌, ◌<◌, true, false, ◌+◌, ◌*◌, length, not, replicate, IfOk};
ghost use Rattle.host_sessions.specs.Table.{session_at, next_number, connected, takes, gone, is_free, wanted_in, loans_of, begun_of, new_session, no_loans, last_at, lost_of, session_slots};
ghost use Rattle.host_sessions.specs.Steps.{with_sessions, with_session, with_last, with_domain, welcome_to, Breaks, Greets, Begins, Resumes, TakesUp, Asks, Releases, LendsFirst, LendsPages, Opens, Talks, Steps, Hears, Receives, TakesBack, TakesBackAt, left_to, most_in};
ghost use Rattle.host_sessions.specs.Turns.{freed_by, after_releases, slots_in, offered};
ghost use Rattle.host_sessions.specs.Others.{SparesOthers};
ghost use Rattle.host_sessions.specs.Ends.{Ends, EndsAtOnce, EndsBegun, EndsEmpty, ended, count_of};
ghost use Rattle.host_messages.specs.Reading.{client_at};
ghost use Rattle.share_domain.specs.Bytes.{BytesStay};
ghost use Rattle.share_domain.specs.Domains.{next_client};
ghost use Rattle.share_domain.specs.Made.{AreFree};
ghost use Rattle.share_domain.specs.Totals.{domain_totals};
ghost use Rattle.share_domain.specs.declared.config.TheConstants.{MAX_MACHINES};
ghost use Rattle.page_model.specs.declared.limits.TheConstants.{MAX_FRAMES};
ghost use Rattle.host_messages.specs.declared.limits.TheConstants.{MAX_IN_MESSAGE};

use crate::allowance::{Allowance, Process};
use crate::answer::Received;
use crate::ask::ask_each;
use crate::back::{back_in, kept_in};
use crate::config::HostConfig;
use crate::find::{find_free, find_wanted};
use crate::lend::{copy_of, lend_some, offered, slots_in};
use crate::release::release_each;
use crate::session::{Begun, Link, Session, SessionFault};
use arrayvec::ArrayVec;
use fingerprint_domain::FingerprintDomain;
use host_messages::{
    ClientMessage, Lent, MAX_IN_MESSAGE, MessageFault, Name, Question, Wanted, Welcome,
};
use machine_frames::Frames;
use page_digest::PageHash;
use page_model::Page;
use recent_fingerprints::RecentFingerprints;
use share_domain::{DomainReport, NO_FRAME};
use std::alloc::{AllocError, Allocator, Global};
use std::marker::Model;

/// A host: a domain, and the sessions of its clients by their numbers.
#[derive(Drop)]
pub struct Host<H: PageHash, A: Allocator = Global> {
    frames: u32,
    quota: u32,
    client_cpu: u32,
    domain: FingerprintDomain<H, A>,
    recent: RecentFingerprints<A>,
    sessions: Vec<Session, A>,
    last: Vec<Loans, A>,
}

/// What a reply to `Lend` says.
type Loans = ArrayVec<Lent, MAX_IN_MESSAGE>;

impl<H: PageHash, A: Allocator> Model for Host<H, A> {
    ghost use Rattle.std.specs.Prelude.{◌≡◌, ◌≤◌, length};
    ghost use Rattle.host_sessions.specs.Steps.{HostView};
    ghost use Rattle.share_domain.specs.declared.config.TheConstants.{MAX_CLIENTS};

    ghost Value = { HostView };

    ghost view = { λ h. record { frames = h.frames; salt = h.domain.salt; quota = h.quota; client_cpu = h.client_cpu; domain = h.domain.domain; recent = h.recent; sessions = h.sessions.items; last = h.last.items } };

    ghost invariant = { λ h. (length h.sessions.items ≤ MAX_CLIENTS) × (length h.last.items ≡ length h.sessions.items) };
}

impl<H: PageHash + Drop + Copy, A: Allocator + Clone> Host<H, A> {
    ghost use Rattle.host_sessions.specs.Made.{AreHostLimits, empty_host};

    /// Makes a host with no session, with these frames, all of them free: those of machine 0 first, as
    /// [`FingerprintDomain::with_frames`] takes them. All its memory is allocated here.
    pub fn with_frames(
        alloc: A,
        config: &HostConfig,
        hash: H,
        frames: Vec<Frames<A>, A>,
    ) -> Result<Host<H, A>, AllocError>
        requires limits { AreHostLimits config.now }
        requires frames { AreFree config.now.domain frames.items }
        ensures { IfOk result (λ host. host ≡ empty_host config.now) }
    {
        let recent = RecentFingerprints::new(
            alloc.clone()?,
            config.recent,
            config.domain.clients,
            config.seed,
        )?;
        let sessions = new_sessions(alloc.clone()?, config.domain.clients)?;
        let last = new_last(alloc.clone()?, config.domain.clients)?;
        let domain = FingerprintDomain::with_frames(
            alloc,
            &config.domain,
            hash,
            frames,
            config.salt,
            config.seed,
        )?;
        Ok(Host {
            frames: total_frames(config.domain.machines, config.domain.frames),
            quota: config.quota,
            client_cpu: config.client_cpu,
            domain,
            recent,
            sessions,
            last,
        })
    }
}

/// Returns how many frames `machines` machines of `each` frames have.
fn total_frames(machines: u32, each: u32) -> u32
    requires machines { machines ≤ MAX_MACHINES }
    requires each { each ≤ MAX_FRAMES }
    ensures { result ≡ machines * each }
{
    machines * each
}

/// Returns a table of `count` free session entries.
fn new_sessions<A: Allocator>(alloc: A, count: u32) -> Result<Vec<Session, A>, AllocError>
    ensures { IfOk result (λ sessions. sessions.items ≡ replicate count Session.Free) }
{
    let mut sessions = Vec::with_capacity(alloc, count as usize)?;
    for _ in 0..count {
        sessions.push_reserved(Session::Free);
    }
    Ok(sessions)
}

/// Returns `count` empty lists of loans, one for the last reply of each session.
fn new_last<A: Allocator>(alloc: A, count: u32) -> Result<Vec<Loans, A>, AllocError>
    ensures { IfOk result (λ last. last.items ≡ replicate count no_loans) }
{
    let mut last = Vec::with_capacity(alloc, count as usize)?;
    for _ in 0..count {
        last.push_reserved(ArrayVec::new());
    }
    Ok(last)
}

impl<H: PageHash, A: Allocator> Host<H, A> {
    /// A peer has connected: its session gets the first number that no session has, and has said nothing. Its name is drawn at
    /// random. Returns `None` if there are as many sessions as there may be.
    pub fn connect(&mut self, name: Name) -> Option<u32>
        ensures number { result ≡ next_number self.old.sessions }
        ensures now { self.new ≡ with_sessions self.old (connected name result self.old.sessions) }
    {
        match find_free(&self.sessions) {
            None => None,
            Some(number) => {
                self.put(number, Session::Silent(name));
                Some(number)
            }
        }
    }

    /// Receives a packet of a session. `pages` are the pages of the buffer that lies beside it: `may.most` of them are enough. Whatever
    /// the bytes are, every client but the one that has the session afterwards has the same slots before and after, with the same frames.
    pub fn receive(&mut self, number: u32, bytes: &[u8], pages: &[Page], may: Allowance) -> Received
        ensures receives { Receives number bytes.now pages.now may result self.old self.new }
        ensures others { SparesOthers (session_at self.new.sessions number) self.old.domain self.new.domain }
        ensures bytes { BytesStay self.old.domain self.new.domain }
    {
        self.hear(number, bytes, pages, may)
    }

    /// Receives a packet of a session.
    fn hear(&mut self, number: u32, bytes: &[u8], pages: &[Page], may: Allowance) -> Received
        ensures { Receives number bytes.now pages.now may result self.old self.new }
    {
        if self.takes(number) {
            return self.hear_bytes(number, bytes, pages, may);
        }
        Received::NoSession
    }

    /// Receives a packet of a session that takes messages.
    fn hear_bytes(&mut self, number: u32, bytes: &[u8], pages: &[Page], may: Allowance) -> Received
        requires { number < length self.old.sessions }
        ensures { Hears number may pages.now (session_at self.old.sessions number) (client_at bytes.now) result self.old self.new }
    {
        let session = self.session(number);
        let read = ClientMessage::from_bytes(bytes);
        self.hear_read(number, session, read, pages, may)
    }

    /// Receives what a packet was read as.
    fn hear_read(
        &mut self,
        number: u32,
        session: Session,
        read: Result<ClientMessage, MessageFault>,
        pages: &[Page],
        may: Allowance,
    ) -> Received
        requires { number < length self.old.sessions }
        ensures { Hears number may pages.now session read result self.old self.new }
    {
        match read {
            Err(fault) => self.break_off(number, session, SessionFault::Message(fault)),
            Ok(message) => self.step(number, session, message, pages, may),
        }
    }

    /// A session's connection has ended. A session that has begun keeps its number and its slots, and can be resumed by its name.
    /// Returns whether there was a session.
    pub fn disconnect(&mut self, number: u32) -> bool
        ensures there { result ≡ not (is_free (session_at self.old.sessions number)) }
        ensures now { self.new ≡ with_session self.old number (gone (session_at self.old.sessions number)) }
    {
        let session = self.session(number);
        if session.is_free() {
            return false;
        }
        self.put(number, session.gone());
        true
    }

    /// A session's process has ended. Releases as many of its slots as `freed` has places, and returns how many, as
    /// [`FingerprintDomain::leave`] does. Call it until it returns 0: then no session has the number. Returns `None` if none has it.
    pub fn end(&mut self, number: u32, freed: &mut [u32]) -> Option<usize>
        requires room { 1 ≤ length freed.old }
        ensures ends { Ends number (session_at self.old.sessions number) result freed.old freed.new self.old self.new }
        ensures others { SparesOthers (session_at self.old.sessions number) self.old.domain self.new.domain }
        ensures bytes { BytesStay self.old.domain self.new.domain }
    {
        self.end_number(number, freed)
    }

    /// Ends a session if it has no slots, and returns whether it has none. Call it when a session's connection has ended.
    pub fn end_empty(&mut self, number: u32) -> bool
        ensures ends { EndsEmpty number (session_at self.old.sessions number) result self.old self.new }
        ensures others { SparesOthers (session_at self.old.sessions number) self.old.domain self.new.domain }
        ensures bytes { BytesStay self.old.domain self.new.domain }
    {
        if self.slots_of(number) > 0 {
            return false;
        }
        let mut freed = [NO_FRAME];
        self.end_at_once(number, &mut freed);
        true
    }

    /// Ends a session that has no slots.
    fn end_at_once(&mut self, number: u32, freed: &mut [u32])
        requires empty { session_slots self.old.domain.machines (session_at self.old.sessions number) ≡ 0 }
        requires room { 1 ≤ length freed.old }
        ensures ends { EndsAtOnce number (session_at self.old.sessions number) self.old self.new }
        ensures others { SparesOthers (session_at self.old.sessions number) self.old.domain self.new.domain }
        ensures bytes { BytesStay self.old.domain self.new.domain }
    {
        let _count = self.end(number, freed);
    }

    /// Returns the session with this number, `Free` if there is no such number.
    pub fn session(&self, number: u32) -> Session
        ensures session { result ≡ session_at self.now.sessions number }
        ensures within { is_free result ≡ false → number < length self.now.sessions }
    {
        if number as usize >= self.sessions.len() {
            return Session::Free;
        }
        self.sessions[number as usize]
    }

    /// Returns how many slots a session has: as many as its client holds.
    pub fn slots_of(&self, number: u32) -> u32
        ensures { result ≡ session_slots self.now.domain.machines (session_at self.now.sessions number) }
    {
        match self.session(number) {
            Session::Free => 0,
            Session::Silent(_) => 0,
            Session::Refused(_) => 0,
            Session::Begun(begun) => self.domain.held_by(begun.client),
        }
    }

    /// Returns what the domain counts. It looks at each slot.
    pub fn report(&self) -> DomainReport
        ensures { result ≡ domain_totals self.now.domain }
    {
        self.domain.report()
    }

    /// Whether a session takes messages.
    fn takes(&self, number: u32) -> bool
        ensures takes { result ≡ takes (session_at self.now.sessions number) }
        ensures within { result ≡ true → number < length self.now.sessions }
    {
        if number as usize >= self.sessions.len() {
            return false;
        }
        self.sessions[number as usize].takes()
    }

    /// Puts a session in the place of another.
    fn put(&mut self, number: u32, session: Session)
        requires { number < length self.old.sessions }
        ensures { self.new ≡ with_session self.old number session }
    {
        self.sessions[number as usize] = session;
    }

    /// Notes a session's last reply to `Lend`.
    fn put_last(&mut self, number: u32, loans: Loans)
        requires { number < length self.old.sessions }
        ensures { self.new ≡ with_last self.old number loans.items }
    {
        self.last[number as usize] = loans;
    }

    /// Notes that a packet was at fault.
    fn break_off(&mut self, number: u32, session: Session, fault: SessionFault) -> Received
        requires { number < length self.old.sessions }
        ensures { Breaks number session fault result self.old self.new }
    {
        self.put(number, session.faulted(fault));
        Received::Fault(fault)
    }

    /// Does what a message says.
    fn step(
        &mut self,
        number: u32,
        session: Session,
        message: ClientMessage,
        pages: &[Page],
        may: Allowance,
    ) -> Received
        requires { number < length self.old.sessions }
        ensures { Steps number may pages.now session message result self.old self.new }
    {
        match session {
            Session::Free => Received::NoSession,
            Session::Refused(_) => Received::NoSession,
            Session::Silent(name) => self.open(number, name, message, may.process),
            Session::Begun(begun) => {
                let most = self.most_in(begun, may.most, may.process);
                self.talk(number, begun, message, pages, most)
            }
        }
    }

    /// Returns how many pages of a session's `Lend` may be lent: as many as the caller says, and no more than its process may have.
    fn most_in(&self, begun: Begun, most: u32, process: Process) -> u32
        ensures { result ≡ most_in self.now begun most process }
    {
        match process {
            Process::Unknown => most,
            Process::Alone => most,
            Process::Beside(other) => offered(most, self.left_to(begun, other)),
        }
    }

    /// Returns how many more slots a process may have that has this session and the one with this number.
    fn left_to(&self, begun: Begun, other: u32) -> u32
        ensures { result ≡ left_to self.now begun other }
    {
        let left = self.quota.saturating_sub(self.domain.held_by(begun.client));
        left.saturating_sub(self.slots_of(other))
    }

    /// Does what a session's first message says.
    fn open(
        &mut self,
        number: u32,
        name: Name,
        message: ClientMessage,
        process: Process,
    ) -> Received
        requires { number < length self.old.sessions }
        ensures { Opens number process name message result self.old self.new }
    {
        match message {
            ClientMessage::Hello(wanted) => self.greet(number, name, wanted, process),
            ClientMessage::Ask(_) => {
                self.break_off(number, Session::Silent(name), SessionFault::Early)
            }
            ClientMessage::Lend(_) => {
                self.break_off(number, Session::Silent(name), SessionFault::Early)
            }
            ClientMessage::Release(_) => {
                self.break_off(number, Session::Silent(name), SessionFault::Early)
            }
        }
    }

    /// Takes up the session that the client wants, if it may, or begins one.
    fn greet(
        &mut self,
        number: u32,
        name: Name,
        wanted: Option<Wanted>,
        process: Process,
    ) -> Received
        requires { number < length self.old.sessions }
        ensures { Greets number name (wanted_in self.old.sessions process wanted) (loans_of wanted) result self.old self.new }
    {
        match find_wanted(&self.sessions, process, &wanted) {
            None => self.begin(number, name),
            Some(before) => self.take_up(number, before, loans_of(&wanted)),
        }
    }

    /// Begins a session, with a new client.
    fn begin(&mut self, number: u32, name: Name) -> Received
        requires { number < length self.old.sessions }
        ensures { Begins number name (next_client self.old.domain) result self.old self.new }
    {
        match self.domain.enter() {
            None => self.break_off(number, Session::Silent(name), SessionFault::Clients),
            Some(client) => {
                self.put(number, Session::Begun(new_session(name, client)));
                self.put_last(number, ArrayVec::new());
                Received::Welcome(self.welcome_to(name))
            }
        }
    }

    /// Resumes the session `before`, whose client has received `loans` replies to `Lend`. It is number `number` from now on.
    fn take_up(&mut self, number: u32, before: u32, loans: u64) -> Received
        requires number { number < length self.old.sessions }
        requires before { before < length self.old.sessions }
        ensures { TakesUp number before (begun_of (session_at self.old.sessions before)) loans result self.old self.new }
    {
        match self.begun(before) {
            None => Received::NoSession,
            Some(begun) => self.resume(number, before, begun, loans),
        }
    }

    /// Takes up this session.
    fn resume(&mut self, number: u32, before: u32, begun: Begun, loans: u64) -> Received
        requires number { number < length self.old.sessions }
        requires before { before < length self.old.sessions }
        ensures { Resumes number before begun loans (lost_of begun loans (last_at self.old.last before)) result self.old self.new }
    {
        let lost = self.release_lost(before, begun, loans);
        self.put(before, Session::Free);
        self.put(number, Session::Begun(begun.heard_with(loans)));
        self.put_last(number, ArrayVec::new());
        let name = begun.name;
        Received::Resumed(self.welcome_to(name), before, lost)
    }

    /// Releases the slots of a session's last reply to `Lend`, if its client didn't get that.
    #[tactic(auto, unfolding(crate::specs::Turns::freed_by, crate::specs::Turns::after_releases, crate::specs::Turns::slots_in))]
    fn release_lost(
        &mut self,
        before: u32,
        begun: Begun,
        loans: u64,
    ) -> ArrayVec<u32, MAX_IN_MESSAGE>
        requires { before < length self.old.sessions }
        ensures freed { result.items ≡ freed_by begun.client (slots_in (lost_of begun loans (last_at self.old.last before))) self.old.domain }
        ensures now { self.new ≡ with_domain self.old (after_releases begun.client (slots_in (lost_of begun loans (last_at self.old.last before))) self.old.domain) }
    {
        if loans == begun.loans {
            return ArrayVec::new();
        }
        let slots = slots_in(self.last[before as usize].as_slice());
        release_each(&mut self.domain, begun.client, slots.as_slice())
    }

    /// Returns a session if it has begun.
    fn begun(&self, number: u32) -> Option<Begun>
        ensures { result ≡ begun_of (session_at self.now.sessions number) }
    {
        match self.session(number) {
            Session::Free => None,
            Session::Silent(_) => None,
            Session::Refused(_) => None,
            Session::Begun(begun) => Some(begun),
        }
    }

    /// Returns the first message to a session with this name.
    fn welcome_to(&self, name: Name) -> Welcome
        ensures { result ≡ welcome_to self.now name }
    {
        Welcome {
            name,
            frames: self.frames,
            salt: self.domain.salt(),
            most: MAX_IN_MESSAGE as u32,
            client_cpu: self.client_cpu,
        }
    }

    /// Does what a message says in a session that has begun.
    fn talk(
        &mut self,
        number: u32,
        begun: Begun,
        message: ClientMessage,
        pages: &[Page],
        most: u32,
    ) -> Received
        requires { number < length self.old.sessions }
        ensures { Talks number most pages.now begun message result self.old self.new }
    {
        match message {
            ClientMessage::Hello(_) => {
                self.break_off(number, Session::Begun(begun), SessionFault::Again)
            }
            ClientMessage::Ask(questions) => self.ask(number, begun, questions.as_slice()),
            ClientMessage::Lend(count) => self.lend_first(number, begun, count, most, pages),
            ClientMessage::Release(slots) => self.release(number, begun, slots.as_slice()),
        }
    }

    /// Answers a client's questions.
    fn ask(&mut self, number: u32, begun: Begun, questions: &[Question]) -> Received
        requires number { number < length self.old.sessions }
        requires few { length questions.now ≤ MAX_IN_MESSAGE }
        ensures { Asks number begun questions.now result self.old self.new }
    {
        let answers = ask_each(&self.domain, &mut self.recent, begun.client, questions);
        self.put(number, Session::Begun(begun.heard()));
        Received::Seen(answers)
    }

    /// Releases slots.
    fn release(&mut self, number: u32, begun: Begun, slots: &[u64]) -> Received
        requires number { number < length self.old.sessions }
        requires few { length slots.now ≤ MAX_IN_MESSAGE }
        ensures { Releases number begun slots.now result self.old self.new }
    {
        let freed = release_each(&mut self.domain, begun.client, slots);
        self.put(number, Session::Begun(begun.heard()));
        Received::Released(freed)
    }

    /// Lends the first `count` pages of a buffer, but no more than `most`. If it has fewer, or a message can't list as many, the session
    /// breaks off.
    fn lend_first(
        &mut self,
        number: u32,
        begun: Begun,
        count: u32,
        most: u32,
        pages: &[Page],
    ) -> Received
        requires { number < length self.old.sessions }
        ensures { LendsFirst number begun count most pages.now result self.old self.new }
    {
        let first = offered(count, most);
        if pages.len() < first as usize {
            return self.break_off(number, Session::Begun(begun), SessionFault::Pages);
        }
        if count as usize > MAX_IN_MESSAGE {
            return self.break_off(number, Session::Begun(begun), SessionFault::Pages);
        }
        self.lend(
            number,
            begun,
            &pages[..first as usize],
            (count - first) as usize,
        )
    }

    /// Lends pages. `others` pages after them aren't lent.
    fn lend(&mut self, number: u32, begun: Begun, pages: &[Page], others: usize) -> Received
        requires number { number < length self.old.sessions }
        requires few { length pages.now + others ≤ MAX_IN_MESSAGE }
        ensures { LendsPages number begun pages.now others result self.old self.new }
    {
        let loans = lend_some(&mut self.domain, begun.client, self.quota, pages, others);
        self.put(number, Session::Begun(begun.lent()));
        self.put_last(number, copy_of(loans.as_slice()));
        Received::Loans(loans)
    }

    /// Takes back those loans of a session's last reply to `Lend` that are in these frames, and returns what the reply says then. Call it
    /// before the reply is sent: its client knows of none of them.
    pub fn take_back(&mut self, number: u32, frames: &[u32]) -> Received
        ensures takes_back { TakesBackAt number (session_at self.old.sessions number) frames.now result self.old self.new }
        ensures others { SparesOthers (session_at self.new.sessions number) self.old.domain self.new.domain }
        ensures bytes { BytesStay self.old.domain self.new.domain }
    {
        self.take_back_in(number, frames)
    }

    /// Takes back loans of a session.
    fn take_back_in(&mut self, number: u32, frames: &[u32]) -> Received
        ensures { TakesBackAt number (session_at self.old.sessions number) frames.now result self.old self.new }
    {
        let session = self.session(number);
        self.take_back_as(number, session, frames)
    }

    /// Takes back loans, if the session has begun.
    fn take_back_as(&mut self, number: u32, session: Session, frames: &[u32]) -> Received
        requires { is_free session ≡ false → number < length self.old.sessions }
        ensures { TakesBackAt number session frames.now result self.old self.new }
    {
        match session {
            Session::Free => Received::NoSession,
            Session::Silent(_) => Received::NoSession,
            Session::Refused(_) => Received::NoSession,
            Session::Begun(begun) => self.take_back_of(number, begun, frames),
        }
    }

    /// Takes back loans of a session that has begun.
    fn take_back_of(&mut self, number: u32, begun: Begun, frames: &[u32]) -> Received
        requires { number < length self.old.sessions }
        ensures { TakesBack number begun frames.now (last_at self.old.last number) result self.old self.new }
    {
        let back = back_in(frames, self.last[number as usize].as_slice());
        let kept = kept_in(frames, self.last[number as usize].as_slice());
        let slots = slots_in(back.as_slice());
        release_each(&mut self.domain, begun.client, slots.as_slice());
        self.put_last(number, copy_of(kept.as_slice()));
        Received::Loans(kept)
    }

    /// Ends the session with a number.
    fn end_number(&mut self, number: u32, freed: &mut [u32]) -> Option<usize>
        requires room { 1 ≤ length freed.old }
        ensures { Ends number (session_at self.old.sessions number) result freed.old freed.new self.old self.new }
    {
        let session = self.session(number);
        self.end_as(number, session, freed)
    }

    /// Ends a session.
    fn end_as(&mut self, number: u32, session: Session, freed: &mut [u32]) -> Option<usize>
        requires room { 1 ≤ length freed.old }
        requires number { is_free session ≡ false → number < length self.old.sessions }
        ensures { Ends number session result freed.old freed.new self.old self.new }
    {
        match session {
            Session::Free => None,
            Session::Silent(_) => {
                self.put(number, Session::Free);
                Some(0)
            }
            Session::Refused(_) => {
                self.put(number, Session::Free);
                Some(0)
            }
            Session::Begun(begun) => Some(self.leave(number, begun, freed)),
        }
    }

    /// Lets a session's client leave the domain.
    fn leave(&mut self, number: u32, begun: Begun, freed: &mut [u32]) -> usize
        requires room { 1 ≤ length freed.old }
        requires number { number < length self.old.sessions }
        ensures { EndsBegun number begun result freed.old freed.new self.old self.new }
    {
        let answer = self.domain.leave(begun.client, freed);
        self.recent.forget(begun.client);
        let count = count_of(answer);
        self.put(number, ended(begun, count));
        count
    }
}

/// Returns how many slots were released.
fn count_of(answer: Option<usize>) -> usize
    ensures { result ≡ count_of answer }
{
    match answer {
        None => 0,
        Some(count) => count,
    }
}

/// Returns how many replies to `Lend` a client has received in the session that it asks to resume, 0 if it asks for none.
fn loans_of(wanted: &Option<Wanted>) -> u64
    ensures { result ≡ loans_of wanted.now }
{
    match wanted {
        None => 0,
        Some(wanted) => wanted.loans,
    }
}

/// Returns a session after its first message.
fn new_session(name: Name, client: u32) -> Begun
    ensures { result ≡ new_session name client }
{
    Begun {
        name,
        client,
        messages: 1,
        loans: 0,
        link: Link::Talking,
    }
}

/// Returns a session whose process has ended, after `count` of its slots were released.
fn ended(begun: Begun, count: usize) -> Session
    ensures { result ≡ ended begun count }
{
    if count == 0 {
        return Session::Free;
    }
    let name = begun.name;
    Session::Begun(Begun {
        name,
        client: begun.client,
        messages: begun.messages,
        loans: begun.loans,
        link: Link::Ended,
    })
}
