//! What a guest's line says, before the request that it asks for is made.
ghost use Rattle.std.specs.Prelude.{◌≡◌, ◌/◌, length, IfOk, IsTrue};
ghost use Rattle.text_words.specs.Words.{spelled, is_bytes_word};
ghost use Rattle.journal_text.specs.Requests.{stored, loaded, IsPlain};
ghost use Rattle.journal_text.specs.Asked.{asked_of, entry_of, IsSpelled, IsNoClose};

use page_model::{Entry, MAX_ACCESS_BYTES, Request, RequestFault};
use text_words::Cause;

/// What a line asks for by its words: its numbers are read, and the bytes of a store are still the word that spells them.
///
/// So it is small, and a request is made once, where it is to lie.
#[derive(Drop)]
pub enum Said<'a> {
    /// A proposal of this page.
    Propose(u32),
    /// A store to this page, from this place on, of the bytes that a word spells.
    Store(u32, u32, &'a [u8]),
    /// A load from this page: the first place, and how many bytes.
    Load(u32, u32, u32),
    /// A release of this page.
    Release(u32),
    /// The counts.
    Count,
    /// The guest's end.
    Close,
}

/// A request that a line asks for, or what is wrong with its numbers.
pub type Asked = Result<Request, Cause>;

impl Said<'_> {
    /// Makes the request.
    #[inline(always)]
    pub fn request(self) -> Asked
        requires { IsSpelled self }
        ensures value { result ≡ asked_of self.entry }
        ensures plain { IsNoClose self.entry → IsPlain result }
    {
        match self {
            Said::Propose(ppn) => Ok(Request::Propose(ppn)),
            Said::Store(ppn, at, word) => stored(ppn, at, word),
            Said::Load(ppn, at, len) => loaded(ppn, at, len),
            Said::Release(ppn) => Ok(Request::Release(ppn)),
            Said::Count => Ok(Request::Count),
            Said::Close => Ok(Request::Close),
        }
    }
}

/// What the line of a guest says.
#[derive(Drop)]
pub struct SaidBy<'a> {
    pub guest: u8,
    pub said: Said<'a>,
}

impl SaidBy<'_> {
    /// Makes the journal's entry, or returns what is wrong with the line's numbers.
    #[inline(always)]
    pub fn entry(self) -> Result<Entry, Cause>
        requires { IsSpelled self.said }
        ensures value { result ≡ entry_of self.entry }
        ensures guest { IfOk result (λ entry. entry.guest ≡ self.entry.guest) }
    {
        let request = self.said.request()?;
        Ok(Entry {
            guest: self.guest,
            request,
        })
    }
}

/// Makes the store of the bytes that a word spells.
#[inline(always)]
fn stored(ppn: u32, at: u32, word: &[u8]) -> Asked
    requires { IsTrue (is_bytes_word word.now) }
    ensures value { result ≡ stored ppn at (spelled word.now) }
    ensures plain { IsPlain result }
{
    if word.len() > 2 * MAX_ACCESS_BYTES {
        return Err(Cause::Length);
    }
    let mut room = [0; MAX_ACCESS_BYTES];
    let bytes = &mut room[..word.len() / 2];
    unpack(word, bytes);
    match Request::store(ppn, at, bytes) {
        Ok(request) => Ok(request),
        Err(RequestFault::Length) => Err(Cause::Length),
        Err(RequestFault::Crosses) => Err(Cause::Crosses),
    }
}

/// Writes the bytes that a word spells.
fn unpack(word: &[u8], bytes: &mut [u8])
    requires word { IsTrue (is_bytes_word word.now) }
    requires room { length bytes.old ≡ length word.now / 2 }
    ensures { bytes.new ≡ spelled word.now }
{
    let _ = hex::decode_to_slice(word, bytes);
}

#[inline(always)]
fn loaded(ppn: u32, at: u32, len: u32) -> Asked
    ensures value { result ≡ loaded ppn at len }
    ensures plain { IsPlain result }
{
    match Request::load(ppn, at, len) {
        Ok(request) => Ok(request),
        Err(RequestFault::Length) => Err(Cause::Length),
        Err(RequestFault::Crosses) => Err(Cause::Crosses),
    }
}
