//! What a client says.
ghost use Rattle.std.specs.Prelude.{◌≡◌, ◌≤◌, ◌+◌, ◌++◌, length, take, IfOk, Ok};
ghost use Rattle.arrayvec.specs.ArrayVec.{array_vec_len};
ghost use Rattle.host_messages.specs.Spelling.{client_bytes, wanted_bytes, ClientFits};
ghost use Rattle.host_messages.specs.Reading.{client_at, hello_of, ask_of, lend_of, release_of};
ghost use Rattle.host_messages.specs.declared.limits.TheConstants.{MAX_IN_MESSAGE, MAX_MESSAGE_BYTES, NAME_BYTES};

use crate::fault::MessageFault;
use crate::item::{Packet, Question, put_bytes, put_u64, read_u32, read_u64};
use crate::limits::{
    ASK, HEAD_BYTES, HELLO, LEND, MAX_IN_MESSAGE, NAME_BYTES, RELEASE, VERSION, WANTED_BYTES,
};
use crate::list::{count_fault, put_head, put_items, read_items};
use arrayvec::ArrayVec;

/// A session's name.
pub type Name = [u8; NAME_BYTES];

/// The session that a client asks to resume.
#[derive(Clone, Copy, Debug, PartialEq, Eq)]
pub struct Wanted {
    /// The session's name.
    pub name: Name,
    /// How many replies to `Lend` the client has received in it. The host releases the slots of a later reply.
    pub loans: u64,
}

/// A message of a client.
#[derive(Clone, Debug, PartialEq, Eq, Drop)]
pub enum ClientMessage {
    /// The first message. It resumes this session, or begins a new one if it is `None`.
    Hello(Option<Wanted>),
    /// Whether other pages have these fingerprints.
    Ask(ArrayVec<Question, MAX_IN_MESSAGE>),
    /// So many pages are lent, from the first one of the buffer beside the message on.
    Lend(u32),
    /// These slots are released.
    Release(ArrayVec<u64, MAX_IN_MESSAGE>),
}

impl ClientMessage {
    /// Reads a client's message from a packet.
    pub fn from_bytes(bytes: &[u8]) -> Result<ClientMessage, MessageFault>
        ensures exact { result ≡ client_at bytes.now }
        ensures found { IfOk result (λ m. ClientFits m × (client_bytes m ≡ bytes.now)) }
        ensures only { (m : ClientMessage) → ClientFits m → bytes.now ≡ client_bytes m → result ≡ Ok m }
    {
        read(bytes)
    }

    /// Returns the message as a packet.
    pub fn to_bytes(&self) -> Packet
        ensures { result.items ≡ client_bytes self.now }
    {
        let mut packet = ArrayVec::new();
        match self {
            ClientMessage::Hello(None) => put_head(&mut packet, HELLO, VERSION),
            ClientMessage::Hello(Some(wanted)) => {
                put_head(&mut packet, HELLO, VERSION);
                put_wanted(&mut packet, wanted);
            }
            ClientMessage::Ask(questions) => {
                put_head(&mut packet, ASK, questions.len() as u32);
                put_items(&mut packet, questions.as_slice());
            }
            ClientMessage::Lend(count) => put_head(&mut packet, LEND, *count),
            ClientMessage::Release(slots) => {
                put_head(&mut packet, RELEASE, slots.len() as u32);
                put_items(&mut packet, slots.as_slice());
            }
        }
        packet
    }
}

/// Reads a client's message.
#[tactic(auto, unfolding(crate::specs::Reading::client_at))]
fn read(bytes: &[u8]) -> Result<ClientMessage, MessageFault>
    ensures { result ≡ client_at bytes.now }
{
    if bytes.len() < HEAD_BYTES {
        return Err(MessageFault::Head);
    }
    let kind = read_u32(bytes, 0);
    let number = read_u32(bytes, 4);
    let (_head, rest) = bytes.split_at(HEAD_BYTES);
    if kind == HELLO {
        return read_hello(number, rest);
    }
    if kind == ASK {
        return read_ask(number, rest);
    }
    if kind == LEND {
        return read_lend(number, rest);
    }
    if kind == RELEASE {
        return read_release(number, rest);
    }
    Err(MessageFault::Kind)
}

/// Reads what follows a head of `HELLO`.
#[tactic(auto, unfolding(crate::specs::Reading::hello_of))]
fn read_hello(version: u32, rest: &[u8]) -> Result<ClientMessage, MessageFault>
    ensures { result ≡ hello_of version rest.now }
{
    if version != VERSION {
        return Err(MessageFault::Version);
    }
    if rest.is_empty() {
        return Ok(ClientMessage::Hello(None));
    }
    if rest.len() != WANTED_BYTES {
        return Err(MessageFault::Length);
    }
    let name = read_name(rest);
    let loans = read_u64(rest, NAME_BYTES);
    Ok(ClientMessage::Hello(Some(Wanted { name, loans })))
}

/// Reads a name.
pub(crate) fn read_name(bytes: &[u8]) -> Name
    requires { NAME_BYTES ≤ length bytes.now }
    ensures { result ≡ take NAME_BYTES bytes.now }
{
    let mut name = [0; NAME_BYTES];
    name.copy_from_slice(&bytes[..NAME_BYTES]);
    name
}

/// Appends the session that a client asks to resume to a packet.
fn put_wanted(packet: &mut Packet, wanted: &Wanted)
    requires { array_vec_len packet.old + 24 ≤ MAX_MESSAGE_BYTES }
    ensures { packet.new.items ≡ packet.old.items ++ wanted_bytes wanted.now }
{
    put_bytes(packet, &wanted.name);
    put_u64(packet, wanted.loans);
}

/// Reads what follows a head of `ASK`.
#[tactic(auto, unfolding(crate::specs::Reading::ask_of))]
fn read_ask(count: u32, rest: &[u8]) -> Result<ClientMessage, MessageFault>
    ensures { result ≡ ask_of count rest.now }
{
    match count_fault(count, 16, rest) {
        Some(fault) => Err(fault),
        None => Ok(ClientMessage::Ask(read_items(count as usize, rest))),
    }
}

/// Reads what follows a head of `LEND`.
#[tactic(auto, unfolding(crate::specs::Reading::lend_of))]
fn read_lend(count: u32, rest: &[u8]) -> Result<ClientMessage, MessageFault>
    ensures { result ≡ lend_of count rest.now }
{
    match count_fault(count, 0, rest) {
        Some(fault) => Err(fault),
        None => Ok(ClientMessage::Lend(count)),
    }
}

/// Reads what follows a head of `RELEASE`.
#[tactic(auto, unfolding(crate::specs::Reading::release_of))]
fn read_release(count: u32, rest: &[u8]) -> Result<ClientMessage, MessageFault>
    ensures { result ≡ release_of count rest.now }
{
    match count_fault(count, 8, rest) {
        Some(fault) => Err(fault),
        None => Ok(ClientMessage::Release(read_items(count as usize, rest))),
    }
}
