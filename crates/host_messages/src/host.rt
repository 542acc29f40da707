//! What a host says.
ghost use Rattle.std.specs.Prelude.{◌≡◌, ◌≤◌, ◌+◌, ◌++◌, length, map, IfOk, Ok};
ghost use Rattle.arrayvec.specs.ArrayVec.{array_vec_len};
ghost use Rattle.host_messages.specs.HostSpelling.{host_bytes, welcome_bytes, answer_byte, HostFits};
ghost use Rattle.host_messages.specs.HostReading.{host_at, welcome_of, seen_of, answers_of, answer_of, is_no_answer, loans_of};
ghost use Rattle.std.specs.List.{list_any};
ghost use Rattle.host_messages.specs.declared.limits.TheConstants.{MAX_IN_MESSAGE, MAX_MESSAGE_BYTES};

use crate::client::{Name, read_name};
use crate::fault::MessageFault;
use crate::item::{Lent, Packet, put_bytes, put_u32, read_u32};
use crate::limits::{HEAD_BYTES, LOANS, MAX_IN_MESSAGE, SEEN, VERSION, WELCOME};
use crate::list::{count_fault, put_head, put_items, read_items};
use arrayvec::ArrayVec;

/// The answer to a `Hello`.
#[derive(Clone, Copy, Debug, PartialEq, Eq)]
pub struct Welcome {
    /// The session's name.
    pub name: Name,
    /// How many frames the file of frames has.
    pub frames: u32,
    /// The salt of fingerprints.
    pub salt: u32,
    /// The most pages in one message.
    pub most: u32,
    /// The percentage of one processor that the client may use to share, or 0: the host says nothing.
    pub client_cpu: u32,
}

/// A message of a host.
#[derive(Clone, Debug, PartialEq, Eq, Drop)]
pub enum HostMessage {
    /// The answer to `Hello`.
    Welcome(Welcome),
    /// The answer to `Ask`: for each page, whether another page with its fingerprint was asked about lately, or a frame in use
    /// has this fingerprint.
    Seen(ArrayVec<bool, MAX_IN_MESSAGE>),
    /// The answer to `Lend`: what became of each page.
    Loans(ArrayVec<Lent, MAX_IN_MESSAGE>),
}

impl HostMessage {
    /// Reads a host's message from a packet.
    pub fn from_bytes(bytes: &[u8]) -> Result<HostMessage, MessageFault>
        ensures exact { result ≡ host_at bytes.now }
        ensures found { IfOk result (λ m. HostFits m × (host_bytes m ≡ bytes.now)) }
        ensures only { (m : HostMessage) → HostFits m → bytes.now ≡ host_bytes m → result ≡ Ok m }
    {
        read(bytes)
    }

    /// Returns the message as a packet.
    pub fn to_bytes(&self) -> Packet
        ensures { result.items ≡ host_bytes self.now }
    {
        let mut packet = ArrayVec::new();
        match self {
            HostMessage::Welcome(welcome) => {
                put_head(&mut packet, WELCOME, VERSION);
                put_welcome(&mut packet, welcome);
            }
            HostMessage::Seen(answers) => {
                put_head(&mut packet, SEEN, answers.len() as u32);
                put_answers(&mut packet, answers.as_slice());
            }
            HostMessage::Loans(loans) => {
                put_head(&mut packet, LOANS, loans.len() as u32);
                put_items(&mut packet, loans.as_slice());
            }
        }
        packet
    }
}

/// Puts what a `Welcome` says at a packet's end.
fn put_welcome(packet: &mut Packet, welcome: &Welcome)
    requires { array_vec_len packet.old + 32 ≤ MAX_MESSAGE_BYTES }
    ensures { packet.new.items ≡ packet.old.items ++ welcome_bytes welcome.now }
{
    put_bytes(packet, &welcome.name);
    put_u32(packet, welcome.frames);
    put_u32(packet, welcome.salt);
    put_u32(packet, welcome.most);
    put_u32(packet, welcome.client_cpu);
}

/// Appends answers to a packet, a byte each.
fn put_answers(packet: &mut Packet, answers: &[bool])
    requires { array_vec_len packet.old + length answers.now ≤ MAX_MESSAGE_BYTES }
    ensures { packet.new.items ≡ packet.old.items ++ map answer_byte answers.now }
{
    for answer in answers {
        packet.push(answer_byte(*answer));
    }
}

/// Returns an answer's byte.
fn answer_byte(answer: bool) -> u8
    ensures { result ≡ answer_byte answer }
{
    if answer { 1 } else { 0 }
}

/// Reads a host's message.
#[tactic(auto, unfolding(crate::specs::HostReading::host_at))]
fn read(bytes: &[u8]) -> Result<HostMessage, MessageFault>
    ensures { result ≡ host_at bytes.now }
{
    if bytes.len() < HEAD_BYTES {
        return Err(MessageFault::Head);
    }
    let kind = read_u32(bytes, 0);
    let number = read_u32(bytes, 4);
    let (_head, rest) = bytes.split_at(HEAD_BYTES);
    if kind == WELCOME {
        return read_welcome(number, rest);
    }
    if kind == SEEN {
        return read_seen(number, rest);
    }
    if kind == LOANS {
        return read_loans(number, rest);
    }
    Err(MessageFault::Kind)
}

/// Reads what follows a head of `WELCOME`.
#[tactic(auto, unfolding(crate::specs::HostReading::welcome_of))]
fn read_welcome(version: u32, rest: &[u8]) -> Result<HostMessage, MessageFault>
    ensures { result ≡ welcome_of version rest.now }
{
    if version != VERSION {
        return Err(MessageFault::Version);
    }
    if rest.len() != 32 {
        return Err(MessageFault::Length);
    }
    let frames = read_u32(rest, 16);
    let salt = read_u32(rest, 20);
    let most = read_u32(rest, 24);
    let client_cpu = read_u32(rest, 28);
    Ok(HostMessage::Welcome(Welcome {
        name: read_name(rest),
        frames,
        salt,
        most,
        client_cpu,
    }))
}

/// Reads what follows a head of `SEEN`.
#[tactic(auto, unfolding(crate::specs::HostReading::seen_of))]
fn read_seen(count: u32, rest: &[u8]) -> Result<HostMessage, MessageFault>
    ensures { result ≡ seen_of count rest.now }
{
    match count_fault(count, 1, rest) {
        Some(fault) => Err(fault),
        None => read_answers(rest),
    }
}

/// Reads the answers of `Seen`.
fn read_answers(rest: &[u8]) -> Result<HostMessage, MessageFault>
    requires { length rest.now ≤ MAX_IN_MESSAGE }
    ensures { result ≡ answers_of rest.now }
{
    if has_other(rest) {
        return Err(MessageFault::Answer);
    }
    Ok(HostMessage::Seen(answers_in(rest)))
}

/// Whether one of these bytes is no answer.
fn has_other(bytes: &[u8]) -> bool
    ensures { result ≡ list_any is_no_answer bytes.now }
{
    bytes.iter().any(|byte| *byte > 1)
}

/// Returns the answers of these bytes.
fn answers_in(bytes: &[u8]) -> ArrayVec<bool, MAX_IN_MESSAGE>
    requires { length bytes.now ≤ MAX_IN_MESSAGE }
    ensures { result.items ≡ map answer_of bytes.now }
{
    let mut answers = ArrayVec::new();
    for byte in bytes {
        answers.push(*byte == 1);
    }
    answers
}

/// Reads what follows a head of `LOANS`.
#[tactic(auto, unfolding(crate::specs::HostReading::loans_of))]
fn read_loans(count: u32, rest: &[u8]) -> Result<HostMessage, MessageFault>
    ensures { result ≡ loans_of count rest.now }
{
    match count_fault(count, 16, rest) {
        Some(fault) => Err(fault),
        None => Ok(HostMessage::Loans(read_items(count as usize, rest))),
    }
}
