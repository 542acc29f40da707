//! What packets of clients say, before a session receives them.
ghost use Rattle.std.specs.Prelude.{◌≡◌};
ghost use Rattle.host_messages.specs.Reading.{client_at};
ghost use Rattle.pageshare_host_c.specs.Heads.{head_of, message_head};

use host_messages::{ASK, ClientMessage, HELLO, LEND, RELEASE};

/// What a packet says.
#[repr(C)]
#[derive(Clone, Copy)]
pub struct PacketHead {
    /// The kind of the message, or 0 if the packet is none.
    pub kind: u32,
    /// How many questions, pages or slots it lists.
    pub count: u32,
}

/// Reads a packet.
pub(crate) fn read(bytes: &[u8]) -> PacketHead
    ensures { result ≡ head_of (client_at bytes.now) }
{
    match ClientMessage::from_bytes(bytes) {
        Err(_) => head(0, 0),
        Ok(message) => message_head(&message),
    }
}

fn head(kind: u32, count: u32) -> PacketHead
    ensures { result ≡ record { kind = kind; count = count } }
{
    PacketHead { kind, count }
}

/// Returns what a message says.
fn message_head(message: &ClientMessage) -> PacketHead
    ensures { result ≡ message_head message.now }
{
    match message {
        ClientMessage::Hello(_) => head(HELLO, 0),
        ClientMessage::Ask(questions) => head(ASK, questions.len() as u32),
        ClientMessage::Lend(count) => head(LEND, *count),
        ClientMessage::Release(slots) => head(RELEASE, slots.len() as u32),
    }
}
