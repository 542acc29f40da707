//! What messages list.
ghost use Rattle.std.specs.Prelude.{◌≡◌, ◌+◌, ◌≤◌, ◌++◌, ℕ, List, length, drop};
ghost use Rattle.std.specs.Int.{w32, w64, from_le_bytes, to_le_bytes};
ghost use Rattle.arrayvec.specs.ArrayVec.{array_vec_len};
ghost use Rattle.host_messages.specs.Spelling.{page_word};
ghost use Rattle.host_messages.specs.declared.limits.TheConstants.{MAX_MESSAGE_BYTES};

use crate::limits::{MAX_MESSAGE_BYTES, PASSING};
use arrayvec::ArrayVec;

/// A question about a page.
#[derive(Clone, Copy, Debug, Default, PartialEq, Eq)]
pub struct Question {
    /// The page's number, below 2^63, of the client's choice for each of its pages.
    pub page: u64,
    /// The fingerprint of its content.
    pub fingerprint: u64,
    /// Whether it is a passing question: the host answers it without noting the page.
    pub is_passing: bool,
}

/// What became of a page that was to be lent.
#[repr(C)]
#[derive(Clone, Copy, Debug, Default, PartialEq, Eq)]
pub struct Lent {
    /// The page's slot, 0 if the page isn't lent.
    pub slot: u64,
    /// The frame that contains its bytes, 4,294,967,295 if the page isn't lent.
    pub frame: u32,
    /// How many slots have the frame, this one included; 0 if the page isn't lent.
    pub sharers: u32,
}

/// The bytes of a message, one packet.
pub type Packet = ArrayVec<u8, MAX_MESSAGE_BYTES>;

/// Something of a fixed width that messages list.
pub(crate) trait Item: Copy {
    ghost WIDTH: { ℕ };

    ghost spelled: { Self → List ℕ };

    ghost item_at: { List ℕ → Self };

    const WIDTH: usize;

    /// Reads it from its bytes.
    fn read(bytes: &[u8]) -> Self
        requires { length bytes.now ≡ WIDTH }
        ensures { result ≡ item_at bytes.now };

    /// Puts its bytes at a packet's end.
    fn put(self, packet: &mut Packet)
        requires { array_vec_len packet.old + WIDTH ≤ MAX_MESSAGE_BYTES }
        ensures bytes { packet.new.items ≡ packet.old.items ++ spelled self }
        ensures len { array_vec_len packet.new ≡ array_vec_len packet.old + WIDTH };
}

impl Item for Question {
    ghost use Rattle.host_messages.specs.Spelling.{question_bytes};
    ghost use Rattle.host_messages.specs.Reading.{question_at};

    ghost WIDTH = { 16 };

    ghost spelled = { question_bytes };

    ghost item_at = { question_at };

    const WIDTH: usize = 16;

    fn read(bytes: &[u8]) -> Question {
        let word = read_u64(bytes, 0);
        let fingerprint = read_u64(bytes, 8);
        Question {
            page: word % PASSING,
            fingerprint,
            is_passing: word >= PASSING,
        }
    }

    fn put(self, packet: &mut Packet) {
        put_u64(packet, page_word(self));
        put_u64(packet, self.fingerprint);
    }
}

impl Item for u64 {
    ghost use Rattle.host_messages.specs.Spelling.{slot_bytes};
    ghost use Rattle.host_messages.specs.Reading.{slot_at};

    ghost WIDTH = { 8 };

    ghost spelled = { slot_bytes };

    ghost item_at = { slot_at };

    const WIDTH: usize = 8;

    fn read(bytes: &[u8]) -> u64 {
        read_u64(bytes, 0)
    }

    fn put(self, packet: &mut Packet) {
        put_u64(packet, self);
    }
}

impl Item for Lent {
    ghost use Rattle.host_messages.specs.Spelling.{lent_bytes};
    ghost use Rattle.host_messages.specs.Reading.{lent_at};

    ghost WIDTH = { 16 };

    ghost spelled = { lent_bytes };

    ghost item_at = { lent_at };

    const WIDTH: usize = 16;

    fn read(bytes: &[u8]) -> Lent {
        let slot = read_u64(bytes, 0);
        let frame = read_u32(bytes, 8);
        let sharers = read_u32(bytes, 12);
        Lent {
            slot,
            frame,
            sharers,
        }
    }

    fn put(self, packet: &mut Packet) {
        put_u64(packet, self.slot);
        put_u32(packet, self.frame);
        put_u32(packet, self.sharers);
    }
}

/// Returns a question's first eight bytes as a number. (A page's number is below 2^63, or only its lower bits count.)
fn page_word(question: Question) -> u64
    ensures { result ≡ page_word question }
{
    let page = question.page % PASSING;
    if question.is_passing {
        return page + PASSING;
    }
    page
}

/// Reads a number of four bytes from place `at` on.
pub(crate) fn read_u32(bytes: &[u8], at: usize) -> u32
    requires { at + 4 ≤ length bytes.now }
    ensures { result ≡ from_le_bytes w32 (drop at bytes.now) }
{
    u32::from_le_bytes([bytes[at], bytes[at + 1], bytes[at + 2], bytes[at + 3]])
}

/// Reads a number of eight bytes from place `at` on.
pub(crate) fn read_u64(bytes: &[u8], at: usize) -> u64
    requires { at + 8 ≤ length bytes.now }
    ensures { result ≡ from_le_bytes w64 (drop at bytes.now) }
{
    u64::from_le_bytes([
        bytes[at],
        bytes[at + 1],
        bytes[at + 2],
        bytes[at + 3],
        bytes[at + 4],
        bytes[at + 5],
        bytes[at + 6],
        bytes[at + 7],
    ])
}

/// Puts a number of four bytes at a packet's end.
pub(crate) fn put_u32(packet: &mut Packet, number: u32)
    requires { array_vec_len packet.old + 4 ≤ MAX_MESSAGE_BYTES }
    ensures bytes { packet.new.items ≡ packet.old.items ++ to_le_bytes w32 number }
    ensures len { array_vec_len packet.new ≡ array_vec_len packet.old + 4 }
{
    put_bytes(packet, &number.to_le_bytes());
}

/// Puts a number of eight bytes at a packet's end.
pub(crate) fn put_u64(packet: &mut Packet, number: u64)
    requires { array_vec_len packet.old + 8 ≤ MAX_MESSAGE_BYTES }
    ensures bytes { packet.new.items ≡ packet.old.items ++ to_le_bytes w64 number }
    ensures len { array_vec_len packet.new ≡ array_vec_len packet.old + 8 }
{
    put_bytes(packet, &number.to_le_bytes());
}

/// Puts bytes at a packet's end.
pub(crate) fn put_bytes(packet: &mut Packet, bytes: &[u8])
    requires { array_vec_len packet.old + length bytes.now ≤ MAX_MESSAGE_BYTES }
    ensures bytes { packet.new.items ≡ packet.old.items ++ bytes.now }
    ensures len { array_vec_len packet.new ≡ array_vec_len packet.old + length bytes.now }
{
    packet.try_extend_from_slice(bytes).unwrap();
}
