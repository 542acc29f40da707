//! The name of a guest.
ghost use Rattle.std.specs.Prelude.{◌≡◌, MatchOption, true, false};
ghost use Rattle.digest_text.specs.Names.{is_name, is_name_byte};

use arrayvec::ArrayVec;
use std::marker::Model;

/// The most bytes of a guest's name.
pub const MAX_NAME_BYTES: usize = 64;

/// The name of a guest: 1 to `MAX_NAME_BYTES` of the characters A-Z, a-z, 0-9, `.`, `_` and `-`.
#[derive(Clone, Debug, PartialEq, Eq, Drop)]
pub struct GuestName {
    bytes: ArrayVec<u8, MAX_NAME_BYTES>,
}

impl Model for GuestName {
    ghost use Rattle.std.specs.Prelude.{◌≡◌, ℕ, List, true};
    ghost use Rattle.digest_text.specs.Names.{is_name};

    ghost Value = { List ℕ };

    ghost view = { λ name. name.bytes.items };

    ghost invariant = { λ name. is_name name.bytes.items ≡ true };

    ghost inverse = { λ name. record { bytes = record { items = name } } };
}

fn is_name_byte(byte: u8) -> bool
    ensures { result ≡ is_name_byte byte }
{
    matches!(byte, b'A'..=b'Z' | b'a'..=b'z' | b'0'..=b'9' | b'.' | b'_' | b'-')
}

/// Whether some bytes are a name.
pub(crate) fn is_name(bytes: &[u8]) -> bool
    ensures { result ≡ is_name bytes.now }
{
    if bytes.is_empty() || bytes.len() > MAX_NAME_BYTES {
        return false;
    }
    for byte in bytes {
        if !is_name_byte(*byte) {
            return false;
        }
    }
    true
}

impl GuestName {
    /// Makes a name of these bytes, or returns `None` if they aren't one.
    pub fn new(bytes: &[u8]) -> Option<GuestName>
        ensures { MatchOption result (is_name bytes.now ≡ false) (λ name. (name ≡ bytes.now) × (is_name bytes.now ≡ true)) }
    {
        if is_name(bytes) {
            Some(GuestName::from_name(bytes))
        } else {
            None
        }
    }

    /// Makes a name of bytes that are one.
    pub(crate) fn from_name(name: &[u8]) -> GuestName
        requires { is_name name.now ≡ true }
        ensures { result ≡ name.now }
    {
        let mut bytes = ArrayVec::new();
        for byte in name {
            bytes.push(*byte);
        }
        GuestName { bytes }
    }

    /// Returns the bytes.
    pub fn as_bytes(&self) -> &[u8]
        ensures is { result.now ≡ self.now }
        ensures name { is_name self.now ≡ true }
    {
        self.bytes.as_slice()
    }
}
