//! Little-endian words.
ghost use Rattle.std.specs.Prelude.{◌≡◌, ◌+◌, ◌≤◌, length};
ghost use Rattle.memory_images.specs.Words.{u16_at, u32_at, u64_at};

/// Returns the number of 16 bits that begins at byte `at`.
pub(crate) fn u16_at(bytes: &[u8], at: usize) -> u16
    requires { at + 2 ≤ length bytes.now }
    ensures { result ≡ u16_at bytes.now at }
{
    let (word, _rest) = bytes[at..].split_first_chunk().unwrap();
    u16::from_le_bytes(*word)
}

/// Returns the number of 32 bits that begins at byte `at`.
pub(crate) fn u32_at(bytes: &[u8], at: usize) -> u32
    requires { at + 4 ≤ length bytes.now }
    ensures { result ≡ u32_at bytes.now at }
{
    let (word, _rest) = bytes[at..].split_first_chunk().unwrap();
    u32::from_le_bytes(*word)
}

/// Returns the number of 64 bits that begins at byte `at`.
pub(crate) fn u64_at(bytes: &[u8], at: usize) -> u64
    requires { at + 8 ≤ length bytes.now }
    ensures { result ≡ u64_at bytes.now at }
{
    let (word, _rest) = bytes[at..].split_first_chunk().unwrap();
    u64::from_le_bytes(*word)
}
