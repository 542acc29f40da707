//! The fields of a line.
ghost use Rattle.std.specs.Prelude.{◌≡◌, ◌≤◌, ◌<◌, IfSome, Some, length, IsTrue};
ghost use Rattle.std.specs.Option.{option_map};
ghost use Rattle.hex.specs.Hex.{hex_digit_value};
ghost use Rattle.text_words.specs.Words.{is_bytes_word, is_lower_digit, spelled};
ghost use Rattle.guest_digests.specs.Samples.{IsSample};
ghost use Rattle.digest_text.specs.Fields.{copies_in, digest_in, field_in, number_in, sample_in};
ghost use Rattle.digest_text.specs.Repeats.{digest_first};

use text_words::word::{cut, is_bytes, number_to};

/// Returns what comes before the first comma and what comes after it.
#[tactic(auto, unfolding(crate::specs::Fields::field_in))]
pub(crate) fn field(bytes: &[u8]) -> Option<(&[u8], &[u8])>
    ensures { option_map (λ x. (x.0.now, x.1.now)) result ≡ field_in bytes.now }
{
    cut(b',', bytes)
}

/// Returns the number that a field spells, at most `most`.
#[tactic(auto, unfolding(crate::specs::Fields::number_in))]
pub(crate) fn number(most: u64, word: &[u8]) -> Option<u64>
    requires { 9 ≤ most }
    ensures value { result ≡ number_in most word.now }
    ensures within { IfSome result (λ n. n ≤ most) }
{
    number_to(most, word).ok()
}

/// Returns the sample that a field spells.
#[tactic(auto, unfolding(crate::specs::Fields::sample_in))]
pub(crate) fn sample(word: &[u8]) -> Option<u32>
    ensures value { result ≡ sample_in word.now }
    ensures sample { IfSome result (λ every. IsSample every) }
{
    let every = number(65_536, word)?;
    if !every.is_power_of_two() {
        return None;
    }
    Some(every as u32)
}

/// Returns the digest that a field spells.
#[tactic(auto, unfolding(crate::specs::Fields::digest_in))]
pub(crate) fn digest(word: &[u8]) -> Option<u128>
    ensures { result ≡ digest_in word.now }
{
    if word.len() != 32 || !is_bytes(word) {
        return None;
    }
    match word.first_chunk::<32>() {
        Some(digits) => Some(u128::from_be_bytes(unpack(digits))),
        None => unreachable!(),
    }
}

/// Returns the digest that the first field spells, and what comes after its comma.
pub(crate) fn digest_field(bytes: &[u8]) -> Option<(u128, &[u8])>
    ensures { option_map (λ x. (x.0, x.1.now)) result ≡ digest_first bytes.now }
{
    if bytes.len() <= 32 || bytes[32] != b',' {
        return None;
    }
    let word = &bytes[..32];
    match digest(word) {
        Some(digest) => Some((digest, &bytes[33..])),
        None => None,
    }
}

/// Returns the value of a digit.
fn value(digit: u8) -> u8
    requires { IsTrue (is_lower_digit digit) }
    ensures value { hex_digit_value digit ≡ Some result }
    ensures within { result < 16 }
{
    if digit <= b'9' {
        digit - b'0'
    } else {
        digit - b'a' + 10
    }
}

/// Returns the bytes that a word spells. LLVM makes vectors of this loop, but where the function is inlined it unrolls it.
#[inline(never)]
fn unpack(word: &[u8; 32]) -> [u8; 16]
    requires long { length word.now ≡ 32 }
    requires word { IsTrue (is_bytes_word word.now) }
    ensures { result ≡ spelled word.now }
{
    let mut bytes = [0; 16];
    for at in 0..16 {
        bytes[at] = 16 * value(word[2 * at]) + value(word[2 * at + 1]);
    }
    bytes
}

/// Returns how many copies a field spells, at least one.
#[tactic(auto, unfolding(crate::specs::Fields::copies_in))]
pub(crate) fn copies(word: &[u8]) -> Option<u64>
    ensures { result ≡ copies_in word.now }
{
    let copies = number(u64::MAX, word)?;
    if copies == 0 {
        return None;
    }
    Some(copies)
}
