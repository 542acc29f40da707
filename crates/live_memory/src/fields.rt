//! The fields of a line of `/proc/PID/maps`.
ghost use Rattle.std.specs.Prelude.{◌≡◌, ◌<◌, IfSome};
ghost use Rattle.std.specs.Option.{option_map};
ghost use Rattle.live_memory.specs.Fields.{address_in, behind_spaces, digit_in, part_in, range_in, value_on, with_digit, word_in};
ghost use Rattle.live_memory.specs.Ranges.{IsRange};

use text_words::word::cut;

/// The bytes of a page.
pub(crate) const PAGE: u64 = 4096;

/// Returns the first word, and what comes after its space.
#[tactic(auto, unfolding(crate::specs::Fields::word_in))]
pub(crate) fn word(bytes: &[u8]) -> Option<(&[u8], &[u8])>
    ensures { option_map (λ x. (x.0.now, x.1.now)) result ≡ word_in bytes.now }
{
    cut(b' ', bytes)
}

/// Returns what comes before the first `-`, and what comes after it.
#[tactic(auto, unfolding(crate::specs::Fields::part_in))]
fn part(bytes: &[u8]) -> Option<(&[u8], &[u8])>
    ensures { option_map (λ x. (x.0.now, x.1.now)) result ≡ part_in bytes.now }
{
    cut(b'-', bytes)
}

/// Returns bytes without the spaces that they begin with.
pub(crate) fn behind_spaces(bytes: &[u8]) -> &[u8]
    ensures { result.now ≡ behind_spaces bytes.now }
{
    let mut rest = bytes;
    while let Some((first, behind)) = rest.split_first() {
        if *first != b' ' {
            return rest;
        }
        rest = behind;
    }
    rest
}

/// Returns the value of a digit to base 16.
fn digit(byte: u8) -> Option<u64>
    ensures value { result ≡ digit_in byte }
    ensures small { IfSome result (λ digit. digit < 16) }
{
    if byte.is_ascii_digit() {
        return Some(u64::from(byte - b'0'));
    }
    if byte >= b'a' && byte <= b'f' {
        return Some(u64::from(byte - b'a') + 10);
    }
    None
}

/// Returns the address that a word spells.
#[tactic(auto, unfolding(crate::specs::Fields::address_in))]
fn address(word: &[u8]) -> Option<u64>
    ensures { result ≡ address_in word.now }
{
    if word.is_empty() {
        return None;
    }
    value_on(word)
}

/// Returns the number that digits to base 16 spell, if it is below 2^64.
fn value_on(word: &[u8]) -> Option<u64>
    ensures { result ≡ value_on 0 word.now }
{
    let mut value: u64 = 0;
    for byte in word {
        value = with_digit(value, *byte)?;
    }
    Some(value)
}

fn with_digit(value: u64, byte: u8) -> Option<u64>
    ensures { result ≡ with_digit value byte }
{
    let digit = digit(byte)?;
    if value > u64::MAX / 16 {
        return None;
    }
    Some(16 * value + digit)
}

/// Returns where the pages of a mapping begin and end, if a word says so: whole pages, at least one.
#[tactic(auto, unfolding(crate::specs::Fields::range_in))]
pub(crate) fn range(word: &[u8]) -> Option<(u64, u64)>
    ensures value { result ≡ range_in word.now }
    ensures range { IfSome result (λ range. IsRange range.0 range.1) }
{
    let (from, to) = part(word)?;
    let from = address(from)?;
    let to = address(to)?;
    if from >= to || from % PAGE != 0 || to % PAGE != 0 {
        return None;
    }
    Some((from, to))
}
