//! The words of a line.
ghost use Rattle.std.specs.Prelude.{◌≡◌, ◌+◌, ◌-◌, ◌*◌, ◌<◌, ◌≤◌, ◌^◌, ℕ, List, Option, Some, None, false};
ghost use Rattle.std.specs.Prelude.{length, IfOk, IfSome, IsTrue, OnOk};
ghost use Rattle.text_words.specs.Words.{word_at, nothing_at, number_to, number, bytes_in};
ghost use Rattle.text_words.specs.Words.{number_at, is_bytes_word, is_lower_digit, is_space, behind_space};
ghost use Rattle.std.specs.List.{before_first};
ghost use Rattle.text_words.specs.Cursor.{left, left_length, seen, IsCut};

use crate::fault::Cause;

/// What is left of a line after its first words. `None`: no word is left.
pub type Left<'a> = Option<&'a [u8]>;

/// Returns what comes before and after the first such byte, or `None` if there is none.
pub fn cut<'a>(byte: u8, bytes: &'a [u8]) -> Option<(&'a [u8], &'a [u8])>
    ensures parts { IsCut byte bytes.now result }
    ensures length { IfSome result (λ x. length x.0.now + length x.1.now + 1 ≡ length bytes.now) }
{
    match memchr::memchr(byte, bytes) {
        Some(at) => Some((&bytes[..at], &bytes[at + 1..])),
        None => None,
    }
}

/// Returns the first word of some bytes, and what is left after it. Most words are short, so it looks at byte after byte.
pub fn first_word<'a>(bytes: &'a [u8]) -> (&'a [u8], Left<'a>)
    ensures word { result.0.now ≡ before_first is_space bytes.now }
    ensures rest { left result.1 ≡ behind_space bytes.now }
    ensures length { length result.0.now + left_length (left result.1) ≡ length bytes.now }
{
    for at in 0..bytes.len() {
        if bytes[at] == b' ' {
            return (&bytes[..at], Some(&bytes[at + 1..]));
        }
    }
    (bytes, None)
}

/// Returns the next word, and what is left after it.
#[tactic(auto, unfolding(crate::specs::Words::word_at))]
pub fn word<'a>(rest: Left<'a>) -> Result<(&'a [u8], Left<'a>), Cause>
    ensures value { seen (λ x. (x.0.now, left x.1)) result ≡ word_at (left rest.entry) }
    ensures length { IfOk result (λ x. length x.0.now + left_length (left x.1) + 1 ≡ left_length (left rest.entry)) }
{
    match rest {
        Some(bytes) => Ok(first_word(bytes)),
        None => Err(Cause::Form),
    }
}

fn long_first_word<'a>(bytes: &'a [u8]) -> (&'a [u8], Left<'a>)
    ensures word { result.0.now ≡ before_first is_space bytes.now }
    ensures rest { left result.1 ≡ behind_space bytes.now }
    ensures length { length result.0.now + left_length (left result.1) ≡ length bytes.now }
{
    match cut(b' ', bytes) {
        Some((first, behind)) => (first, Some(behind)),
        None => (bytes, None),
    }
}

/// Returns the next word as [`word`] does, faster if the word is long.
#[tactic(auto, unfolding(crate::specs::Words::word_at))]
pub fn long_word<'a>(rest: Left<'a>) -> Result<(&'a [u8], Left<'a>), Cause>
    ensures value { seen (λ x. (x.0.now, left x.1)) result ≡ word_at (left rest.entry) }
    ensures length { IfOk result (λ x. length x.0.now + left_length (left x.1) + 1 ≡ left_length (left rest.entry)) }
{
    match rest {
        Some(bytes) => Ok(long_first_word(bytes)),
        None => Err(Cause::Form),
    }
}

/// Checks that no word is left.
pub fn nothing(rest: Left<'_>) -> Result<(), Cause>
    ensures { result ≡ nothing_at (left rest.entry) }
{
    match rest {
        Some(_) => Err(Cause::Form),
        None => Ok(()),
    }
}

/// Whether one more digit makes a number greater than `most`. For most numbers the first comparison decides, whatever the digit.
#[inline(always)]
fn is_past(most: u64, n: u64, digit: u64) -> bool
    requires most { 9 ≤ most }
    requires digit { digit ≤ 9 }
    ensures past { IsTrue result → most < 10 * n + digit }
    ensures fits { result ≡ false → 10 * n + digit ≤ most }
{
    n > (most - 9) / 10 && n > (most - digit) / 10
}

/// Returns the number that a word spells, at most `most`.
#[tactic(auto, unfolding(crate::specs::Words::number_to))]
pub fn number_to(most: u64, word: &[u8]) -> Result<u64, Cause>
    requires { 9 ≤ most }
    ensures value { result ≡ number_to most word.now }
    ensures within { IfOk result (λ n. n ≤ most) }
    ensures some { OnOk result (1 ≤ length word.now) }
{
    if word.is_empty() || (word.len() > 1 && word[0] == b'0') {
        return Err(Cause::Form);
    }
    let mut n: u64 = 0;
    for c in word {
        if !c.is_ascii_digit() {
            return Err(Cause::Form);
        }
        let digit = u64::from(*c - b'0');
        if is_past(most, n, digit) {
            return Err(Cause::Form);
        }
        n = 10 * n + digit;
    }
    Ok(n)
}

/// Returns the number that a word spells, at most 4,294,967,295.
pub fn number(word: &[u8]) -> Result<u32, Cause>
    ensures value { result ≡ number word.now }
    ensures some { OnOk result (1 ≤ length word.now) }
{
    Ok(number_to(u64::from(u32::MAX), word)? as u32)
}

/// Returns the next word as a number.
#[tactic(auto, unfolding(crate::specs::Words::number_at))]
pub fn next_number<'a>(rest: Left<'a>) -> Result<(u32, Left<'a>), Cause>
    ensures value { seen (λ x. (x.0, left x.1)) result ≡ number_at (left rest.entry) }
    ensures length { OnOk result (2 ≤ left_length (left rest.entry)) }
{
    let (first, rest) = word(rest)?;
    Ok((number(first)?, rest))
}

/// Whether a word is bytes: lower case hexadecimal digits, two for each byte, at least two.
pub fn is_bytes(word: &[u8]) -> bool
    ensures { result ≡ is_bytes_word word.now }
{
    if word.is_empty() || word.len() % 2 == 1 {
        return false;
    }
    let mut all = true;
    for c in word {
        all &= is_lower_digit(*c);
    }
    all
}

fn is_lower_digit(c: u8) -> bool
    ensures { result ≡ is_lower_digit c }
{
    matches!(c, b'0'..=b'9' | b'a'..=b'f')
}
