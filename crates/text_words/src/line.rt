//! The lines of a text.
ghost use Rattle.std.specs.Prelude.{◌≡◌, ◌<◌, length, IfOk, IfErr};
ghost use Rattle.text_words.specs.Cursor.{seen};
ghost use Rattle.text_words.specs.Lines.{line_at, keyword, at_line};

use crate::fault::{Cause, TextFault};
use crate::word::cut;

/// Returns line `n`, and the text after its line feed.
#[tactic(auto, unfolding(crate::specs::Lines::line_at))]
pub fn next_line<'a>(n: u32, text: &'a [u8]) -> Result<(&'a [u8], &'a [u8]), TextFault>
    ensures value { seen (λ x. (x.0.now, x.1.now)) result ≡ line_at n text.now }
    ensures shorter { IfOk result (λ x. length x.1.now < length text.now) }
    ensures fault { IfErr result (λ e. e ≡ TextFault.Truncated n) }
{
    match cut(b'\n', text) {
        Some(parts) => Ok(parts),
        None => Err(TextFault::Truncated(n)),
    }
}

/// Returns what a line says, with the line's number if it is at fault.
pub fn at_line<T: Drop>(n: u32, said: Result<T, Cause>) -> Result<T, TextFault>
    ensures { result ≡ at_line n said }
{
    match said {
        Ok(value) => Ok(value),
        Err(cause) => Err(TextFault::Line(n, cause)),
    }
}

/// Checks that this word is the name that a line must have.
pub fn keyword(name: &[u8], word: &[u8]) -> Result<(), Cause>
    ensures { result ≡ keyword name.now word.now }
{
    if word == name {
        Ok(())
    } else {
        Err(Cause::Form)
    }
}
