//! The reader of the lines at a text's head: the version, the frames, and the guests' pages and salts.
ghost use Rattle.std.specs.Prelude.{◌≡◌, ◌≤◌, Option, Some, None, length, replicate, IfOk, IfErr};
ghost use Rattle.text_words.specs.declared.fault.TextFault.TheVariants.{OutOfMemory};
ghost use Rattle.journal_text.specs.Texts.{header_of, salts_at, head_in, line_behind_head};
ghost use Rattle.text_words.specs.Views.{Gives};
ghost use Rattle.journal_text.specs.Views.{head_seen};

use crate::head::Head;
use crate::header::{frames, pages, salts};
use crate::version::Version;
use std::alloc::Allocator;
use text_words::line::{at_line, next_line};
use text_words::{Cause, TextFault};

/// Returns the version that the first line, which must be one of two, says.
#[tactic(auto, unfolding(crate::specs::Texts::header_of))]
fn header(one: &[u8], two: &[u8], line: &[u8]) -> Result<Version, Cause>
    ensures { result ≡ header_of one.now two.now line.now }
{
    if line == one {
        Ok(Version::One)
    } else if line == two {
        Ok(Version::Two)
    } else {
        Err(Cause::Header)
    }
}

/// Returns the salts of version 1.
fn no_salts<A: Allocator>(alloc: A, guests: usize) -> Result<Vec<u32, A>, TextFault>
    ensures salts { IfOk result (λ v. v.items ≡ replicate guests 0) }
    ensures err { IfErr result (λ e. e ≡ OutOfMemory) }
{
    Ok(vec![in alloc; 0; guests]?)
}

/// Returns the salts of this many guests, and the text after them.
#[tactic(auto, unfolding(crate::specs::Texts::salts_at))]
fn salts_in<'a, A: Allocator>(
    alloc: A,
    version: Version,
    guests: usize,
    text: &'a [u8],
) -> Result<(Vec<u32, A>, &'a [u8]), TextFault>
    ensures value { Gives (λ x. (x.0.items, x.1.now)) result (salts_at version guests text.now) }
    ensures count { IfOk result (λ x. length x.0.items ≡ guests) }
    ensures shorter { IfOk result (λ x. length x.1.now ≤ length text.now) }
{
    match version {
        Version::One => Ok((no_salts(alloc, guests)?, text)),
        Version::Two => {
            let (line, rest) = next_line(4, text)?;
            Ok((salts(alloc, guests, line)?, rest))
        }
    }
}

/// Reads the lines at the head of a text whose first line is `one` or `two`; also returns the text after them.
#[tactic(auto, unfolding(crate::specs::Texts::head_in))]
pub fn read_head<'a, A: Allocator + Clone>(
    alloc: A,
    one: &[u8],
    two: &[u8],
    text: &'a [u8],
) -> Result<(Head<A>, &'a [u8]), TextFault>
    ensures value { Gives (λ x. (head_seen x.0, x.1.now)) result (head_in one.now two.now text.now) }
    ensures shorter { IfOk result (λ x. length x.1.now ≤ length text.now) }
{
    let (line, rest) = next_line(1, text)?;
    let version = at_line(1, header(one, two, line))?;
    let (line, rest) = next_line(2, rest)?;
    let frames = at_line(2, frames(line))?;
    let (line, rest) = next_line(3, rest)?;
    let pages = pages(alloc.clone()?, line)?;
    let (salts, rest) = salts_in(alloc, version, pages.len(), rest)?;
    let head = Head {
        version,
        frames,
        pages,
        salts,
    };
    Ok((head, rest))
}

/// Returns the number of the line after the lines of the machine.
pub fn line_behind_head(version: Version) -> u32
    ensures line { result ≡ line_behind_head version }
    ensures small { result ≤ 5 }
{
    match version {
        Version::One => 4,
        Version::Two => 5,
    }
}
