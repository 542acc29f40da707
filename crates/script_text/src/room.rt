//! Room for a script's requests, taken before its lines are read.
ghost use Rattle.std.specs.Prelude.{◌≡◌, ◌+◌, ◌*◌, ◌≤◌, [], length, replicate, sum, IfErr, IfOk};
ghost use Rattle.text_words.specs.declared.fault.TextFault.TheVariants.{OutOfMemory};
ghost use Rattle.journal_text.specs.declared.room.TheConstants.{LEAST_LINE_BYTES};
ghost use Rattle.script_text.specs.Views.{lists_of};
ghost use Rattle.page_model.specs.declared.limits.TheConstants.{MAX_GUESTS};

use journal_text::room::LEAST_LINE_BYTES;
use page_model::{MAX_GUESTS, Request};
use std::alloc::Allocator;
use text_words::TextFault;
use text_words::word::{cut, first_word, number};

/// Returns, for each guest, how many lines of the text may be requests of it. A scan counts as one of them. However many
/// line feeds a text has, there are no more such lines than the shortest ones would be.
fn count_lines(text: &[u8]) -> [usize; MAX_GUESTS]
    ensures few { sum result * (LEAST_LINE_BYTES + 1) ≤ length text.now }
{
    let mut counts = [0; MAX_GUESTS];
    let mut rest = text;
    while let Some((line, more)) = cut(b'\n', rest) {
        if line.len() >= LEAST_LINE_BYTES {
            count_line(&mut counts, line);
        }
        rest = more;
    }
    counts
}

/// Counts a line for the guest whose number is its first word.
fn count_line(counts: &mut [usize; MAX_GUESTS], line: &[u8])
    ensures one { sum counts.new ≤ sum counts.old + 1 }
{
    let (first, _rest) = first_word(line);
    if let Ok(guest) = number(first) {
        if (guest as usize) < MAX_GUESTS {
            let count = counts[guest as usize];
            counts[guest as usize] = count.saturating_add(1);
        }
    }
}

/// Makes an empty list for each of this many guests, with room for one request for each of its lines in the text.
///
/// So the lists needn't grow if there is no scan, and they take at most the memory that the shortest lines would need.
pub(crate) fn empty_scripts<A: Allocator + Clone>(
    alloc: A,
    guests: usize,
    text: &[u8],
) -> Result<Vec<Vec<Request, A>, A>, TextFault>
    requires { guests ≤ MAX_GUESTS }
    ensures lists { IfOk result (λ v. lists_of v.items ≡ replicate guests []) }
    ensures guests { IfOk result (λ v. length v.items ≡ guests) }
    ensures err { IfErr result (λ e. e ≡ OutOfMemory) }
{
    let counts = count_lines(text);
    let mut scripts = Vec::with_capacity(alloc.clone()?, guests)?;
    for guest in 0..guests {
        let script = Vec::with_capacity(alloc.clone()?, counts[guest])?;
        scripts.push(script)?;
    }
    Ok(scripts)
}
