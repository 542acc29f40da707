//! The reader of scripts.
ghost use Rattle.std.specs.Prelude.{◌≡◌, ◌+◌, ◌≤◌, ◌<◌, All, [], false, length, replicate, IfOk, IfErr, OnOk};
ghost use Rattle.page_model.specs.Closing.{has_close};
ghost use Rattle.text_words.specs.Views.{Gives};
ghost use Rattle.merge_machine.specs.Scripts.{entries_needed};
ghost use Rattle.script_text.specs.Texts.{scripts_in, script_in, script_of};
ghost use Rattle.script_text.specs.Views.{lists_of, script_seen, Fills, Adds};
ghost use Rattle.text_words.specs.declared.fault.TextFault.TheVariants.{OutOfMemory};
ghost use Rattle.page_model.specs.declared.limits.TheConstants.{MAX_GUESTS, MAX_TEXT_BYTES};

use crate::fill::add;
use crate::line::read_script_line;
use crate::room::empty_scripts;
use crate::rooms::read_rooms;
use crate::script::Script;
use crate::work::Item;
use journal_text::head::Head;
use journal_text::head_reader::{line_behind_head, read_head};
use journal_text::request::{Line, check_end};
use merge_machine::Config;
use page_model::{MAX_TEXT_BYTES, Request};
use std::alloc::Allocator;
use text_words::TextFault;
use text_words::word::cut;

/// Appends what a line asks for to its guest's list.
fn add_item<A: Allocator>(
    scripts: &mut Vec<Vec<Request, A>, A>,
    pages: &[u32],
    item: Item,
) -> Result<(), TextFault>
    requires guest { item.guest < length pages.now }
    requires guests { length scripts.old.items ≡ length pages.now }
    requires some { All (λ n. 1 ≤ n) pages.now }
    ensures lists { OnOk result (Adds pages.now item (scripts.old.items) (scripts.new.items)) }
    ensures err { IfErr result (λ e. e ≡ OutOfMemory) }
{
    let guest = item.guest as usize;
    add(&mut scripts[guest], pages[guest], item.work)
}

/// Appends what the lines from number `first` on ask for to their guests' lists, which are empty.
fn add_lines<A: Allocator>(
    scripts: &mut Vec<Vec<Request, A>, A>,
    pages: &[u32],
    most: u32,
    first: u32,
    text: &[u8],
) -> Result<(), TextFault>
    requires first { first ≤ 7 }
    requires guests { length pages.now ≤ MAX_GUESTS }
    requires some { All (λ n. 1 ≤ n) pages.now }
    requires empty { lists_of scripts.old.items ≡ replicate (length pages.now) [] }
    requires room { length pages.now ≤ most }
    requires short { length text.now ≤ MAX_TEXT_BYTES }
    ensures value { Fills (lists_of scripts.new.items) result (scripts_in pages.now most first text.now) }
    ensures guests { OnOk result (length scripts.new.items ≡ length pages.now) }
    ensures plain { OnOk result (All (λ script. has_close script.items ≡ false) scripts.new.items) }
    ensures room { OnOk result (entries_needed scripts.new.items ≤ most) }
{
    let mut total = pages.len() as u32;
    let mut asked = 0;
    let mut n = first;
    let mut rest = text;
    while let Some((line, more)) = cut(b'\n', rest) {
        match read_script_line(pages.len() as u32, most, total, line) {
            Err(cause) => return Err(TextFault::Line(n, cause)),
            Ok(Line::Ends(count)) => return check_end(n, asked, count, more.is_empty()),
            Ok(Line::Enters(item)) => {
                total += item.work.size();
                add_item(scripts, pages, item)?;
            }
        }
        rest = more;
        n += 1;
        asked += 1;
    }
    Err(TextFault::Truncated(n))
}

/// Reads what each guest asks for by the lines from number `first` on.
fn read_lists<A: Allocator + Clone>(
    alloc: A,
    pages: &[u32],
    most: u32,
    first: u32,
    text: &[u8],
) -> Result<Vec<Vec<Request, A>, A>, TextFault>
    requires first { first ≤ 7 }
    requires guests { length pages.now ≤ MAX_GUESTS }
    requires some { All (λ n. 1 ≤ n) pages.now }
    requires room { length pages.now ≤ most }
    requires short { length text.now ≤ MAX_TEXT_BYTES }
    ensures value { Gives (λ v. lists_of v.items) result (scripts_in pages.now most first text.now) }
    ensures guests { IfOk result (λ v. length v.items ≡ length pages.now) }
    ensures plain { IfOk result (λ v. All (λ script. has_close script.items ≡ false) v.items) }
    ensures room { IfOk result (λ v. entries_needed v.items ≤ most) }
{
    let mut scripts = empty_scripts(alloc, pages.len(), text)?;
    add_lines(&mut scripts, pages, most, first, text)?;
    Ok(scripts)
}

/// Reads the script of a text that is not too long.
#[tactic(auto, unfolding(crate::specs::Texts::script_in))]
fn script_in<A: Allocator + Clone>(alloc: A, text: &[u8]) -> Result<Script<A>, TextFault>
    requires { length text.now ≤ MAX_TEXT_BYTES }
    ensures { Gives script_seen result (script_in text.now) }
{
    let (head, rest) = read_head(
        alloc.clone()?,
        b"pageshare script 1",
        b"pageshare script 2",
        text,
    )?;
    let Head {
        version,
        frames,
        pages,
        salts,
    } = head;
    let first = line_behind_head(version);
    let ((ring, journal), rest) = read_rooms(first, pages.len() as u32, rest)?;
    let scripts = read_lists(alloc, &pages, journal, first + 2, rest)?;
    let config = Config {
        frames,
        pages,
        salts,
        ring,
        journal,
    };
    Ok(Script { config, scripts })
}

/// Reads a script's text, version 1 or 2, with its scans written out as proposals. In version 1 every guest has the salt 0.
///
/// # Errors
///
/// The text's first fault, in the order of `docs/FORMATS.md`, or `OutOfMemory` if memory was refused before that fault's line
/// was read.
#[tactic(auto, unfolding(crate::specs::Texts::script_of))]
pub fn read_script<A: Allocator + Clone>(alloc: A, text: &[u8]) -> Result<Script<A>, TextFault>
    ensures { Gives script_seen result (script_of text.now) }
{
    if text.len() > MAX_TEXT_BYTES {
        return Err(TextFault::Long);
    }
    script_in(alloc, text)
}
