//! The engine that serves a script in its serial order.
ghost use Rattle.std.specs.Prelude.{◌≡◌, ◌+◌, ◌≤◌, [], false, length, string_bytes, string_capacity, vec_capacity};
ghost use Rattle.merge_core.specs.Shown.{state_of};
ghost use Rattle.merge_machine.specs.Scripts.{entries_needed};
ghost use Rattle.journal_replay.specs.Ends.{WritesAll, has_read_fault, has_write_fault};
ghost use Rattle.journal_replay.specs.Replayed.{Prints, printed_from};
ghost use Rattle.script_text.specs.Order.{serial_order};
ghost use Rattle.script_text.specs.Served.{serial_printed, Serves};
ghost use Rattle.script_text.specs.Views.{lists_of, script_seen};
ghost use Rattle.page_model.specs.declared.limits.TheConstants.{MAX_ENTRIES};
ghost use Rattle.page_model.specs.declared.limits.TheConstants.{MAX_GUESTS};

use crate::order::{push_turn, turns_of};
use crate::reader::read_script;
use crate::script::Script;
use journal_replay::ends::read_all;
use journal_replay::engine::{core_of, print_fault, print_report, serve_entries};
use journal_replay::output::{LINE_BYTES, buffer};
use journal_replay::{Sink, Source};
use merge_core::Core;
use page_digest::PageHash;
use page_forecasts::REACH;
use page_model::{Entry, MAX_GUESTS, Request};
use std::alloc::Allocator;
use text_words::TextFault;

/// At least this many entries are served together: each of them sees those after it, whose pages may be hashed with its own.
/// Of twice as many as are considered, the first half sees them all.
const WINDOW: usize = 2 * REACH;

/// Room for the entries that are served together: turns are added until there are `WINDOW` entries or more, and a turn has at
/// most one entry of each guest.
const ROOM: usize = WINDOW + MAX_GUESTS;

/// Serves scripts in their serial order, and writes the lines of the verdicts and then the report's, through an empty list and
/// an empty buffer, which take no more memory.
fn print_turns<H: PageHash, W: Sink, A: Allocator>(
    core: &mut Core<H, A>,
    scripts: &[Vec<Request, A>],
    entries: &mut Vec<Entry, A>,
    writer: &mut W,
    out: &mut String<A>,
) -> Result<(), TextFault>
    requires many { length scripts.now ≤ MAX_GUESTS }
    requires guests { length (state_of core.old).guests ≡ length scripts.now }
    requires few { core.old.entries + entries_needed scripts.now ≤ MAX_ENTRIES }
    requires none { entries.old.items ≡ [] }
    requires space { ROOM ≤ vec_capacity entries.old }
    requires fine { W.has_failed writer.old ≡ false }
    requires empty { string_bytes out.old ≡ [] }
    requires room { LINE_BYTES ≤ string_capacity out.old }
    ensures { WritesAll (W.contents writer.old) (W.contents writer.new) (W.has_failed writer.new)
        (printed_from H.hash_of (state_of core.old) (serial_order (lists_of scripts.now))) result }
{
    for turn in 0..turns_of(scripts) {
        push_turn(entries, scripts, turn);
        if entries.len() >= WINDOW {
            serve_entries(core, entries, writer, out)?;
            entries.clear();
        }
    }
    serve_entries(core, entries, writer, out)?;
    print_report(core, writer, out)
}

/// Writes what a script prints in its serial order. All memory is taken before the first write.
fn print_script<H: PageHash + Drop, W: Sink, A: Allocator + Clone>(
    alloc: A,
    script: &Script<A>,
    writer: &mut W,
    hash: H,
) -> Result<(), TextFault>
    requires fine { W.has_failed writer.old ≡ false }
    ensures { Prints (W.contents writer.old) (W.contents writer.new) (W.has_failed writer.new)
        (serial_printed H.hash_of (script_seen script.now)) result }
{
    let mut out = buffer(alloc.clone()?)?;
    let mut entries = Vec::with_capacity(alloc.clone()?, ROOM)?;
    let shape = script.shape();
    let mut core = core_of(alloc, &shape, hash)?;
    print_turns(&mut core, &script.scripts, &mut entries, writer, &mut out)
}

/// Reads a script, and writes a verdict line for each request in its serial order and then the report line.
///
/// In that order the guests take turns, guest 0 first, each with its next request; each guest's last request is its close, and
/// a guest that has ended is left out.
///
/// If the text is at fault, only the line of the fault is written, and the fault is returned. On `OutOfMemory`, `Read` and
/// `Long` nothing was written, and on `Write` a front of the output went out. `Read` is returned exactly if the reader failed,
/// and `Write` exactly if the writer did.
pub fn serial<R: Source, W: Sink, H: PageHash + Drop, A: Allocator + Clone>(
    alloc: A,
    reader: &mut R,
    writer: &mut W,
    hash: H,
) -> Result<(), TextFault>
    requires reader { R.has_failed reader.old ≡ false }
    requires writer { W.has_failed writer.old ≡ false }
    ensures bytes { Serves H.hash_of (R.remaining reader.old) (W.contents writer.old) (W.contents writer.new) result }
    ensures reader { R.has_failed reader.new ≡ has_read_fault result }
    ensures writer { W.has_failed writer.new ≡ has_write_fault result }
{
    let text = match read_all(alloc.clone()?, reader) {
        Ok(text) => text,
        Err(fault) => return Err(fault),
    };
    match read_script(alloc.clone()?, &text) {
        Ok(script) => print_script(alloc, &script, writer, hash),
        Err(fault) => print_fault(alloc, writer, fault),
    }
}
