//! The engine that replays a journal.
ghost use Rattle.std.specs.Prelude.{◌≡◌, ◌+◌, ◌<◌, ◌≤◌, ◌++◌, [], length, false, string_bytes, string_capacity, IfOk, OnOk, IfErr, IsErr};
ghost use Rattle.merge_core.specs.Shown.{state_of};
ghost use Rattle.page_model.specs.Limits.{shapes};
ghost use Rattle.page_model.specs.Replay.{empty_state, state_after};
ghost use Rattle.page_model.specs.Steps.{step};
ghost use Rattle.text_words.specs.declared.fault.TextFault.TheVariants.{OutOfMemory};
ghost use Rattle.journal_text.specs.Texts.{AreBelow};
ghost use Rattle.journal_text.specs.Views.{journal_seen};
ghost use Rattle.journal_replay.specs.Ends.{is_read_fault, is_write_fault, has_read_fault, has_write_fault, Buffers, WritesAll};
ghost use Rattle.journal_replay.specs.Replayed.{served_line, lines_from, report_text, printed_from, printed};
ghost use Rattle.journal_replay.specs.Replayed.{Prints, Replays, Refuses, Refused};
ghost use Rattle.page_model.specs.declared.limits.TheConstants.{MAX_ENTRIES};

use crate::ends::{Sink, Source, read_all, write_all};
use crate::output::{LINE_BYTES, buffer, make_room, put_report, put_verdict};
use journal_text::{Journal, read_journal};
use merge_core::Core;
use page_digest::PageHash;
use page_model::{Entry, MachineShape};
use std::alloc::Allocator;
use text_words::{TextFault, fault_line};

/// Makes the machine of this shape, before its first request.
pub fn core_of<H: PageHash + Drop, A: Allocator + Clone>(
    alloc: A,
    shape: &MachineShape<'_>,
    hash: H,
) -> Result<Core<H, A>, TextFault>
    ensures empty { IfOk result (λ core. state_of core ≡ empty_state shape.now.frames (shapes shape.now.salts shape.now.pages)) }
    ensures guests { IfOk result (λ core. length (state_of core).guests ≡ length shape.now.pages) }
    ensures fault { IfErr result (λ e. e ≡ OutOfMemory) }
{
    let core = Core::with_shape(alloc, shape, hash)?;
    Ok(core)
}

/// Serves an entry, and appends its verdict's line to the buffer. The entries that come next are searched for pages to hash
/// with the one that the entry proposes.
fn serve_entry<H: PageHash, W: Sink, A: Allocator>(
    core: &mut Core<H, A>,
    entry: &Entry,
    next: &[Entry],
    writer: &mut W,
    out: &mut String<A>,
) -> Result<(), TextFault>
    requires guest { entry.now.guest < length (state_of core.old).guests }
    requires few { core.old.entries < MAX_ENTRIES }
    requires fine { W.has_failed writer.old ≡ false }
    requires room { LINE_BYTES ≤ string_capacity out.old }
    ensures step { OnOk result (state_of core.new ≡ (step H.hash_of (state_of core.old) entry.now.guest entry.now.request).state) }
    ensures entries { OnOk result (core.new.entries ≡ core.old.entries + 1) }
    ensures guests { OnOk result (length (state_of core.new).guests ≡ length (state_of core.old).guests) }
    ensures buffers { Buffers (W.contents writer.old) (W.contents writer.new) (W.has_failed writer.new) (string_bytes out.new)
        (string_bytes out.old ++ served_line H.hash_of (state_of core.old) entry.now) (string_bytes out.old) result }
    ensures room { OnOk result (LINE_BYTES ≤ string_capacity out.new) }
{
    make_room(writer, out)?;
    let verdict = core.apply_ahead(entry.guest, &entry.request, next);
    put_verdict(out, entry.guest, &verdict);
    Ok(())
}

/// Serves these entries, and appends the lines of their verdicts to the buffer.
pub fn serve_entries<H: PageHash, W: Sink, A: Allocator>(
    core: &mut Core<H, A>,
    entries: &[Entry],
    writer: &mut W,
    out: &mut String<A>,
) -> Result<(), TextFault>
    requires guests { AreBelow (length (state_of core.old).guests) entries.now }
    requires few { core.old.entries + length entries.now ≤ MAX_ENTRIES }
    requires fine { W.has_failed writer.old ≡ false }
    requires room { LINE_BYTES ≤ string_capacity out.old }
    ensures state { OnOk result (state_of core.new ≡ state_after H.hash_of (state_of core.old) entries.now) }
    ensures entries { OnOk result (core.new.entries ≡ core.old.entries + length entries.now) }
    ensures guests { OnOk result (length (state_of core.new).guests ≡ length (state_of core.old).guests) }
    ensures buffers { Buffers (W.contents writer.old) (W.contents writer.new) (W.has_failed writer.new) (string_bytes out.new)
        (string_bytes out.old ++ lines_from H.hash_of (state_of core.old) entries.now)
        (string_bytes out.old ++ lines_from H.hash_of (state_of core.old) entries.now) result }
    ensures room { OnOk result (LINE_BYTES ≤ string_capacity out.new) }
{
    for at in 0..entries.len() {
        serve_entry(core, &entries[at], &entries[at + 1..], writer, out)?;
    }
    Ok(())
}

/// Writes what the buffer holds, and then the report's line.
pub fn print_report<H: PageHash, W: Sink, A: Allocator>(
    core: &Core<H, A>,
    writer: &mut W,
    out: &mut String<A>,
) -> Result<(), TextFault>
    requires fine { W.has_failed writer.old ≡ false }
    requires room { LINE_BYTES ≤ string_capacity out.old }
    ensures { WritesAll (W.contents writer.old) (W.contents writer.new) (W.has_failed writer.new)
        (string_bytes out.old ++ report_text (state_of core.now)) result }
{
    make_room(writer, out)?;
    put_report(out, &core.report());
    write_all(writer, out.as_bytes())
}

/// Writes the lines of the entries' verdicts, and then the report's, through an empty buffer.
fn print_all<H: PageHash, W: Sink, A: Allocator>(
    core: &mut Core<H, A>,
    entries: &[Entry],
    writer: &mut W,
    out: &mut String<A>,
) -> Result<(), TextFault>
    requires guests { AreBelow (length (state_of core.old).guests) entries.now }
    requires few { core.old.entries + length entries.now ≤ MAX_ENTRIES }
    requires fine { W.has_failed writer.old ≡ false }
    requires empty { string_bytes out.old ≡ [] }
    requires room { LINE_BYTES ≤ string_capacity out.old }
    ensures { WritesAll (W.contents writer.old) (W.contents writer.new) (W.has_failed writer.new)
        (printed_from H.hash_of (state_of core.old) entries.now) result }
{
    serve_entries(core, entries, writer, out)?;
    print_report(core, writer, out)
}

/// Writes the lines of the verdicts of a new machine's first entries, and then the report's. All memory is taken before the
/// first write.
fn print_entries<H: PageHash + Drop, W: Sink, A: Allocator + Clone>(
    alloc: A,
    shape: &MachineShape<'_>,
    entries: &[Entry],
    writer: &mut W,
    hash: H,
) -> Result<(), TextFault>
    requires guests { AreBelow (length shape.now.pages) entries.now }
    requires few { length entries.now ≤ MAX_ENTRIES }
    requires fine { W.has_failed writer.old ≡ false }
    ensures { Prints (W.contents writer.old) (W.contents writer.new) (W.has_failed writer.new)
        (printed_from H.hash_of (empty_state shape.now.frames (shapes shape.now.salts shape.now.pages)) entries.now) result }
{
    let mut out = buffer(alloc.clone()?)?;
    let mut core = core_of(alloc, shape, hash)?;
    print_all(&mut core, entries, writer, &mut out)
}

/// Writes what a journal prints.
fn print_replay<H: PageHash + Drop, W: Sink, A: Allocator + Clone>(
    alloc: A,
    journal: &Journal<A>,
    writer: &mut W,
    hash: H,
) -> Result<(), TextFault>
    requires fine { W.has_failed writer.old ≡ false }
    ensures { Prints (W.contents writer.old) (W.contents writer.new) (W.has_failed writer.new)
        (printed H.hash_of (journal_seen journal.now)) result }
{
    let shape = journal.shape();
    print_entries(alloc, &shape, &journal.entries, writer, hash)
}

/// Writes the line of a fault of the text, and returns the fault.
fn refuse<W: Sink, A: Allocator>(
    alloc: A,
    writer: &mut W,
    fault: TextFault,
) -> Result<(), TextFault>
    requires fine { W.has_failed writer.old ≡ false }
    requires read { is_read_fault fault ≡ false }
    requires written { is_write_fault fault ≡ false }
    ensures err { IsErr result }
    ensures refuses { IfErr result (λ e. Refuses fault (W.contents writer.old) (W.contents writer.new) e) }
    ensures reader { has_read_fault result ≡ false }
    ensures writer { W.has_failed writer.new ≡ has_write_fault result }
{
    let mut line = fault_line(alloc, &fault)?;
    line.push_str("\n")?;
    write_all(writer, line.as_bytes())?;
    Err(fault)
}

/// Returns a fault that kept a text from being read or served. For `Line`, `Truncated` and `Count` the line of the fault is
/// written; for the others nothing is.
pub fn print_fault<W: Sink, A: Allocator>(
    alloc: A,
    writer: &mut W,
    fault: TextFault,
) -> Result<(), TextFault>
    requires fine { W.has_failed writer.old ≡ false }
    requires read { is_read_fault fault ≡ false }
    requires written { is_write_fault fault ≡ false }
    ensures refused { Refused fault (W.contents writer.old) (W.contents writer.new) result }
    ensures reader { has_read_fault result ≡ false }
    ensures writer { W.has_failed writer.new ≡ has_write_fault result }
{
    match fault {
        TextFault::Line(n, cause) => refuse(alloc, writer, TextFault::Line(n, cause)),
        TextFault::Truncated(n) => refuse(alloc, writer, TextFault::Truncated(n)),
        TextFault::Count => refuse(alloc, writer, TextFault::Count),
        TextFault::OutOfMemory => Err(TextFault::OutOfMemory),
        TextFault::Read => Err(TextFault::Read),
        TextFault::Write => Err(TextFault::Write),
        TextFault::Long => Err(TextFault::Long),
    }
}

/// Reads a journal, and writes a verdict line for each entry and then the report line.
///
/// If the text is at fault, only the line of the fault is written, and the fault is returned. On `OutOfMemory`, `Read` and
/// `Long` nothing was written, and on `Write` a front of the output went out. `Read` is returned exactly if the reader failed,
/// and `Write` exactly if the writer did.
pub fn replay<R: Source, W: Sink, H: PageHash + Drop, A: Allocator + Clone>(
    alloc: A,
    reader: &mut R,
    writer: &mut W,
    hash: H,
) -> Result<(), TextFault>
    requires reader { R.has_failed reader.old ≡ false }
    requires writer { W.has_failed writer.old ≡ false }
    ensures bytes { Replays H.hash_of (R.remaining reader.old) (W.contents writer.old) (W.contents writer.new) result }
    ensures reader { R.has_failed reader.new ≡ has_read_fault result }
    ensures writer { W.has_failed writer.new ≡ has_write_fault result }
{
    let text = match read_all(alloc.clone()?, reader) {
        Ok(text) => text,
        Err(fault) => return Err(fault),
    };
    match read_journal(alloc.clone()?, &text) {
        Ok(journal) => print_replay(alloc, &journal, writer, hash),
        Err(fault) => print_fault(alloc, writer, fault),
    }
}
