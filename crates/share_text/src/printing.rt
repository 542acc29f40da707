//! What a run returned, as lines or as a journal's text.
ghost use Rattle.std.specs.Prelude.{◌≡◌, ◌≤◌, ◌++◌, [], codes, false, length, map, string_bytes, string_capacity, OnOk};
ghost use Rattle.merge_core.specs.Shown.{state_of};
ghost use Rattle.merge_run.specs.View.{settled_core};
ghost use Rattle.journal_replay.specs.Ends.{Buffers, WritesAll};
ghost use Rattle.journal_text.specs.Printed.{verdict_line};
ghost use Rattle.journal_replay.specs.Replayed.{report_text, Prints};
ghost use Rattle.share_text.specs.Runs.{guest_lines, lists_lines};
ghost use Rattle.share_text.specs.Threads.{finished_text};
ghost use Rattle.page_model.specs.declared.limits.TheConstants.{MAX_GUESTS};

use crate::form::Output;
use journal_replay::Sink;
use journal_replay::ends::write_all;
use journal_replay::engine::print_report;
use journal_replay::output::{LINE_BYTES, buffer, make_room, put_verdict};
use journal_text::writer::write_entries;
use merge_core::Core;
use merge_machine::Config;
use merge_run::Finished;
use page_digest::PageHash;
use page_model::Verdict;
use std::alloc::Allocator;
use text_words::TextFault;

/// Appends a verdict's line to the buffer.
fn print_verdict<W: Sink, A: Allocator>(
    guest: u8,
    verdict: &Verdict,
    writer: &mut W,
    out: &mut String<A>,
) -> Result<(), TextFault>
    requires fine { W.has_failed writer.old ≡ false }
    requires room { LINE_BYTES ≤ string_capacity out.old }
    ensures buffers { Buffers (W.contents writer.old) (W.contents writer.new) (W.has_failed writer.new) (string_bytes out.new)
        (string_bytes out.old ++ (verdict_line guest verdict.now ++ codes "\n")) (string_bytes out.old) result }
    ensures room { OnOk result (LINE_BYTES ≤ string_capacity out.new) }
{
    make_room(writer, out)?;
    put_verdict(out, guest, verdict);
    Ok(())
}

/// Appends the lines of a guest's verdicts to the buffer.
fn print_guest<W: Sink, A: Allocator>(
    guest: u8,
    verdicts: &[Verdict],
    writer: &mut W,
    out: &mut String<A>,
) -> Result<(), TextFault>
    requires fine { W.has_failed writer.old ≡ false }
    requires room { LINE_BYTES ≤ string_capacity out.old }
    ensures buffers { Buffers (W.contents writer.old) (W.contents writer.new) (W.has_failed writer.new) (string_bytes out.new)
        (string_bytes out.old ++ guest_lines guest verdicts.now) (string_bytes out.old ++ guest_lines guest verdicts.now) result }
    ensures room { OnOk result (LINE_BYTES ≤ string_capacity out.new) }
{
    for verdict in verdicts {
        print_verdict(guest, verdict, writer, out)?;
    }
    Ok(())
}

/// Appends the lines of all guests' verdicts, guest 0's first, to the buffer.
fn print_guests<W: Sink, A: Allocator>(
    lists: &[Vec<Verdict, A>],
    writer: &mut W,
    out: &mut String<A>,
) -> Result<(), TextFault>
    requires guests { length lists.now ≤ MAX_GUESTS }
    requires fine { W.has_failed writer.old ≡ false }
    requires room { LINE_BYTES ≤ string_capacity out.old }
    ensures buffers { Buffers (W.contents writer.old) (W.contents writer.new) (W.has_failed writer.new) (string_bytes out.new)
        (string_bytes out.old ++ lists_lines 0 (map (λ list. list.items) lists.now))
        (string_bytes out.old ++ lists_lines 0 (map (λ list. list.items) lists.now)) result }
    ensures room { OnOk result (LINE_BYTES ≤ string_capacity out.new) }
{
    let mut guest = 0;
    for list in lists {
        print_guest(guest, list, writer, out)?;
        guest += 1;
    }
    Ok(())
}

/// Writes the lines of all guests' verdicts and then the report's, through an empty buffer.
fn print_lines<H: PageHash, W: Sink, A: Allocator>(
    core: &Core<H, A>,
    lists: &[Vec<Verdict, A>],
    writer: &mut W,
    out: &mut String<A>,
) -> Result<(), TextFault>
    requires guests { length lists.now ≤ MAX_GUESTS }
    requires fine { W.has_failed writer.old ≡ false }
    requires empty { string_bytes out.old ≡ [] }
    requires room { LINE_BYTES ≤ string_capacity out.old }
    ensures { WritesAll (W.contents writer.old) (W.contents writer.new) (W.has_failed writer.new)
        (lists_lines 0 (map (λ list. list.items) lists.now) ++ report_text (state_of core.now)) result }
{
    print_guests(lists, writer, out)?;
    print_report(core, writer, out)
}

/// Writes the text of a run's journal. All memory is taken before the first write.
fn print_journal<H: PageHash, W: Sink, A: Allocator + Copy>(
    alloc: A,
    config: &Config<A>,
    finished: &Finished<H, A>,
    writer: &mut W,
) -> Result<(), TextFault>
    requires fine { W.has_failed writer.old ≡ false }
    ensures { Prints (W.contents writer.old) (W.contents writer.new) (W.has_failed writer.new)
        (finished_text Output.JournalText config.now finished.now) result }
{
    let entries = finished.settled.journal();
    let text = write_entries(alloc, config.frames, &config.pages, &config.salts, entries)?;
    write_all(writer, text.as_bytes())
}

/// Writes the guests' verdicts and the report of a run. All memory is taken before the first write.
fn print_verdicts<H: PageHash, W: Sink, A: Allocator + Copy>(
    alloc: A,
    finished: &Finished<H, A>,
    writer: &mut W,
) -> Result<(), TextFault>
    requires guests { length finished.now.verdicts.items ≤ MAX_GUESTS }
    requires fine { W.has_failed writer.old ≡ false }
    ensures { Prints (W.contents writer.old) (W.contents writer.new) (W.has_failed writer.new)
        (lists_lines 0 (map (λ list. list.items) finished.now.verdicts.items)
        ++ report_text (state_of (settled_core finished.now.settled))) result }
{
    let mut out = buffer(alloc)?;
    print_lines(
        finished.settled.core(),
        &finished.verdicts,
        writer,
        &mut out,
    )
}

/// Writes the output of a run. All memory is taken before the first write.
pub(crate) fn print_run<H: PageHash, W: Sink, A: Allocator + Copy>(
    alloc: A,
    form: Output,
    config: &Config<A>,
    finished: &Finished<H, A>,
    writer: &mut W,
) -> Result<(), TextFault>
    requires guests { length finished.now.verdicts.items ≤ MAX_GUESTS }
    requires fine { W.has_failed writer.old ≡ false }
    ensures { Prints (W.contents writer.old) (W.contents writer.new) (W.has_failed writer.new)
        (finished_text form config.now finished.now) result }
{
    match form {
        Output::Verdicts => print_verdicts(alloc, finished, writer),
        Output::JournalText => print_journal(alloc, config, finished, writer),
    }
}
