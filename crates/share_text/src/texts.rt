//! Texts read, and the engines that start no thread, with this crate's faults.
ghost use Rattle.std.specs.Prelude.{◌≡◌, false};
ghost use Rattle.text_words.specs.Views.{Gives};
ghost use Rattle.journal_text.specs.Texts.{journal_of};
ghost use Rattle.journal_text.specs.Views.{journal_seen};
ghost use Rattle.journal_replay.specs.Ends.{has_read_fault, has_write_fault};
ghost use Rattle.journal_replay.specs.Replayed.{Replays};
ghost use Rattle.script_text.specs.Served.{Serves};
ghost use Rattle.script_text.specs.Texts.{script_of};
ghost use Rattle.script_text.specs.Views.{script_seen};
ghost use Rattle.share_text.specs.Faults.{AsText};

use crate::fault::TextFault;
use journal_replay::{Sink, Source};
use journal_text::Journal;
use page_digest::PageHash;
use script_text::Script;
use std::alloc::Allocator;

/// Reads a journal's text, version 1 or 2. In version 1 every guest has the salt 0.
///
/// An `Err` is the text's first fault, in the order of `docs/FORMATS.md`, or `OutOfMemory` if memory was refused before that
/// fault's line was read.
pub fn read_journal<A: Allocator + Clone>(alloc: A, text: &[u8]) -> Result<Journal<A>, TextFault>
    ensures { AsText result (λ r. Gives journal_seen r (journal_of text.now)) }
{
    match journal_text::read_journal(alloc, text) {
        Ok(journal) => Ok(journal),
        Err(fault) => Err(TextFault::from(fault)),
    }
}

/// Reads a script's text, version 1 or 2, with its scans written out as proposals. In version 1 every guest has the salt 0.
///
/// # Errors
///
/// The text's first fault, in the order of `docs/FORMATS.md`, or `OutOfMemory` if memory was refused before that fault's line
/// was read.
pub fn read_script<A: Allocator + Clone>(alloc: A, text: &[u8]) -> Result<Script<A>, TextFault>
    ensures { AsText result (λ r. Gives script_seen r (script_of text.now)) }
{
    match script_text::read_script(alloc, text) {
        Ok(script) => Ok(script),
        Err(fault) => Err(TextFault::from(fault)),
    }
}

/// Reads a journal, and writes a verdict line for each entry and then the report line.
///
/// If the text is at fault, only the line of the fault is written, and the fault is returned. On `OutOfMemory`, `Read` and
/// `Long` nothing was written, and on `Write` a front of the output went out. `Read` is returned exactly if the reader failed,
/// and `Write` exactly if the writer did.
pub fn replay<R: Source, W: Sink, H: PageHash + Drop, A: Allocator + Clone>(
    alloc: A,
    reader: &mut R,
    writer: &mut W,
    hash: H,
) -> Result<(), TextFault>
    requires reader { R.has_failed reader.old ≡ false }
    requires writer { W.has_failed writer.old ≡ false }
    ensures bytes { AsText result (λ r. Replays H.hash_of (R.remaining reader.old) (W.contents writer.old) (W.contents writer.new) r) }
    ensures reader { AsText result (λ r. R.has_failed reader.new ≡ has_read_fault r) }
    ensures writer { AsText result (λ r. W.has_failed writer.new ≡ has_write_fault r) }
{
    match journal_replay::replay(alloc, reader, writer, hash) {
        Ok(()) => Ok(()),
        Err(fault) => Err(TextFault::from(fault)),
    }
}

/// Reads a script, and writes a verdict line for each request in its serial order and then the report line.
///
/// In that order the guests take turns, guest 0 first, each with its next request; each guest's last request is its close, and
/// a guest that has ended is left out. A text at fault is answered as [`replay`] does.
pub fn serial<R: Source, W: Sink, H: PageHash + Drop, A: Allocator + Clone>(
    alloc: A,
    reader: &mut R,
    writer: &mut W,
    hash: H,
) -> Result<(), TextFault>
    requires reader { R.has_failed reader.old ≡ false }
    requires writer { W.has_failed writer.old ≡ false }
    ensures bytes { AsText result (λ r. Serves H.hash_of (R.remaining reader.old) (W.contents writer.old) (W.contents writer.new) r) }
    ensures reader { AsText result (λ r. R.has_failed reader.new ≡ has_read_fault r) }
    ensures writer { AsText result (λ r. W.has_failed writer.new ≡ has_write_fault r) }
{
    match script_text::serial(alloc, reader, writer, hash) {
        Ok(()) => Ok(()),
        Err(fault) => Err(TextFault::from(fault)),
    }
}
