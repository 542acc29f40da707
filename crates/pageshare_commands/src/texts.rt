//! The commands on a journal or a script.
mod ending;
mod running;

ghost use Rattle.std.specs.Prelude.{◌≡◌, false};

use crate::texts::ending::{Ending, report_ending};
use crate::texts::running::Running;
use command_terms::{CommandEnd, DrawnLine, Task, Work, first_failure, line_where};
use merge_run::OpenGate;
use page_digest::PageHash;
use share_text::{
    Noted, Output, Sink, Source, TextFault, replay, serial, threaded, threaded_viewed,
};
use std::alloc::Global;
use std::fs::{self, Files};
use std::io::{self, Eprint, Read, Write};
use std::sync::Wait;
use std::thread::Threads;
use std::time::Clock;

/// Does the work on the text in the file, or if no file is named on that of the input, on a machine with this hash.
pub fn do_text<
    T: Threads + Wait + Sync + Files + Eprint + Clock,
    R: Read + Drop,
    W: Write + Drop,
    H: PageHash + Copy,
>(
    rt: &T,
    alloc: Global,
    task: &Task<'_>,
    input: R,
    output: W,
    is_terminal: bool,
    hash: H,
) -> io::Result<CommandEnd> {
    let ending = match task.file {
        None => done_of(rt, alloc, task, input, output, is_terminal, hash),
        Some(path) => match fs::open(rt, path) {
            Ok(file) => done_of(rt, alloc, task, file, output, is_terminal, hash),
            // A file that can't be opened is an input that can't be read.
            Err(error) => Ending {
                is_of_script: task.work.is_of_script(),
                done: Err(TextFault::Read),
                failure: Some((task.input_name(), error)),
            },
        },
    };
    report_ending(rt, is_terminal, &ending)
}

/// Reports that memory was refused before any work.
pub fn report_memory(rt: &impl Eprint, is_terminal: bool) -> io::Result<CommandEnd> {
    let ending = Ending {
        is_of_script: false,
        done: Err(TextFault::OutOfMemory),
        failure: None,
    };
    report_ending(rt, is_terminal, &ending)
}

/// Does the work on a reader's text; the task's input names the reader if it fails.
fn done_of<
    'a,
    T: Threads + Wait + Sync + Eprint + Clock,
    R: Read + Drop,
    W: Write + Drop,
    H: PageHash + Copy,
>(
    rt: &T,
    alloc: Global,
    task: &Task<'a>,
    reader: R,
    writer: W,
    is_terminal: bool,
    hash: H,
) -> Ending<'a> {
    let mut input = Noted::new(reader);
    let mut output = Noted::new(writer);
    let done = match task.work {
        Work::Replay => replay(alloc, &mut input, &mut output, hash),
        Work::Serial => serial(alloc, &mut input, &mut output, hash),
        Work::Run {
            is_journal,
            progress,
        } => {
            let form = form_of(is_journal);
            let line = line_where(rt, progress, is_terminal);
            run(rt, alloc, &mut input, &mut output, form, line, hash)
        }
    };
    Ending {
        is_of_script: task.work.is_of_script(),
        done,
        failure: first_failure(task.input_name(), input.error(), output.error()),
    }
}

fn form_of(is_journal: bool) -> Output {
    if is_journal {
        Output::JournalText
    } else {
        Output::Verdicts
    }
}

/// Runs a script, and draws the line meanwhile if there is one.
fn run<T: Threads + Wait + Sync + Eprint + Clock, R: Source, W: Sink, H: PageHash + Copy>(
    rt: &T,
    alloc: Global,
    reader: &mut R,
    writer: &mut W,
    form: Output,
    line: Option<DrawnLine<'_, T>>,
    hash: H,
) -> Result<(), TextFault>
    requires reader { R.has_failed reader.old ≡ false }
    requires writer { W.has_failed writer.old ≡ false }
{
    let Some(line) = line else {
        return threaded(rt, alloc, reader, writer, hash, &OpenGate, form);
    };
    let running = Running::new(line);
    let done = threaded_viewed(rt, alloc, reader, writer, hash, &running, form);
    running.end();
    done
}
