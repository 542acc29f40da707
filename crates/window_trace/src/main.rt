//! The program `window_trace`: plays a trace of windows by their protocol.
//!
//! It prints one line. Its status is 0 if each event was possible and each page showed what the trace says, 1 if not, and 2 if
//! the trace can't be read.
#![tactic(auto)]

use page_model::MAX_TEXT_BYTES;
use std::alloc::Global;
use std::io::{self, ErrorKind, Read};
use std::process::ExitCode;
use std::{env, fs};
use text_words::{TextFault, fault_line};
use trace_text::{Outcome, outcome_line, play, read_trace};

/// Reads a whole text, or one byte more than a text has at most.
fn read_all<R: Read + Drop>(alloc: Global, source: R) -> Result<Vec<u8>, TextFault> {
    let mut text = Vec::new(alloc);
    match source
        .take(MAX_TEXT_BYTES as u64 + 1)
        .read_to_end(&mut text)
    {
        Ok(_) => Ok(text),
        Err(error) if error.kind() == ErrorKind::OutOfMemory => Err(TextFault::OutOfMemory),
        Err(_) => Err(TextFault::Read),
    }
}

/// Reads the text of the file that the first argument names, or of standard input.
fn read_input(rt: &HostRuntime, alloc: Global, words: &[String]) -> Result<Vec<u8>, TextFault> {
    let Some(path) = words.get(1) else {
        return read_all(alloc, rt.stdin());
    };
    match fs::open(rt, path) {
        Ok(file) => read_all(alloc, file),
        Err(_) => Err(TextFault::Read),
    }
}

/// Reads a trace and plays it.
fn outcome_of(rt: &HostRuntime, alloc: Global, words: &[String]) -> Result<Outcome, TextFault> {
    let text = read_input(rt, alloc, words)?;
    let trace = read_trace(alloc, &text)?;
    Ok(play(alloc, &trace)?)
}

fn main(rt: HostRuntime) -> io::Result<ExitCode> {
    let alloc = rt.alloc();
    let words: Vec<String> = env::args(&rt)?.collect(alloc)?;
    let (line, status) = match outcome_of(&rt, alloc, &words) {
        Ok(outcome) => {
            let status = match outcome {
                Outcome::Right(_, _) => 0,
                _ => 1,
            };
            (outcome_line(alloc, &outcome)?, status)
        }
        Err(fault) => (fault_line(alloc, &fault)?, 2),
    };
    println!(rt; "{line}")?;
    Ok(ExitCode::from(status))
}
