//! The engines under one name, so that a test can go over all of them.
use crate::journals::ZEROS;
use crate::scripts::{SCAN_JOURNAL, scan};
use merge_run::OpenGate;
use page_digest::PageHash;
use share_text::{Noted, Output, Sink, Source, TextFault, replay, serial, threaded};
use std::alloc::{Allocator, Global};
use std::io::{Read, Write};
use std::sync::Wait;
use std::thread::Threads;

/// Which engine serves a text.
#[derive(Clone, Copy)]
pub enum Engine {
    /// `replay`, of journals.
    Replay,
    /// `serial`, of scripts.
    Serial,
    /// `threaded`, of scripts, whose output has this form.
    Threaded(Output),
}

/// A text for an engine, and what the engine writes for it.
#[derive(Clone, Copy)]
pub struct Case {
    pub engine: Engine,
    pub text: &'static str,
    pub output: &'static str,
}

/// Returns each engine in each form, with a text that has one output.
pub fn cases() -> [Case; 4] {
    [
        Case {
            engine: Engine::Replay,
            text: ZEROS,
            output: "0 mapped\n0 bytes 6869\n0 bytes 0000\n0 bytes 00\n0 closed\nreport entries 5 mapped 1 shared 0 frames 1 reclaimed 0 hints 0\n",
        },
        Case {
            engine: Engine::Serial,
            text: scan().text,
            output: scan().output,
        },
        Case {
            engine: Engine::Threaded(Output::Verdicts),
            text: scan().text,
            output: scan().output,
        },
        Case {
            engine: Engine::Threaded(Output::JournalText),
            text: scan().text,
            output: SCAN_JOURNAL,
        },
    ]
}

/// How an engine ended: its answer, and which of its ends failed.
#[derive(Drop)]
pub struct Ended {
    answer: Result<(), TextFault>,
    pub read_failed: bool,
    pub write_failed: bool,
}

impl Ended {
    /// Whether the text was served.
    pub fn is_well(&self) -> bool {
        self.answer == Ok(())
    }

    /// Whether the text was refused for this fault.
    pub fn is_refused(&self, fault: TextFault) -> bool {
        self.answer == Err(fault)
    }
}

fn by_replay<A: Allocator + Copy, R: Read + Drop, W: Write + Drop, H: PageHash + Drop>(
    heap: A,
    reader: R,
    writer: W,
    hash: H,
) -> Ended {
    let mut source = Noted::new(reader);
    let mut sink = Noted::new(writer);
    let answer = replay(heap, &mut source, &mut sink, hash);
    Ended {
        answer,
        read_failed: source.failed(),
        write_failed: sink.failed(),
    }
}

fn by_serial<A: Allocator + Copy, R: Read + Drop, W: Write + Drop, H: PageHash + Drop>(
    heap: A,
    reader: R,
    writer: W,
    hash: H,
) -> Ended {
    let mut source = Noted::new(reader);
    let mut sink = Noted::new(writer);
    let answer = serial(heap, &mut source, &mut sink, hash);
    Ended {
        answer,
        read_failed: source.failed(),
        write_failed: sink.failed(),
    }
}

fn by_threads<
    T: Threads + Wait + Sync,
    A: Allocator + Copy + Send + Sync,
    R: Read + Drop,
    W: Write + Drop,
    H: PageHash + Drop,
>(rt: &T, heap: A, reader: R, writer: W, hash: H, form: Output) -> Ended {
    let mut source = Noted::new(reader);
    let mut sink = Noted::new(writer);
    Ended {
        answer: threaded(rt, heap, &mut source, &mut sink, hash, &OpenGate, form),
        read_failed: source.failed(),
        write_failed: sink.failed(),
    }
}

/// Serves a reader's text by an engine and writes to a writer, with memory from `heap`. Returns how the engine ended.
///
/// It promises nothing, and each engine is called in a function of its own, so no test carries the engines' contracts.
pub fn serve<
    T: Threads + Wait + Sync,
    A: Allocator + Copy + Send + Sync,
    R: Read + Drop,
    W: Write + Drop,
    H: PageHash + Drop,
>(rt: &T, heap: A, engine: Engine, reader: R, writer: W, hash: H) -> Ended {
    match engine {
        Engine::Replay => by_replay(heap, reader, writer, hash),
        Engine::Serial => by_serial(heap, reader, writer, hash),
        Engine::Threaded(form) => by_threads(rt, heap, reader, writer, hash, form),
    }
}

/// Returns how an engine serves a text, and what it writes. The engine allocates by `heap`, and the output is in other
/// memory.
pub fn served_in<T: Threads + Wait + Sync, A: Allocator + Copy + Send + Sync, H: PageHash + Drop>(
    rt: &T,
    alloc: Global,
    heap: A,
    engine: Engine,
    text: &str,
    hash: H,
) -> (Ended, Vec<u8>) {
    let mut out = Vec::new(alloc);
    let ended = serve(rt, heap, engine, text.as_bytes(), &mut out, hash);
    (ended, out)
}
