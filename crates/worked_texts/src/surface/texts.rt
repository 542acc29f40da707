//! `share_text`: texts and engines.
use crate::checks::holds;
use page_digest::Sha256Hash;
use page_model::{Report, Verdict};
use share_text::{
    Noted, OpenGate, Output, RunFault, Sink, Source, TextFault, fault_line, read_journal,
    read_script, replay, report_line, serial, threaded, verdict_line, write_journal,
};
use std::alloc::Global;
use std::process::Abort;
use std::sync::Wait;
use std::thread::Threads;

const JOURNAL: &str = "pageshare journal 1\nframes 1\npages 1\n0 close\nend 1\n";

const SCRIPT: &str = "pageshare script 1\nframes 1\npages 1\nring 1\njournal 1\nend 0\n";

const WRITTEN: &str = "0 closed\nreport entries 1 mapped 0 shared 0 frames 0 reclaimed 0 hints 0\n";

/// Reads a journal, and returns it as it is written.
fn written_back(rt: &impl Abort, alloc: Global, text: &[u8]) -> String {
    let journal = read_journal(alloc, text).expect(rt, "a journal");
    write_journal(alloc, &journal).expect(rt, "memory")
}

#[test]
fn texts(rt: HostRuntime) {
    let journal = written_back(&rt, rt.alloc(), JOURNAL.as_bytes());
    holds(&rt, journal.as_str() == JOURNAL);
    let script = read_script(rt.alloc(), SCRIPT.as_bytes()).expect(&rt, "a script");
    holds(&rt, script.scripts.len() == 1);
    holds(
        &rt,
        read_journal(rt.alloc(), &[]).err() == Some(TextFault::Truncated(1)),
    );
}

#[test]
fn lines(rt: HostRuntime) {
    let report = Report::new(1, 0, 0, 0, 0);
    let verdict = verdict_line(rt.alloc(), 0, &Verdict::Closed).expect(&rt, "memory");
    let report = report_line(rt.alloc(), &report).expect(&rt, "memory");
    let fault = fault_line(rt.alloc(), &TextFault::Run(RunFault::NoThread)).expect(&rt, "memory");
    holds(&rt, verdict.as_str() == "0 closed");
    holds(
        &rt,
        report.as_str() == "report entries 1 mapped 0 shared 0 frames 0 reclaimed 0 hints 0",
    );
    holds(&rt, fault.as_str() == "fault run: no-thread");
}

fn replayed(alloc: Global, out: &mut Vec<u8>) -> Result<(), TextFault> {
    let mut reader = Noted::new(JOURNAL.as_bytes());
    let mut writer = Noted::new(out);
    replay(alloc, &mut reader, &mut writer, Sha256Hash)
}

fn served(alloc: Global, out: &mut Vec<u8>) -> Result<(), TextFault> {
    let mut reader = Noted::new(SCRIPT.as_bytes());
    let mut writer = Noted::new(out);
    serial(alloc, &mut reader, &mut writer, Sha256Hash)
}

fn run<R: Threads + Wait + Sync + Abort>(
    rt: &R,
    alloc: Global,
    out: &mut Vec<u8>,
) -> Result<(), TextFault> {
    let mut reader = Noted::new(SCRIPT.as_bytes());
    let mut writer = Noted::new(out);
    let form = Output::Verdicts;
    threaded(
        rt,
        alloc,
        &mut reader,
        &mut writer,
        Sha256Hash,
        &OpenGate,
        form,
    )?;
    holds(rt, !reader.failed());
    holds(rt, !writer.failed());
    Ok(())
}

#[test]
fn engines(rt: HostRuntime) {
    let (mut first, mut second) = (Vec::new(rt.alloc()), Vec::new(rt.alloc()));
    let mut third = Vec::new(rt.alloc());
    replayed(rt.alloc(), &mut first).expect(&rt, "memory");
    served(rt.alloc(), &mut second).expect(&rt, "memory");
    run(&rt, rt.alloc(), &mut third).expect(&rt, "memory");
    holds(&rt, first.as_slice() == WRITTEN.as_bytes());
    holds(&rt, second.as_slice() == WRITTEN.as_bytes());
    holds(&rt, third.as_slice() == WRITTEN.as_bytes());
}
