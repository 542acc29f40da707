//! What `pageshare run` does with a script on standard input, without the rest of the program.
#![tactic(auto)]

ghost use Rattle.std.specs.Prelude.{◌≡◌, false};

use page_digest::Sha256Hash;
use share_text::{Noted, OpenGate, Output, Sink, Source, TextFault, threaded};
use std::alloc::Global;
use std::process::ExitCode;
use std::sync::Wait;
use std::thread::Threads;

fn main(rt: HostRuntime) -> ExitCode {
    let mut script = Noted::new(rt.stdin());
    let mut output = Noted::new(rt.stdout());
    match run(&rt, rt.alloc(), &mut script, &mut output) {
        Ok(()) => ExitCode::SUCCESS,
        Err(_) => ExitCode::FAILURE,
    }
}

/// Runs a script with a thread for each guest, and writes the guests' verdicts and the report.
fn run<T: Threads + Wait + Sync, R: Source, W: Sink>(
    rt: &T,
    alloc: Global,
    script: &mut R,
    output: &mut W,
) -> Result<(), TextFault>
    requires reader { R.has_failed script.old ≡ false }
    requires writer { W.has_failed output.old ≡ false }
{
    threaded(
        rt,
        alloc,
        script,
        output,
        Sha256Hash,
        &OpenGate,
        Output::Verdicts,
    )
}
