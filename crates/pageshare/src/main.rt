//! The program `pageshare`, whose commands are those of the crate `pageshare_commands`.
#![tactic(auto)]

use page_digest::Sha256Hash;
use pageshare_commands::{Build, do_command};
use std::io::{self, IsTerminal};
use std::process::ExitCode;

/// Four pages are hashed at once, which is what processors of x86-64-v2 have vectors for.
const BUILD: Build<Sha256Hash> = Build {
    hash: Sha256Hash,
    version: "0.1.0, built for x86-64-v2",
};

fn main(rt: HostRuntime) -> io::Result<ExitCode> {
    let alloc = rt.alloc();
    let words: Vec<String> = std::env::args(&rt)?.collect(alloc)?;
    let is_terminal = rt.stderr().is_terminal();
    do_command(
        &rt,
        alloc,
        &words,
        rt.stdin(),
        rt.stdout(),
        is_terminal,
        &BUILD,
    )
}
