//! What is printed of a fault of a journal or a script on standard error.
use command_terms::{CommandEnd, ScriptFault, error_line, script_fault};
use share_text::TextFault;
use std::io;

/// How the work on a journal or a script ended; if a read or a write failed, also what it failed on and the system's
/// error.
#[derive(Drop)]
pub struct Ending<'a> {
    pub is_of_script: bool,
    pub done: Result<(), TextFault>,
    pub failure: Option<(&'a str, io::Error)>,
}

/// Reports a fault, and returns how the command ended. A fault that the output can't report goes to standard error, and
/// if standard error is a terminal, one more line explains any fault to the person who is there.
pub fn report_ending(
    rt: &impl Eprint,
    is_terminal: bool,
    ending: &Ending<'_>,
) -> io::Result<CommandEnd> {
    if let Err(fault) = &ending.done {
        if let Some(line) = line_of(fault) {
            eprintln!(rt; "{line}")?;
        }
        if is_terminal {
            explain(rt, fault, ending)?;
        }
    }
    Ok(CommandEnd::of(&ending.done))
}

/// Returns the line on standard error for a fault; `None` if the output has it.
fn line_of(fault: &TextFault) -> Option<&'static str> {
    match fault.plain() {
        Ok(fault) => error_line(&fault),
        Err(_) => None,
    }
}

/// Explains the fault: in the system's own words if there are any, and else by what was expected.
fn explain(rt: &impl Eprint, fault: &TextFault, ending: &Ending<'_>) -> io::Result<()> {
    if let Some((name, error)) = &ending.failure {
        return eprintln!(rt; "{name}: {error}");
    }
    match script_fault_of(fault, ending.is_of_script) {
        Some(fault) => eprintln!(rt; "{fault}"),
        None => eprintln!(rt; "{fault}"),
    }
}

/// Returns the fault of a script; `None` if the fault's own words serve.
fn script_fault_of(fault: &TextFault, is_of_script: bool) -> Option<ScriptFault> {
    match fault.plain() {
        Ok(fault) if is_of_script => script_fault(&fault),
        _ => None,
    }
}
