//! What goes to standard error where a read or a write failed, or memory was refused.
ghost use Rattle.std.specs.Prelude.{◌≡◌, option_map};
ghost use Rattle.command_terms.specs.Failures.{error_line, first_failure};

use text_words::TextFault;

/// Returns the line on standard error for a fault that the output can't report; `None` if the output does.
#[tactic(auto, unfolding(text_words::specs::Printed::fault_line))]
pub fn error_line(fault: &TextFault) -> Option<&'static str>
    ensures { option_map (λ line. line.now) result ≡ error_line fault.now }
{
    match fault {
        TextFault::Line(_, _) => None,
        TextFault::Truncated(_) => None,
        TextFault::Count => None,
        TextFault::OutOfMemory => Some("fault memory"),
        TextFault::Read => Some("fault read"),
        TextFault::Write => Some("fault write"),
        TextFault::Long => Some("fault long"),
    }
}

/// Returns what failed and why, if a read or a write did: the input, by its name, before the output.
pub fn first_failure<'a, E: Drop>(
    name: &'a str,
    input: Option<E>,
    output: Option<E>,
) -> Option<(&'a str, E)>
    ensures { option_map (λ failure. (failure.0.now, failure.1)) result ≡ first_failure name.now input output }
{
    match (input, output) {
        (Some(error), _) => Some((name, error)),
        (None, Some(error)) => Some(("standard output", error)),
        (None, None) => None,
    }
}
