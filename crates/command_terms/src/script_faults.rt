//! What was expected where a script is at fault, in words for a person. The other faults are the same in a journal, and
//! `TextFault` shows what was expected.
ghost use Rattle.std.specs.Prelude.{◌≡◌, Some, option_map};
ghost use Rattle.command_terms.specs.Scripts.{line_form, shown_text, line_fault_text, script_fault_text};

use std::fmt::{self, Display, Formatter};
use text_words::{Cause, TextFault};

/// A fault of a script, with what was expected there.
#[derive(Clone, Copy, Debug, PartialEq, Eq)]
pub enum ScriptFault {
    /// This line is at fault.
    Line(u32, &'static str),
    /// The script ends before this line does.
    CutOff(u32, &'static str),
    /// The end line has a wrong number of script lines.
    Count(&'static str),
}

impl Display for ScriptFault {
    ghost output = { λ fault. Some (shown_text fault) };

    fn fmt<W: fmt::Write>(&self, f: &mut Formatter<W>) -> fmt::Result {
        match *self {
            ScriptFault::Line(n, form) => write!(f, "line {n}: expected {form}"),
            ScriptFault::CutOff(n, form) => {
                write!(
                    f,
                    "line {n} is cut off: expected {form}, and a line feed behind it"
                )
            }
            ScriptFault::Count(form) => {
                write!(f, "the number of script lines is wrong: expected {form}")
            }
        }
    }
}

/// Returns the form of line `n` of a script.
fn line_form(n: u32) -> &'static str
    ensures { result.now ≡ line_form n }
{
    if n == 1 {
        "\"pageshare script 1\" or \"pageshare script 2\""
    } else if n == 2 {
        "\"frames NUMBER\""
    } else if n == 3 {
        "\"pages NUMBER ..\""
    } else if n == 4 {
        "\"ring NUMBER\"; in version 2 \"salts NUMBER ..\""
    } else if n == 5 {
        "\"journal NUMBER\"; in version 2 \"ring NUMBER\""
    } else if n == 6 {
        "a script line, as \"GUEST propose PPN\" or \"GUEST scan sequential NUMBER\", or \"end NUMBER\" with nothing behind that line; in version 2 \"journal NUMBER\""
    } else {
        "a script line, as \"GUEST propose PPN\" or \"GUEST scan sequential NUMBER\", or \"end NUMBER\" with nothing behind that line"
    }
}

/// Returns what is printed of line `n`, if it is at fault for this cause; `None` if it is what is printed of a journal.
fn line_fault(n: u32, cause: Cause) -> Option<ScriptFault>
    ensures { option_map shown_text result ≡ line_fault_text n cause }
{
    match cause {
        Cause::Header => Some(ScriptFault::Line(n, line_form(n))),
        Cause::Form => Some(ScriptFault::Line(n, line_form(n))),
        Cause::Length => Some(ScriptFault::Line(n, "1 to 64 bytes, or a scan of 1 page or more")),
        Cause::Frames => None,
        Cause::Guests => None,
        Cause::Pages => None,
        Cause::Ring => None,
        Cause::Journal => None,
        Cause::NoGuest => None,
        Cause::Crosses => None,
        Cause::AfterClose => None,
        Cause::TooMany => None,
        Cause::Salts => None,
    }
}

/// Returns what is printed of a fault of a script; `None` if it is what is printed of a journal.
pub fn script_fault(fault: &TextFault) -> Option<ScriptFault>
    ensures { option_map shown_text result ≡ script_fault_text fault.now }
{
    match fault {
        TextFault::Line(n, cause) => line_fault(*n, *cause),
        TextFault::Truncated(n) => Some(ScriptFault::CutOff(*n, line_form(*n))),
        TextFault::Count => {
            Some(ScriptFault::Count("\"end NUMBER\" with the number of script lines"))
        }
        TextFault::OutOfMemory => None,
        TextFault::Read => None,
        TextFault::Write => None,
        TextFault::Long => None,
    }
}
