//! How a command ended, and the program's status for it.
ghost use Rattle.std.specs.Prelude.{◌≡◌};
ghost use Rattle.std.specs.Process.{exit_status};
ghost use Rattle.command_terms.specs.Ends.{status_of, end_of, end_of_words};

use std::process::ExitCode;

/// How a command ended.
#[derive(Clone, Copy, Debug, PartialEq, Eq)]
pub enum CommandEnd {
    /// The work was done, or help or the version was asked for.
    Done,
    /// Input, output, memory or a thread was at fault.
    Fault,
    /// The words are no command line.
    WrongWords,
}

impl CommandEnd {
    /// Returns the end of work that was done, or at fault.
    pub fn of<T, E>(done: &Result<T, E>) -> CommandEnd
        ensures { result ≡ end_of done.now }
    {
        match done {
            Ok(_) => CommandEnd::Done,
            Err(_) => CommandEnd::Fault,
        }
    }

    /// Returns the end of a command whose words ask for no work: for help or the version, or they are a mistake.
    pub fn of_words(is_mistake: bool) -> CommandEnd
        ensures { result ≡ end_of_words is_mistake }
    {
        if is_mistake {
            CommandEnd::WrongWords
        } else {
            CommandEnd::Done
        }
    }

    /// Returns the program's status.
    pub fn exit_code(self) -> ExitCode
        ensures { exit_status result ≡ status_of self }
    {
        ExitCode::from(match self {
            CommandEnd::Done => 0,
            CommandEnd::Fault => 1,
            CommandEnd::WrongWords => 2,
        })
    }
}
