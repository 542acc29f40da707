//! When the line is drawn.
ghost use Rattle.std.specs.Prelude.{◌≡◌};
ghost use Rattle.command_terms.specs.When.{is_on, drawn_of};

/// When a line on standard error shows how far the work is.
#[derive(Clone, Copy, Debug, PartialEq, Eq)]
pub enum Drawn {
    /// If standard error is a terminal.
    Auto,
    Always,
    Never,
}

impl Drawn {
    /// Whether the line is drawn. `is_terminal` says whether standard error is a terminal.
    pub fn is_on(self, is_terminal: bool) -> bool
        ensures { result ≡ is_on self is_terminal }
    {
        match self {
            Drawn::Auto => is_terminal,
            Drawn::Always => true,
            Drawn::Never => false,
        }
    }

    /// Returns what the word asks for; `None` if it is none of the three.
    pub fn of_word(word: &str) -> Option<Drawn>
        ensures { result ≡ drawn_of word.now }
    {
        match word {
            "auto" => Some(Drawn::Auto),
            "always" => Some(Drawn::Always),
            "never" => Some(Drawn::Never),
            _ => None,
        }
    }
}
