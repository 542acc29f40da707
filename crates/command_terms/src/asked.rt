//! What a command line can ask for.
ghost use Rattle.std.specs.Prelude.{◌≡◌};
ghost use Rattle.command_terms.specs.Asked.{is_of_script, input_name};

use crate::digests::DigestWords;
use crate::estimates::EstimateWords;
use crate::fleets::FleetWords;
use crate::progress::Drawn;

/// What is to be done with a text.
#[derive(Clone, Copy, Debug, PartialEq, Eq)]
pub enum Work {
    /// Replay the journal.
    Replay,
    /// Serve the script on one thread.
    Serial,
    /// Run the script, and write its journal or its verdicts and report; the line that shows how far it is may be drawn.
    Run { is_journal: bool, progress: Drawn },
}

impl Work {
    /// Whether the text is a script, and no journal.
    pub fn is_of_script(self) -> bool
        ensures { result ≡ is_of_script self }
    {
        match self {
            Work::Replay => false,
            Work::Serial => true,
            Work::Run { .. } => true,
        }
    }
}

/// What is asked of a text: it is in the file, or on standard input.
#[derive(Clone, Copy, Debug, PartialEq, Eq)]
pub struct Task<'a> {
    pub work: Work,
    pub file: Option<&'a str>,
}

impl<'a> Task<'a> {
    /// Returns what a fault calls the text's input.
    pub fn input_name(&self) -> &'a str
        ensures { result.now ≡ input_name self.now.file }
    {
        match self.file {
            Some(path) => path,
            None => "standard input",
        }
    }
}

/// What a command line asks for.
#[derive(Debug, Drop, PartialEq, Eq)]
pub enum Asked<'a> {
    /// To do something with a text.
    Text(Task<'a>),
    /// To show what sharing would reclaim.
    Estimate(EstimateWords<'a>),
    /// To write a guest's digest.
    Digest(DigestWords<'a>),
    /// To merge digests, and show what sharing would reclaim of their guests.
    Fleet(FleetWords<'a>),
}
