//! What the lines of scripts ask for.
ghost use Rattle.std.specs.Prelude.{◌≡◌};
ghost use Rattle.script_text.specs.Works.{size_of};

use page_model::Request;

/// What a line of a script asks for.
#[derive(Debug, PartialEq, Eq, Drop)]
pub enum Work {
    /// One request.
    Asks(Request),
    /// This many proposals of a scan in order.
    ScansInOrder(u32),
    /// This many proposals of the random scan with this seed.
    ScansAtRandom(u64, u32),
}

/// A guest's line of a script.
#[derive(Debug, PartialEq, Eq, Drop)]
pub struct Item {
    pub guest: u8,
    pub work: Work,
}

impl Work {
    /// Returns how many requests it is.
    pub fn size(&self) -> u32
        ensures { result ≡ size_of self.now }
    {
        match self {
            Work::Asks(_) => 1,
            Work::ScansInOrder(n) => *n,
            Work::ScansAtRandom(_, n) => *n,
        }
    }
}
