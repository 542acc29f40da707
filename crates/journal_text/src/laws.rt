//! Laws of the texts, about the definitions alone.
ghost use Rattle.journal_text.specs.Written.{ReadsAsWritten};

/// A written journal is read as the same journal. Its numbers must be within the limits, and its text not too long. Each entry
/// must be of one of its guests, and none may follow its guest's close.
pub fn reading_law()
    ensures { ReadsAsWritten }
{}
