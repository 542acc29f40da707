//! What is asked of pages in a row, by its number.
ghost use Rattle.std.specs.Prelude.{◌≡◌};
ghost use Rattle.pageshare_window_c.specs.ProcessPages.{question_by};

use process_lender::Question;
use window_pages::WindowFacts;

/// What is asked of pages in a row.
#[repr(C)]
#[derive(Clone, Copy)]
pub struct ProcessQuestion {
    /// The number of what it is.
    pub kind: u8,
    /// Of zeros that are to be mapped: somebody else watches the pages.
    pub flag: bool,
    /// Of a call that is to go on: what is so of the pages from then on.
    pub why: WindowFacts,
}

// Returns what is asked. No other number is that of a question.
pub(crate) fn question_by(question: &ProcessQuestion) -> Option<Question>
    ensures { result ≡ question_by question.now }
{
    match question.kind {
        1 => Some(Question::GoOn(question.why)),
        2 => Some(Question::GiveUp),
        3 => Some(Question::Exchange),
        4 => Some(Question::TakeZeros),
        5 => Some(Question::WantZeros(question.flag)),
        6 => Some(Question::LieOver),
        _ => None,
    }
}
