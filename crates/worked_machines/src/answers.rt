//! What calls answer, as plain values.
use merge_run::{JournalFull, Step};
use page_model::Verdict;
use share_rings::SendFault;
use worked_answers::{Answer, answer_of};

/// What a call answers.
#[derive(Clone, Copy, PartialEq, Eq)]
pub enum Reply {
    /// A request was sent.
    Sent,
    /// No slot for the request is known to be free.
    Busy,
    /// A step's answers.
    Ended,
    Blocked,
    Idle,
    Done,
    /// The journal is full.
    Full,
    /// There is no verdict.
    Nothing,
    /// A verdict.
    Got(Answer),
    /// How many requests a round served.
    Number(u32),
    /// An answer that no test expects.
    Other,
}

pub fn sent(sent: Result<(), SendFault>) -> Reply {
    match sent {
        Ok(()) => Reply::Sent,
        Err(SendFault::Busy) => Reply::Busy,
        Err(_) => Reply::Other,
    }
}

pub fn stepped(step: Result<Step, JournalFull>) -> Reply {
    match step {
        Ok(Step::Ended) => Reply::Ended,
        Ok(Step::Blocked) => Reply::Blocked,
        Ok(Step::Idle) => Reply::Idle,
        Ok(Step::Done) => Reply::Done,
        Err(JournalFull) => Reply::Full,
    }
}

pub fn rounded(served: Result<u32, JournalFull>) -> Reply {
    match served {
        Ok(requests) => Reply::Number(requests),
        Err(JournalFull) => Reply::Full,
    }
}

pub fn got(verdict: Option<Verdict>) -> Reply {
    match &verdict {
        None => Reply::Nothing,
        Some(verdict) => Reply::Got(answer_of(verdict)),
    }
}
