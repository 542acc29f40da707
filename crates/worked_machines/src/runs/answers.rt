//! The verdicts of a run as answers.
use page_model::Verdict;
use std::alloc::{AllocError, Allocator, Global};
use worked_answers::{Answer, answer_of};

fn answers_of(alloc: Global, verdicts: &[Verdict]) -> Result<Vec<Answer>, AllocError> {
    let mut answers = Vec::new(alloc);
    for verdict in verdicts {
        answers.push(answer_of(verdict))?;
    }
    Ok(answers)
}

/// Returns the answers of each list, with memory from `alloc`.
pub fn lists_of<A: Allocator>(
    alloc: Global,
    verdicts: &[Vec<Verdict, A>],
) -> Result<Vec<Vec<Answer>>, AllocError> {
    let mut lists = Vec::new(alloc);
    for list in verdicts {
        lists.push(answers_of(alloc, list)?)?;
    }
    Ok(lists)
}
