//! Questions that are answered one after the other.
ghost use Rattle.std.specs.Prelude.{◌≡◌, ◌≤◌, [], length};
ghost use Rattle.host_sessions.specs.Turns.{after_question, answer_to, answers_to, asked, page_of};
ghost use Rattle.recent_fingerprints.specs.Notes.{was_noted};
ghost use Rattle.fingerprint_domain.specs.Known.{fingerprints_in};
ghost use Rattle.host_messages.specs.declared.limits.TheConstants.{MAX_IN_MESSAGE};

use arrayvec::ArrayVec;
use fingerprint_domain::FingerprintDomain;
use host_messages::{MAX_IN_MESSAGE, Question};
use page_digest::PageHash;
use recent_fingerprints::{PageName, RecentFingerprints};
use std::alloc::Allocator;

/// Answers questions of a client, one after the other.
pub(crate) fn ask_each<H: PageHash, A: Allocator>(
    domain: &FingerprintDomain<H, A>,
    recent: &mut RecentFingerprints<A>,
    client: u32,
    questions: &[Question],
) -> ArrayVec<bool, MAX_IN_MESSAGE>
    requires { length questions.now ≤ MAX_IN_MESSAGE }
    ensures answers { result.items ≡ answers_to (fingerprints_in domain.now.salt domain.now.domain.machines) client questions.now recent.old }
    ensures asked { recent.new ≡ asked (fingerprints_in domain.now.salt domain.now.domain.machines) client questions.now recent.old }
{
    let mut answers = ArrayVec::new();
    for question in questions {
        answers.push(ask_one(domain, recent, client, question));
    }
    answers
}

/// Answers one question of a client: whether another page was noted with its fingerprint, or a frame in use has it.
fn ask_one<H: PageHash, A: Allocator>(
    domain: &FingerprintDomain<H, A>,
    recent: &mut RecentFingerprints<A>,
    client: u32,
    question: &Question,
) -> bool
    ensures answer { result ≡ answer_to (fingerprints_in domain.now.salt domain.now.domain.machines) client question.now recent.old }
    ensures noted { recent.new ≡ after_question (fingerprints_in domain.now.salt domain.now.domain.machines) client question.now recent.old }
{
    if domain.has(question.fingerprint) {
        return true;
    }
    note_one(recent, client, question)
}

/// Whether another page was noted with a question's fingerprint, which no frame in use has. Notes the question, unless it is a passing
/// one.
fn note_one<A: Allocator>(
    recent: &mut RecentFingerprints<A>,
    client: u32,
    question: &Question,
) -> bool
    ensures answer { result ≡ was_noted (page_of client question.now) question.now.fingerprint recent.old }
    ensures noted { recent.new ≡ after_question [] client question.now recent.old }
{
    let page = PageName {
        client,
        number: question.page,
    };
    if question.is_passing {
        return recent.was_noted(page, question.fingerprint);
    }
    recent.ask(page, question.fingerprint)
}
