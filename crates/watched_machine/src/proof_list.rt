//! The lists that a watch learned, which exist in the proofs alone. They have no bytes.
//!
//! They are a separate log, under no rule, which is opened anew whenever a list is learned.
ghost use Rattle.std.specs.Prelude.{◌≡◌, ◌++◌, ◌∷◌, []};

use crate::told::Told;
use logbook::{Opening, Rule, Seen, Start};
use page_model::Report;
use std::collections::LinkedList;

/// No rule.
pub struct Unruled;

impl<E> Rule<E, u64> for Unruled {
    ghost use Rattle.std.specs.Prelude.{[]};
    ghost use base.Fml.{ftrue};

    ghost holds = { λ cells list. Unit {0} };

    ghost first = { [] };

    ghost hinted = { λ number list. Unit {0} };

    ghost shows = { λ list. [] };

    ghost keeps = { λ names list. ftrue };

    ghost moves = { λ ask before after answer. Unit {0} };
}

pub type ProofList<E> = Seen<E, u64, Unruled>;

/// The empty list.
pub struct NothingYet;

impl Opening<(), LinkedList<Report>> for NothingYet {
    ghost use Rattle.std.specs.Prelude.{[]};

    ghost log = { λ count about. [] };
}

/// What a watch learned before, and what it learns now.
#[derive(Drop)]
pub struct Hearing {
    pub heard: ProofList<LinkedList<Report>>,
    pub told: Told,
}

/// The lists that were learned before, and then the one that is learned now.
pub struct OneMoreHeard;

impl Opening<Hearing, LinkedList<Report>> for OneMoreHeard {
    ghost use Rattle.std.specs.Prelude.{[], ◌∷◌, ◌++◌};

    ghost log = { λ count hearing. hearing.heard.log ++ hearing.told.history.log ∷ [] };
}

/// Returns the lists of a watch that has learned none.
pub fn nothing_heard() -> ProofList<LinkedList<Report>>
    ensures { result.log ≡ [] }
{
    Seen::open_row::<(), NothingYet>(&(), Start::alone(), 0).0
}

/// Appends the list that is learned now to those that were learned before.
pub fn heard_also(
    heard: ProofList<LinkedList<Report>>,
    told: Told,
) -> (ProofList<LinkedList<Report>>, Told)
    ensures heard { result.0.log ≡ heard.log ++ told.history.log ∷ [] }
    ensures told { result.1 ≡ told }
{
    let hearing = Hearing { heard, told };
    let (heard, _rights) = Seen::open_row::<Hearing, OneMoreHeard>(&hearing, Start::alone(), 0);
    let Hearing { heard: _, told } = hearing;
    (heard, told)
}
