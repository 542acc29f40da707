//! Both halves of a session, over connections that end at any moment and hosts that end at any moment.
//!
//! The laws hold for every history. The functions' bodies are empty: the contract is all there is.
#![tactic(auto)]

ghost use Rattle.session_laws.specs.World.{Always};
ghost use Rattle.session_laws.specs.Laws.{Agrees, AlwaysSound, FreesGivenUp, KeepsShown, KnowsAll, LosesOne, TakesBack};

/// Whatever is said, lost and heard, in any order: the halves, and what is under way between them, fit each other.
pub fn sound_law()
    ensures { AlwaysSound }
{}

/// *A frame stays in use as long as a page of the client shows it.* No release, resumption or end of a connection frees it before.
pub fn shown_law()
    ensures { Always KeepsShown }
{}

/// Each slot that the host counts as the client's is shown, or waits for its release, or its loan is in a reply that is under way or
/// lost. When the session is taken up, none of a lost reply is left.
pub fn known_law()
    ensures knows { Always KnowsAll }
    ensures takes_back { Always TakesBack }
{}

/// A release that is said again frees only what the client gave up.
pub fn release_law()
    ensures { Always FreesGivenUp }
{}

/// Where nothing is open and nothing waits for its release, both halves have the same slots.
pub fn agree_law()
    ensures { Always Agrees }
{}

/// The premises can be met: a history in which a reply to `Lend` is lost, and what it leaves.
pub fn loss_law()
    ensures { LosesOne }
{}
