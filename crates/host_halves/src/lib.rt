//! Sessions of a proved host as the host's half of `session_laws`.
//!
//! The laws hold for every domain and session. The functions' bodies are empty: the contract is all there is.
#![tactic(auto)]

ghost use Rattle.host_halves.specs.Halves.{AsksHalf, BacksKeepHalf, BeginsHalf, EmptiesKeepHalf, EmptyHalf, EndsHalf, EndsKeepHalf, LendsHalf, LinksHalf, OthersKeepHalf, ReleasesHalf, ResumesHalf, TakesBackHalf};

/// What a session's `Release` does to the domain is what it does to the half.
pub fn release_law()
    ensures { ReleasesHalf }
{}

/// When a session is taken up, what is released is what the half takes back.
pub fn resume_law()
    ensures { ResumesHalf }
{}

/// What a session's `Lend` does is what it does to the half, by slots that were free, however many of its pages may be lent. The premise
/// is that slots and frames have numbers of their own.
pub fn lend_law()
    ensures { LendsHalf }
{}

/// A lend some of whose loans are taken back does to the half what its reply says then. The premise is that of `lend_law`.
pub fn take_back_law()
    ensures { TakesBackHalf }
{}

/// A session that begins is the half of one that has just begun. The premise is that its client has no slots.
pub fn begin_law()
    ensures { BeginsHalf }
{}

/// A session's questions, a packet at fault and the end of its connection leave its half as it is.
pub fn quiet_law()
    ensures asks { AsksHalf }
    ensures links { LinksHalf }
{}

/// Packets and ends of other sessions, and what is taken back of them, leave a session's half as it is, unless a packet takes the session
/// up. The premise is that each session's client is its own, as `clients_law` of `host_sessions` has it.
pub fn others_law()
    ensures packets { OthersKeepHalf }
    ensures backs { BacksKeepHalf }
    ensures ends { EndsKeepHalf }
    ensures empties { EmptiesKeepHalf }
{}

/// A session's end frees slots of its half, and changes no other one. Where it frees none any more, the half has none. Before its
/// process has ended, a session is ended only if its half has none.
pub fn end_law()
    ensures ends { EndsHalf }
    ensures empty { EmptyHalf }
{}
