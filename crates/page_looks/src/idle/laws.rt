//! What it means that a page is idle, and that no page waits for ever. The functions' bodies are empty: the contract is all there is.
ghost use Rattle.std.specs.Prelude.{◌≡◌};
ghost use Rattle.page_looks.specs.Idle.{IdleIsAlike, IdleMeansAlike, IdleOverMeansAlike};
ghost use Rattle.page_looks.specs.Turns.{EachHasItsTurn, EachIsNoted};
ghost use Rattle.page_looks.specs.Samples.{LeftOutHasNoTurn, EachIsSampled};
ghost use Rattle.page_looks.specs.Ways.{ChangesAreMet, IdleIsGlancedAt, GlancesBeforeReads, OverIsNeverMet, KeptIsIdle, NewIsMet, EachIsRead, StaysIsIdle};
ghost use Rattle.page_looks.specs.Rests.{RestsWithin, ChangesEndRests, AllAreSampled, EachIsGlancedAt};
ghost use Rattle.page_looks.specs.declared.idle.look.TheConstants.{ASKS_MOST, CALM_PART, PASSING_EACH, READ_EACH, READ_EACH_OVER, TOGETHER, TURNS, WHOLE_TURNS};

/// An idle page was read at least twice since it was last met or forgotten, and the last two reads found the same fingerprint. With memory
/// of its own it is idle exactly if that is so. Over a frame it is idle exactly if the last three reads did.
pub fn idle_law()
    ensures any { IdleIsAlike }
    ensures own { IdleMeansAlike }
    ensures over { IdleOverMeansAlike }
{}

/// Whatever the look, a page has its turn within as many looks as its turns are apart. At one of so many turns in a row the question about it
/// isn't in passing.
pub fn turn_law()
    ensures turns { EachHasItsTurn }
    ensures noted { EachIsNoted }
{}

/// Only an idle page is left out, and never at its turn. Where a part rests, each page is taken by one of so many looks.
pub fn sample_law()
    ensures left_out { LeftOutHasNoTurn }
    ensures taken { EachIsSampled }
{}

/// A page of which a glance finds that it has changed is met, and so is a new one. An idle page is glanced at by each look that takes it as
/// a sample, and each page before it is read. Over a frame there are no glances. The fingerprint of the last read counts only of an idle
/// page. And each page that stays as it is is read: within as many looks as its turns are apart, times those of which one reads it.
pub fn way_law()
    ensures changes { ChangesAreMet }
    ensures idle { IdleIsGlancedAt }
    ensures before { GlancesBeforeReads }
    ensures over { OverIsNeverMet }
    ensures kept { KeptIsIdle }
    ensures fresh { NewIsMet }
    ensures read { EachIsRead }
{}

/// A new page that stays as it is is idle after three looks at it.
pub fn stay_law()
    ensures { StaysIsIdle }
{}

/// A look leaves out at most as many idle pages for each one as the config says, and none after a look that found that more than a calm
/// share has changed. Where none is left out each page is in the sample. Where a part rests each idle page with memory of its own is glanced
/// at within one look more than are left out for each.
pub fn rest_law()
    ensures most { RestsWithin }
    ensures changes { ChangesEndRests }
    ensures all { AllAreSampled }
    ensures glanced { EachIsGlancedAt }
{}

/// How often an idle page is read or noted, and how often a page that nobody else has is asked about.
pub fn numbers_law()
    ensures read_each { READ_EACH ≡ 16 }
    ensures read_each_over { READ_EACH_OVER ≡ 2 }
    ensures passing_each { PASSING_EACH ≡ 4 }
    ensures asks_most { ASKS_MOST ≡ 3 }
    ensures turns { TURNS ≡ 8 }
    ensures whole_turns { WHOLE_TURNS ≡ 2 }
    ensures together { TOGETHER ≡ 64 }
    ensures calm_part { CALM_PART ≡ 16 }
{}
